ghost use Rattle.std.specs.Prelude.{◌≡◌};
ghost use Rattle.registers.specs.Numbers.{number_of};

// Why a fact was not put.
#[derive(Clone, Copy, PartialEq, Eq, Debug)]
pub enum Refusal {
    // Its predicate is over 15 or one of its ids over 127.
    OutOfBounds = 8,
    // It is not there yet, and the register is at its limit.
    Full = 9,
}

impl Refusal {
    pub fn number(self) -> u8
        ensures { result ≡ number_of self }
    {
        self as u8
    }
}
