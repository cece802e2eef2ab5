ghost use Rattle.std.specs.Prelude.{◌≡◌};
ghost use Rattle.goals.specs.FaultNumbers.{fill_number};
ghost use Rattle.goals.specs.declared.fill_fault.FillFault.TheVariants.{File, Register};

use crate::file_fault::FileFault;
use registers::refusal::Refusal;

// Why a register was not filled from a file.
#[derive(Clone, Copy, PartialEq, Eq, Debug)]
pub enum FillFault {
    // The file itself is at fault.
    File(FileFault),
    // A fact is out of bounds, or the register would pass its limit.
    Register(Refusal),
}

impl FillFault {
    // By a match: `as` takes no enum whose variants hold something.
    pub fn number(self) -> u8
        ensures { result ≡ fill_number self }
    {
        match self {
            FillFault::File(fault) => fault.number(),
            FillFault::Register(refusal) => refusal.number(),
        }
    }
}

impl From<FileFault> for FillFault {
    ghost from_gives = { λ x y. y ≡ File x };

    fn from(value: FileFault) -> FillFault {
        FillFault::File(value)
    }
}

impl From<Refusal> for FillFault {
    ghost from_gives = { λ x y. y ≡ Register x };

    fn from(value: Refusal) -> FillFault {
        FillFault::Register(value)
    }
}
