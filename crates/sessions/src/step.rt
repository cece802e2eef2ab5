ghost use Rattle.std.specs.Prelude.{◌≡◌};
ghost use Rattle.sessions.specs.Steps.{argument};

// The three arguments of a step, 0 where unused: the file has three, and another number there is refused.
#[derive(Clone, Copy, PartialEq, Eq, Debug)]
pub struct Arguments {
    pub first: u16,
    pub second: u16,
    pub third: u16,
}

// An operation by its number, with its arguments.
#[derive(Clone, Copy, PartialEq, Eq, Debug)]
pub struct Step {
    pub operation: u8,
    pub arguments: Arguments,
}

impl Arguments {
    // The argument for a parameter, from 0.
    pub fn get(self, parameter: u8) -> u16
        ensures { result ≡ argument self parameter }
    {
        let arguments = [self.first, self.second, self.third];
        arguments.get(usize::from(parameter)).copied().unwrap_or(0)
    }
}
