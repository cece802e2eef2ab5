ghost use Rattle.std.specs.Prelude.{◌≡◌};
ghost use Rattle.sessions.specs.Refusals.{step_number, look_number};

use labels::refusal::LabelRefusal;

// Why a step was refused.
#[derive(Clone, Copy, PartialEq, Eq, Debug)]
pub enum StepRefusal {
    // A pending part names a node that the job lacks, or an id that is too high.
    OtherJob,
    NoOperation,
    // An argument is not below the number of ids, or an unused one is not 0.
    BadArgument,
    // The first need that does not hold, from 0.
    Need(usize),
    TooManySteps,
    // The facts after the step would pass the register's limit.
    Full,
    TooMuchWork,
    TooLong,
}

impl StepRefusal {
    // By a match: `as` takes no enum with a variant that holds something, and a `From` for `u8` would name no number.
    pub fn number(self) -> u8
        ensures { result ≡ step_number self }
    {
        match self {
            StepRefusal::OtherJob => 10,
            StepRefusal::NoOperation => 11,
            StepRefusal::BadArgument => 12,
            StepRefusal::Need(_) => 13,
            StepRefusal::TooManySteps => 14,
            StepRefusal::Full => 9,
            StepRefusal::TooMuchWork => 15,
            StepRefusal::TooLong => 16,
        }
    }
}

impl From<LabelRefusal> for StepRefusal {
    ghost use Rattle.sessions.specs.SessionView.{step_refusal_of};

    ghost from_gives = { λ x y. y ≡ step_refusal_of x };

    fn from(refusal: LabelRefusal) -> StepRefusal {
        match refusal {
            LabelRefusal::OtherJob => StepRefusal::OtherJob,
            LabelRefusal::TooMuchWork => StepRefusal::TooMuchWork,
            LabelRefusal::TooLong => StepRefusal::TooLong,
        }
    }
}

// Why a look was refused.
#[derive(Clone, Copy, PartialEq, Eq, Debug)]
pub enum LookRefusal {
    OtherJob = 10,
}

impl LookRefusal {
    pub fn number(self) -> u8
        ensures { result ≡ look_number self }
    {
        self as u8
    }
}
