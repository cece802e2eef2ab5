ghost use Rattle.std.specs.Prelude.{◌≡◌};
ghost use Rattle.goals.specs.FaultNumbers.{job_number, place_in_text};
ghost use Rattle.goals.specs.GoalFaults.{fault_number};
ghost use Rattle.goals.specs.declared.job_fault.JobFault.TheVariants.{Catalogue, Goal};

use crate::catalogue_fault::CatalogueFault;
use crate::goal_fault::GoalFault;

impl GoalFault {
    // By a match, as each fault's number: the variants hold places.
    pub fn number(self) -> u8
        ensures { result ≡ fault_number self }
    {
        match self {
            GoalFault::TooLong => 3,
            GoalFault::Follow(_) => 4,
            GoalFault::Unknown(_) => 5,
            GoalFault::Range(_) => 6,
            GoalFault::Limit(_) => 7,
        }
    }

    // The place in the goal text, where the fault has one.
    pub fn place(self) -> Option<usize>
        ensures { result ≡ place_in_text self }
    {
        match self {
            GoalFault::TooLong => None,
            GoalFault::Follow(place)
            | GoalFault::Unknown(place)
            | GoalFault::Range(place)
            | GoalFault::Limit(place) => Some(place),
        }
    }
}

// Why there is no job: its catalogue or its goal is at fault.
#[derive(Clone, Copy, PartialEq, Eq, Debug)]
pub enum JobFault {
    Catalogue(CatalogueFault),
    Goal(GoalFault),
}

impl JobFault {
    // By a match: `as` takes no enum whose variants hold something.
    pub fn number(self) -> u8
        ensures { result ≡ job_number self }
    {
        match self {
            JobFault::Catalogue(fault) => fault.number(),
            JobFault::Goal(fault) => fault.number(),
        }
    }
}

impl From<CatalogueFault> for JobFault {
    ghost from_gives = { λ x y. y ≡ Catalogue x };

    fn from(value: CatalogueFault) -> JobFault {
        JobFault::Catalogue(value)
    }
}

impl From<GoalFault> for JobFault {
    ghost from_gives = { λ x y. y ≡ Goal x };

    fn from(value: GoalFault) -> JobFault {
        JobFault::Goal(value)
    }
}
