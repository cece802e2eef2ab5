ghost use Rattle.std.specs.Prelude.{◌≡◌};
ghost use Rattle.goals.specs.FaultNumbers.{frame_number, file_number};
ghost use Rattle.goals.specs.declared.file_fault.FileFault.TheVariants.{Frame, Job};

use crate::goal_fault::GoalFault;
use crate::job_fault::JobFault;

// Why a file has no frame.
#[derive(Clone, Copy, PartialEq, Eq, Debug)]
pub enum FrameFault {
    // Its mark or its version is wrong or missing.
    Mark,
    // It is too long, ends early or goes on too long, at this place.
    Length(usize),
}

impl FrameFault {
    // By a match: `as` takes no enum whose variants hold something.
    pub fn number(self) -> u8
        ensures { result ≡ frame_number self }
    {
        match self {
            FrameFault::Mark => 18,
            FrameFault::Length(_) => 19,
        }
    }
}

// Why no job was read from a file: its frame is at fault, or its job, whose goal text begins at the place beside it.
#[derive(Clone, Copy, PartialEq, Eq, Debug)]
pub enum FileFault {
    Frame(FrameFault),
    Job(JobFault, usize),
}

// A fault of a job with the place in the file at which its goal text begins.
#[derive(Clone, Copy, PartialEq, Eq, Debug)]
pub struct PlacedFault {
    pub fault: JobFault,
    pub goal_at: usize,
}

impl FileFault {
    // By a match: `as` takes no enum whose variants hold something.
    pub fn number(self) -> u8
        ensures { result ≡ file_number self }
    {
        match self {
            FileFault::Frame(fault) => fault.number(),
            FileFault::Job(fault, _) => fault.number(),
        }
    }
}

impl From<FrameFault> for FileFault {
    ghost from_gives = { λ x y. y ≡ Frame x };

    fn from(value: FrameFault) -> FileFault {
        FileFault::Frame(value)
    }
}

impl From<PlacedFault> for FileFault {
    ghost from_gives = { λ x y. y ≡ Job x.fault x.goal_at };

    fn from(value: PlacedFault) -> FileFault {
        FileFault::Job(value.fault, value.goal_at)
    }
}
