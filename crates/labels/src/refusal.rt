ghost use Rattle.std.specs.Prelude.{◌≡◌};
ghost use Rattle.labels.specs.RefusalNumbers.{number_of};

// Why a label was not progressed or judged.
#[derive(Clone, Copy, PartialEq, Eq, Debug)]
pub enum LabelRefusal {
    // A pending part names a node that the job lacks, or an id that it lacks.
    OtherJob = 10,
    // The work of the step exceeds 4,096 labels.
    TooMuchWork = 15,
    // The new label exceeds 512 distinct parts.
    TooLong = 16,
}

impl LabelRefusal {
    pub fn number(self) -> u8
        ensures { result ≡ number_of self }
    {
        self as u8
    }
}
