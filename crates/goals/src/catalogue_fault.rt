ghost use Rattle.std.specs.Prelude.{◌≡◌};
ghost use Rattle.goals.specs.FaultNumbers.{catalogue_number};

// Why a catalogue is refused.
#[derive(Clone, Copy, PartialEq, Eq, Debug)]
pub enum CatalogueFault {
    // A count or a number of places is out of its limits, or a name is malformed or repeated.
    Shape,
    // This operation breaks a rule.
    Operation(u8),
}

impl CatalogueFault {
    // A method, as on every fault: nothing is generic over faults, so a trait would have no use, and `u8::from` doesn't say what it gives.
    pub fn number(self) -> u8
        ensures { result ≡ catalogue_number self }
    {
        match self {
            CatalogueFault::Shape => 1,
            CatalogueFault::Operation(_) => 2,
        }
    }
}
