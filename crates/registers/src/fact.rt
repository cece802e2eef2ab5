ghost use Rattle.std.specs.Prelude.{◌≡◌};
ghost use Rattle.registers.specs.Facts.{in_bounds};

// A predicate of two ids; a place that the predicate does not use holds 0, as in the file.
#[derive(Clone, Copy, PartialEq, Eq, Debug)]
pub struct Fact {
    pub predicate: u8,
    pub first: u16,
    pub second: u16,
}

// Predicates of facts that may be held are below this.
pub const PREDICATES: u8 = 16;

// Ids of facts that may be held are below this.
pub const IDS: u16 = 128;

// How many facts may be held at all: 16 times 128 times 128.
pub const ALL_FACTS: usize = 262144;

impl Fact {
    // May a register hold the fact at all?
    pub fn in_bounds(self) -> bool
        ensures { result ≡ in_bounds self.predicate self.first self.second }
    {
        self.predicate < PREDICATES && self.first < IDS && self.second < IDS
    }
}
