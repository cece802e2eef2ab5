ghost use Rattle.std.specs.Prelude.{◌≡◌};
ghost use Rattle.labels.specs.Connectives.{absorbing_part, neutral_part, joined_part};

use crate::part::Part;

// What two labels are joined by.
#[derive(Clone, Copy)]
pub enum Connective {
    And,
    Or,
}

impl Connective {
    // The part that is the result wherever it is joined.
    pub fn absorbing(self) -> Part
        ensures { result ≡ absorbing_part self }
    {
        match self {
            Connective::And => Part::False,
            Connective::Or => Part::True,
        }
    }

    // The part that a joining leaves out.
    pub fn neutral(self) -> Part
        ensures { result ≡ neutral_part self }
    {
        match self {
            Connective::And => Part::True,
            Connective::Or => Part::False,
        }
    }

    // The part that joins two others, by their places.
    pub fn joined(self, i: usize, j: usize) -> Part
        ensures { result ≡ joined_part self i j }
    {
        match self {
            Connective::And => Part::And(i, j),
            Connective::Or => Part::Or(i, j),
        }
    }
}
