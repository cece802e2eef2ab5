ghost use Rattle.std.specs.Prelude.{◌≡◌, take, position};
ghost use Rattle.std.specs.Str.{bytes_eq};
ghost use Rattle.goals.specs.Vocabulary.{name_of, find_from};
ghost use Rattle.goals.specs.Meanings.{meaning};

// A predicate of a catalogue: how many terms it takes, and its name, whose letters are the first `length` of `name`.
// The array is fixed, with its length beside it: a predicate is `Copy`, and no memory is asked for after the rooms are made.
#[derive(Clone, Copy)]
pub struct Predicate {
    pub places: u8,
    pub name: [u8; 16],
    pub length: usize,
}

impl Predicate {
    // The letters of its name.
    pub(crate) fn letters(&self) -> &[u8]
        ensures { result.now ≡ name_of self.now }
    {
        &self.name[..self.length.min(16)]
    }
}

// The predicate that a name means, and how many terms it takes.
#[derive(Clone, Copy)]
pub struct Sense {
    pub predicate: u8,
    pub places: u8,
}

// The number of the first predicate with a name.
pub(crate) fn number_of(predicates: &[Predicate], name: &[u8]) -> Option<usize>
    ensures { result ≡ position (λ p. bytes_eq (name_of p) name.now) predicates.now }
{
    predicates
        .iter()
        .position(|predicate| predicate.letters() == name)
}

// So many numbers of predicates a byte can tell.
const MOST_NUMBERS: usize = 256;

// The first predicate with a name; a predicate's number is a byte, so that none behind the first 256 is looked at.
pub fn find(predicates: &[Predicate], name: &[u8]) -> Option<Sense>
    ensures { find_from 0 (take 256 predicates.now) name.now ≡ meaning result }
{
    let numbered = &predicates[..predicates.len().min(MOST_NUMBERS)];
    let number = number_of(numbered, name)?;
    Some(Sense {
        predicate: number as u8,
        places: numbered[number].places,
    })
}
