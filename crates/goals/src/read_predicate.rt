ghost use Rattle.std.specs.Prelude.{◌≡◌, ◌+◌, ◌<◌, ◌≤◌, true, false, ◌&&◌, MatchOption, nat_le};
ghost use Rattle.goals.specs.Bytes.{byte_at};
ghost use Rattle.goals.specs.Sections.{predicate_at};
ghost use Rattle.goals.specs.CatalogueRules.{all_letters, sound_predicate};
ghost use Rattle.goals.specs.Entries.{predicate_text};

use crate::bytes::byte_at;
use crate::predicate::Predicate;

// No name is longer.
const LONGEST_NAME: usize = 16;

// No predicate has more places.
const MOST_PLACES: u8 = 2;

fn are_letters(bytes: &[u8]) -> bool
    ensures { result ≡ all_letters bytes.now }
{
    bytes.iter().all(|byte| byte.is_ascii_lowercase())
}

// At most two places, and a name of 1 to 16 letters.
fn in_limits(places: u8, length: usize) -> bool
    ensures { result ≡ (nat_le places 2 && (nat_le 1 length && nat_le length 16)) }
{
    places <= MOST_PLACES && (1..=LONGEST_NAME).contains(&length)
}

// The predicate at a place, or nothing if its places or its name break a rule.
pub(crate) fn read_predicate(file: &[u8], at: usize) -> Option<Predicate>
    requires { at < 900000 }
    ensures { MatchOption result (sound_predicate (predicate_at file.now at) ≡ false)
        (λ p. (predicate_text p ≡ predicate_at file.now at) × (sound_predicate (predicate_at file.now at) ≡ true) × (p.length ≤ 16) × (p.length ≡ byte_at file.now (at + 1))) }
{
    let places = byte_at(file, at);
    let length = usize::from(byte_at(file, at + 1));
    if !in_limits(places, length) {
        return None;
    }
    let letters = file.get(at + 2..at + 2 + length)?;
    if !are_letters(letters) {
        return None;
    }
    let mut name = [0; LONGEST_NAME];
    name[..length].copy_from_slice(letters);
    Some(Predicate {
        places,
        name,
        length,
    })
}
