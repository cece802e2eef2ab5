ghost use Rattle.std.specs.Prelude.{◌≡◌, ◌≤◌};
ghost use Rattle.goals.specs.Filling.{fact_at, facts_of};

use crate::bytes::byte_at;
use crate::frame::FramedFile;
use registers::fact::Fact;
use registers::fact_list::FactList;

// The fact in the three bytes at a place.
fn fact_at(file: &[u8], at: usize) -> Fact
    requires { at ≤ 1000000 }
    ensures { result ≡ fact_at file.now at }
{
    Fact {
        predicate: byte_at(file, at),
        first: u16::from(byte_at(file, at + 1)),
        second: u16::from(byte_at(file, at + 2)),
    }
}

// The facts of a framed file, three bytes each.
impl<'a> FactList for FramedFile<'a> {
    ghost listed = { λ s. facts_of s.bytes.now s.frame };

    fn count(&self) -> usize {
        usize::from(self.frame.facts)
    }

    // Tested by hand: as `file.get(..)?.as_chunks::<3>()` it is longer, and the definition goes by the place of the bytes.
    fn get(&self, index: usize) -> Option<Fact> {
        if index < usize::from(self.frame.facts) {
            Some(fact_at(self.bytes, self.frame.facts_at + 3 * index))
        } else {
            None
        }
    }
}
