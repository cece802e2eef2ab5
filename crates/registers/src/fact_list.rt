ghost use Rattle.std.specs.Prelude.{◌≡◌, ◌≤◌, List, length, drop};
ghost use Rattle.std.specs.List.{slice_get};
ghost use Rattle.std.specs.Iterator.{at_most, YieldsFirst};
ghost use Rattle.registers.specs.declared.fact.Fact.{Fact};

use crate::fact::Fact;

// Facts that can be read one by one, as those of an edition file.
pub trait FactList {
    ghost listed: { Self → List Fact };

    fn count(&self) -> usize
        ensures { result ≡ length (listed self.now) };

    // The fact at an index, if there is one.
    fn get(&self, index: usize) -> Option<Fact>
        ensures { result ≡ slice_get (listed self.now) index };
}

// The facts of a list that are left, from its beginning to its end.
#[derive(Drop)]
pub struct FactIter<'a, L> {
    list: &'a L,
    next: usize,
    end: usize,
}

// Goes through the facts of a list.
pub fn facts<L: FactList>(list: &L) -> FactIter<'_, L>
    ensures list { result.list.now ≡ list.now }
    ensures start { result.next ≡ 0 }
    ensures end { result.end ≡ length (L.FactList.listed list.now) }
{
    FactIter {
        list,
        next: 0,
        end: list.count(),
    }
}

impl<'a, L: FactList> Iterator for FactIter<'a, L> {
    type Item = Fact;

    ghost can_next = { λ s. s.end ≡ length (L.FactList.listed s.list.now) };

    ghost remaining = { λ s. at_most (length (drop s.next (L.FactList.listed s.list.now))) };

    ghost next_gives = { YieldsFirst (λ s. drop s.next (L.FactList.listed s.list.now)) };

    fn next(&mut self) -> Option<Fact> {
        if self.next >= self.end {
            return None;
        }
        let fact = self.list.get(self.next);
        self.next += 1;
        fact
    }
}
