ghost use Rattle.std.specs.Prelude.{◌≡◌};
ghost use Rattle.sessions.specs.Steps.{term_id, ground as ground_fact, ground_all};

use crate::step::Arguments;
use goals::operation::{Entries, Entry, EntryTerm};
use registers::fact::Fact;
use registers::fact_list::FactList;

// The facts that entries of an operation name under a step's arguments.
#[derive(Clone, Copy)]
pub struct Ground {
    pub entries: Entries,
    pub arguments: Arguments,
}

fn id_of(term: EntryTerm, arguments: Arguments) -> u16
    ensures { result ≡ term_id arguments term }
{
    match term {
        EntryTerm::Id(id) => id,
        EntryTerm::Parameter(parameter) => arguments.get(parameter),
    }
}

// The fact that an entry names.
pub fn fact_of(entry: Entry, arguments: Arguments) -> Fact
    ensures { result ≡ ground_fact arguments entry }
{
    Fact {
        predicate: entry.predicate,
        first: id_of(entry.first, arguments),
        second: id_of(entry.second, arguments),
    }
}

impl FactList for Ground {
    ghost listed = { λ g. ground_all g.arguments g.entries };

    fn count(&self) -> usize {
        self.entries.as_slice().len()
    }

    fn get(&self, index: usize) -> Option<Fact> {
        let entry = self.entries.as_slice().get(index)?;
        Some(fact_of(*entry, self.arguments))
    }
}
