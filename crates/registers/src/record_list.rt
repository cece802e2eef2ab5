ghost use Rattle.std.specs.Prelude.{◌≡◌, ℕ, ◌<◌, ◌≤◌, min, true, length, take, position};
ghost use Rattle.registers.specs.Facts.{count_of};
ghost use Rattle.registers.specs.Meaning.{allowed, empty_of, has, size_of};
ghost use Rattle.registers.specs.Records.{listed, list_meaning, is_record};
ghost use Rattle.registers.specs.declared.fact.Fact.{Fact};

use crate::fact::Fact;
use crate::refusal::Refusal;
use crate::register::Register;

// However long its table is, a list holds at most so many facts.
const MOST_RECORDS: usize = 4096;

// A register that keeps its records in a table lent by the caller: the first `len` of them are the facts held, in
// any order; what the others hold is free. The length stands beside the table, and no `Vec`: a list asks for no memory.
#[derive(Drop)]
pub struct RecordList<'a> {
    table: &'a mut [Fact],
    len: usize,
    ghost few: { len ≤ min (length table.now) 4096 },
    ghost apart: { count_of (listed (take len table.now)) ≡ len },
    ghost bounded: { (f : Fact) → listed (take len table.now) f.predicate f.first f.second ≡ true → allowed f ≡ true },
}

impl<'a> RecordList<'a> {
    // An empty list; its limit is the table's length, cut to 4,096. The table is not written.
    pub fn new(table: &'a mut [Fact]) -> RecordList<'a>
        ensures meaning { list_meaning result.table.now result.len ≡ empty_of (min (length table.old) 4096) }
        ensures kept { result.table.now ≡ table.old }
    {
        RecordList { table, len: 0 }
    }

    // The records in use: each fact held, once, in any order.
    pub fn records(&self) -> &[Fact]
        ensures each { (f : Fact) → listed result.now f.predicate f.first f.second ≡ has (list_meaning self.now.table.now self.now.len) f }
        ensures once { length result.now ≡ size_of (list_meaning self.now.table.now self.now.len) }
    {
        &self.table[0..self.len]
    }

    // Where the fact stands among the records, if it does.
    fn place(&self, fact: Fact) -> Option<usize>
        ensures { result ≡ position (is_record fact) (take self.now.len self.now.table.now) }
    {
        find(&self.table[..self.len], fact)
    }

    fn room(&self) -> usize
        ensures { result ≡ min (length self.now.table.now) 4096 }
    {
        self.table.len().min(MOST_RECORDS)
    }
}

// Where the fact stands among the records, if it does.
fn find(records: &[Fact], fact: Fact) -> Option<usize>
    ensures { result ≡ position (is_record fact) records.now }
{
    records.iter().position(|record| *record == fact)
}

impl<'a> Register for RecordList<'a> {
    ghost use Rattle.registers.specs.Lawfulness.{list_lawful};

    ghost meaning = { λ l. list_meaning l.table.now l.len };

    ghost lawful = { λ l. list_lawful _ _ l.few l.apart l.bounded };

    fn holds(&self, fact: Fact) -> bool {
        self.place(fact).is_some()
    }

    fn size(&self) -> usize {
        self.len
    }

    fn limit(&self) -> usize {
        self.room()
    }

    fn put(&mut self, fact: Fact) -> Result<(), Refusal> {
        if !fact.in_bounds() {
            return Err(Refusal::OutOfBounds);
        }
        if self.place(fact).is_some() {
            return Ok(());
        }
        if self.len >= self.room() {
            return Err(Refusal::Full);
        }
        self.table[self.len] = fact;
        self.len += 1;
        Ok(())
    }

    fn take(&mut self, fact: Fact) {
        if let Some(at) = self.place(fact) {
            self.table[at] = self.table[self.len - 1];
            self.len -= 1;
        }
    }
}
