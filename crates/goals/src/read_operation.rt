ghost use Rattle.std.specs.Prelude.{◌<◌, ◌≤◌, length};

use crate::bytes::{byte_at, word_at};
use crate::operation::{Entries, Entry, EntryTerm, MOST_ENTRIES, Operation};
use crate::predicate::Predicate;
use crate::time::Span;

const MOST_PARAMETERS: u8 = 3;

const LONGEST_SPAN: u16 = 1000;

// Reads the operations of a file: its bytes, how many ids there are, and the predicates of its catalogue.
#[derive(Clone, Copy)]
pub(crate) struct OperationReader<'a> {
    pub file: &'a [u8],
    pub ids: u8,
    pub predicates: &'a [Predicate],
    ghost some: { 0 < ids },
    ghost few: { length predicates.now ≤ 16 },
}

// Reads the entries of one operation: how many parameters it has, and whether the entries are needs.
#[derive(Clone, Copy)]
struct EntryReader<'a> {
    operations: OperationReader<'a>,
    parameters: u8,
    needs: bool,
}

impl EntryReader<'_> {
    ghost use Rattle.std.specs.Prelude.{◌≡◌, true, ◌&&◌, nat_le};
    ghost use Rattle.goals.specs.CatalogueRules.{predicate_number};
    ghost use Rattle.goals.specs.EntryReading.{TermSays, EntrySays, EntriesSay};

    // A term byte where the predicate has the place: 0 to 127 an id, 128 to 130 a parameter, all else a fault.
    fn term(self, byte: u8) -> Option<EntryTerm>
        ensures { TermSays self.entry true byte result }
    {
        match byte {
            0..=127 if byte < self.operations.ids => Some(EntryTerm::Id(u16::from(byte))),
            128..=130 if byte - 128 < self.parameters => Some(EntryTerm::Parameter(byte - 128)),
            _ => None,
        }
    }

    // A term byte; where the predicate has no such place it is 0.
    fn place(self, used: bool, byte: u8) -> Option<EntryTerm>
        ensures { TermSays self.entry used byte result }
    {
        if used {
            self.term(byte)
        } else if byte == 0 {
            Some(EntryTerm::Id(0))
        } else {
            None
        }
    }

    // Only a need is negated, by 128 added to the predicate's number.
    fn is_negated(self, byte: u8) -> bool
        ensures { result ≡ (self.entry.needs && nat_le 128 byte) }
    {
        self.needs && byte >= 128
    }

    // The predicate's number in an entry's first byte.
    fn number_of(self, byte: u8) -> u8
        ensures { result ≡ predicate_number self.entry.needs byte }
    {
        if self.is_negated(byte) {
            byte - 128
        } else {
            byte
        }
    }

    // The three bytes of an entry at a place.
    fn entry(self, at: usize) -> Option<Entry>
        requires { at < 900000 }
        ensures { EntrySays self.entry at result }
    {
        let file = self.operations.file;
        let byte = byte_at(file, at);
        let number = self.number_of(byte);
        let places = self.operations.predicates.get(usize::from(number))?.places;
        let first = self.place(places >= 1, byte_at(file, at + 1))?;
        let second = self.place(places >= 2, byte_at(file, at + 2))?;
        Some(Entry {
            negated: self.is_negated(byte),
            predicate: number,
            first,
            second,
        })
    }

    // So many entries, one behind the other; more than six are a fault.
    fn entries(self, at: usize, count: u8) -> Option<Entries>
        requires { at < 800000 }
        ensures { EntriesSay self.entry count at result }
    {
        let count = usize::from(count);
        if count > MOST_ENTRIES {
            return None;
        }
        // A fixed array beside its count: an operation is `Copy`, and no memory is asked for after the rooms are made.
        let mut items = [UNUSED; MOST_ENTRIES];
        for (k, item) in items[..count].iter_mut().enumerate() {
            *item = self.entry(at + 3 * k)?;
        }
        Some(Entries { items, count })
    }
}

const UNUSED: Entry = Entry {
    negated: false,
    predicate: 0,
    first: EntryTerm::Id(0),
    second: EntryTerm::Id(0),
};

impl OperationReader<'_> {
    ghost use Rattle.goals.specs.EntryReading.{OperationSays};

    // The operation at a place, or nothing if it breaks a rule.
    #[tactic(auto, unfolding(crate::specs::CatalogueRules::sound_operation, crate::specs::EntryBounds::operation_inside))]
    pub(crate) fn read(self, at: usize) -> Option<Operation>
        requires { at < 700000 }
        ensures { OperationSays self.entry at result }
    {
        let parameters = byte_at(self.file, at);
        let span = word_at(self.file, at + 1);
        if parameters > MOST_PARAMETERS || span > LONGEST_SPAN {
            return None;
        }
        let need_count = byte_at(self.file, at + 3);
        let take_count = byte_at(self.file, at + 4);
        let put_count = byte_at(self.file, at + 5);
        let takes_at = at + 6 + 3 * usize::from(need_count);
        let puts_at = takes_at + 3 * usize::from(take_count);
        let needed = EntryReader {
            operations: self,
            parameters,
            needs: true,
        };
        let changed = EntryReader {
            needs: false,
            ..needed
        };
        let needs = needed.entries(at + 6, need_count)?;
        let takes = changed.entries(takes_at, take_count)?;
        let puts = changed.entries(puts_at, put_count)?;
        Some(Operation {
            parameters,
            span: Span { hours: span },
            needs,
            takes,
            puts,
        })
    }
}
