use crate::shown::ShownPutting;
use registers::fact::Fact;
use registers::fact_list::FactList;
use registers::grid::Grid;
use registers::put_all::put_all;
use registers::record_list::RecordList;
use registers::register::Register;
use std::io;

// Facts that stand in a slice.
#[derive(Clone, Copy)]
struct FactSlice<'a>(&'a [Fact]);

impl<'a> FactList for FactSlice<'a> {
    ghost listed = { λ s. s.0.now };

    fn count(&self) -> usize {
        self.0.len()
    }

    fn get(&self, index: usize) -> Option<Fact> {
        self.0.get(index).copied()
    }
}

const A: Fact = Fact {
    predicate: 3,
    first: 0,
    second: 1,
};

const B: Fact = Fact {
    predicate: 3,
    first: 1,
    second: 0,
};

const C: Fact = Fact {
    predicate: 15,
    first: 127,
    second: 127,
};

const PREDICATE_16: Fact = Fact {
    predicate: 16,
    first: 0,
    second: 0,
};

const FIRST_128: Fact = Fact {
    predicate: 0,
    first: 128,
    second: 0,
};

const SECOND_128: Fact = Fact {
    predicate: 0,
    first: 0,
    second: 128,
};

// A register of a limit that holds some facts already, and a list that is put.
#[derive(Clone, Copy)]
struct ListCase {
    what: &'static str,
    limit: usize,
    held: &'static [Fact],
    facts: &'static [Fact],
}

const LIST_CASES: [ListCase; 11] = [
    ListCase {
        what: "no facts",
        limit: 0,
        held: &[],
        facts: &[],
    },
    ListCase {
        what: "as many as the limit",
        limit: 2,
        held: &[],
        facts: &[A, B],
    },
    ListCase {
        what: "one more than the limit",
        limit: 2,
        held: &[],
        facts: &[A, B, C],
    },
    ListCase {
        what: "repeated facts, each counted once",
        limit: 2,
        held: &[],
        facts: &[A, B, A, B, A],
    },
    ListCase {
        what: "repeated facts, one too many",
        limit: 2,
        held: &[],
        facts: &[A, A, B, B, C],
    },
    ListCase {
        what: "a fact held already, room for the other",
        limit: 2,
        held: &[A],
        facts: &[A, B],
    },
    ListCase {
        what: "a fact held already, room for one of two",
        limit: 2,
        held: &[A],
        facts: &[B, C],
    },
    ListCase {
        what: "a full register and its own facts",
        limit: 2,
        held: &[A, B],
        facts: &[B, A],
    },
    ListCase {
        what: "predicate 16 at the end",
        limit: 9,
        held: &[A],
        facts: &[B, C, PREDICATE_16],
    },
    ListCase {
        what: "first id 128 at the end",
        limit: 9,
        held: &[A],
        facts: &[B, C, FIRST_128],
    },
    ListCase {
        what: "second id 128 at the end, and too many",
        limit: 1,
        held: &[A],
        facts: &[B, C, SECOND_128],
    },
];

// How many facts of a slice are held, a repeated one as often as it stands there.
fn count_held<R: Register>(register: &R, facts: &[Fact]) -> usize {
    facts.iter().filter(|fact| register.holds(**fact)).count()
}

fn print_case<R: Register>(
    rt: &HostRuntime,
    make: &str,
    register: &mut R,
    case: &ListCase,
) -> io::Result<()> {
    for fact in case.held {
        let _ = register.put(*fact);
    }
    let size = register.size();
    let held = count_held(register, case.facts);
    let answer = ShownPutting(put_all(register, &FactSlice(case.facts)));
    let size_after = register.size();
    let held_after = count_held(register, case.facts);
    let what = case.what;
    let limit = case.limit;
    println!(rt;
        "{make} of limit {limit}, {what}: {answer}, size {size} then {size_after}, of the list held {held} then {held_after}"
    )
}

pub fn print_lists(rt: &HostRuntime) -> io::Result<()> {
    for case in &LIST_CASES {
        let mut grid = Grid::new(rt.alloc(), case.limit)?;
        print_case(rt, "grid", &mut grid, case)?;
        let mut table = vec![in rt.alloc(); A; case.limit]?;
        let mut list = RecordList::new(table.as_mut_slice());
        print_case(rt, "list", &mut list, case)?;
    }
    Ok(())
}
