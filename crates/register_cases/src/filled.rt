use registers::fact::Fact;
use registers::grid::Grid;
use registers::record_list::RecordList;
use registers::refusal::Refusal;
use registers::register::Register;
use std::io;

// How many facts were put, and how many were refused with which number.
#[derive(Clone, Copy)]
struct Tally {
    accepted: u32,
    out_of_bounds: u32,
    full: u32,
}

impl Tally {
    fn count(&mut self, answer: Result<(), Refusal>) {
        match answer {
            Ok(()) => self.accepted = self.accepted.wrapping_add(1),
            Err(Refusal::OutOfBounds) => self.out_of_bounds = self.out_of_bounds.wrapping_add(1),
            Err(Refusal::Full) => self.full = self.full.wrapping_add(1),
        }
    }
}

// Puts every fact of the first predicates with every first id below a bound and every second id below 128.
fn put_many<R: Register>(register: &mut R, predicates: u8, firsts: u16) -> Tally {
    let mut tally = Tally {
        accepted: 0,
        out_of_bounds: 0,
        full: 0,
    };
    for predicate in 0..predicates {
        for first in 0..firsts {
            put_row(register, predicate, first, &mut tally);
        }
    }
    tally
}

fn put_row<R: Register>(register: &mut R, predicate: u8, first: u16, tally: &mut Tally) {
    for second in 0..128 {
        tally.count(register.put(Fact {
            predicate,
            first,
            second,
        }));
    }
}

fn print_filled<R: Register>(
    rt: &HostRuntime,
    made: &str,
    given: usize,
    register: &mut R,
    predicates: u8,
    firsts: u16,
) -> io::Result<()> {
    let limit = register.limit();
    let tally = put_many(register, predicates, firsts);
    let accepted = tally.accepted;
    let full = tally.full;
    let out_of_bounds = tally.out_of_bounds;
    let size = register.size();
    println!(rt;
        "{made} {given}: limit {limit}, {accepted} accepted, {out_of_bounds} refused 8, {full} refused 9, size {size}"
    )
}

// A limit that a grid is given, and which facts are put.
#[derive(Clone, Copy)]
struct GridCase {
    limit: usize,
    predicates: u8,
    firsts: u16,
}

const GRID_CASES: [GridCase; 6] = [
    GridCase {
        limit: 0,
        predicates: 1,
        firsts: 1,
    },
    GridCase {
        limit: 1,
        predicates: 1,
        firsts: 1,
    },
    GridCase {
        limit: 4096,
        predicates: 1,
        firsts: 33,
    },
    GridCase {
        limit: 262143,
        predicates: 16,
        firsts: 128,
    },
    GridCase {
        limit: 262144,
        predicates: 16,
        firsts: 129,
    },
    GridCase {
        limit: 262145,
        predicates: 17,
        firsts: 128,
    },
];

pub fn print_grids(rt: &HostRuntime) -> io::Result<()> {
    for case in &GRID_CASES {
        let mut grid = Grid::new(rt.alloc(), case.limit)?;
        print_filled(
            rt,
            "grid given the limit",
            case.limit,
            &mut grid,
            case.predicates,
            case.firsts,
        )?;
    }
    Ok(())
}

// Lengths of tables that lists are made of.
const TABLE_LENGTHS: [usize; 5] = [0, 1, 4095, 4096, 4097];

pub fn print_lists(rt: &HostRuntime) -> io::Result<()> {
    for length in TABLE_LENGTHS {
        let empty = Fact {
            predicate: 0,
            first: 0,
            second: 0,
        };
        let mut table = vec![in rt.alloc(); empty; length]?;
        let mut list = RecordList::new(table.as_mut_slice());
        print_filled(rt, "list on a table of length", length, &mut list, 1, 33)?;
    }
    Ok(())
}
