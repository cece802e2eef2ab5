use registers::fact::{ALL_FACTS, Fact};
use registers::grid::Grid;
use registers::record_list::RecordList;
use registers::register::Register;
use std::alloc::{AllocError, Global};

#[derive(Clone, Copy)]
pub enum Workload {
    FillLimitedGrid,
    FillGrid,
    FillList,
    Ask,
    Size,
}

pub const WORKLOADS: [Workload; 5] = [
    Workload::FillLimitedGrid,
    Workload::FillGrid,
    Workload::FillList,
    Workload::Ask,
    Workload::Size,
];

impl Workload {
    pub fn name(self) -> &'static str {
        match self {
            Workload::FillLimitedGrid => "fill a grid of limit 4096 with 4096 facts",
            Workload::FillGrid => "fill a grid of limit 262144 with 4096 facts",
            Workload::FillList => "fill a list with 4096 facts",
            Workload::Ask => "ask a grid a million questions",
            Workload::Size => "tell a full grid's size 1000 times",
        }
    }
}

// Runs a workload and gives a number that depends on all of its work. A match: an array of functions
// would be handed out as pointers, which the gate refuses.
pub fn run(heap: Global, workload: Workload) -> Result<u64, AllocError> {
    match workload {
        Workload::FillLimitedGrid => fill_grid(heap, 4096),
        Workload::FillGrid => fill_grid(heap, ALL_FACTS),
        Workload::FillList => fill_list(heap),
        Workload::Ask => ask(heap),
        Workload::Size => tell_size(heap),
    }
}

fn fill_grid(heap: Global, limit: usize) -> Result<u64, AllocError> {
    let mut grid = Grid::new(heap, limit)?;
    let accepted = put_rows(&mut grid, 5, 32);
    Ok(mixed(accepted, grid.size()))
}

fn fill_list(heap: Global) -> Result<u64, AllocError> {
    let empty = Fact {
        predicate: 0,
        first: 0,
        second: 0,
    };
    let mut table = vec![in heap; empty; 4096]?;
    let mut list = RecordList::new(table.as_mut_slice());
    let accepted = put_rows(&mut list, 5, 32);
    Ok(mixed(accepted, list.size()))
}

// Puts every fact of a predicate with a first id below a bound and a second id below 128; how many were accepted.
fn put_rows<R: Register>(register: &mut R, predicate: u8, firsts: u16) -> u64 {
    let mut accepted: u64 = 0;
    for first in 0..firsts {
        for second in 0..128 {
            let fact = Fact {
                predicate,
                first,
                second,
            };
            if register.put(fact).is_ok() {
                accepted = accepted.wrapping_add(1);
            }
        }
    }
    accepted
}

fn ask(heap: Global) -> Result<u64, AllocError> {
    let mut grid = Grid::new(heap, ALL_FACTS)?;
    let accepted = put_rows(&mut grid, 5, 32);
    let mut random: u64 = 1;
    let mut yes: u64 = 0;
    for _ in 0..1000000 {
        random = random
            .wrapping_mul(6364136223846793005)
            .wrapping_add(1442695040888963407);
        if grid.holds(fact_of(random)) {
            yes = yes.wrapping_add(random & 7).wrapping_add(1);
        }
    }
    Ok(accepted.wrapping_mul(1000000007).wrapping_add(yes))
}

// A fact in bounds by the bits of a number: half of the predicates are 4 or 5, half of the first ids below 32.
fn fact_of(random: u64) -> Fact {
    Fact {
        predicate: 4 + ((random >> 20) & 1) as u8,
        first: ((random >> 30) & 63) as u16,
        second: ((random >> 40) & 127) as u16,
    }
}

fn tell_size(heap: Global) -> Result<u64, AllocError> {
    let mut grid = Grid::new(heap, ALL_FACTS)?;
    let mut sum: u64 = 0;
    for predicate in 0..16 {
        sum = sum.wrapping_add(put_rows(&mut grid, predicate, 128));
    }
    for turn in 0..1000 {
        let fact = Fact {
            predicate: 7,
            first: 11,
            second: turn & 127,
        };
        grid.take(fact);
        sum = mixed(sum, grid.size());
        let _ = grid.put(fact);
    }
    Ok(sum)
}

fn mixed(sum: u64, size: usize) -> u64 {
    sum.wrapping_mul(31).wrapping_add(size as u64)
}
