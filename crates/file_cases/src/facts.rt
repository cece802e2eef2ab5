use crate::build::{BODY, Body, HEADER, Header, Operations, Predicate, build};
use crate::shown::ShownFilling;
use goals::job::JobRoom;
use goals::read_job::fill;
use registers::grid::Grid;
use registers::register::Register;
use std::io;

// A file with one fact.
#[derive(Clone, Copy)]
struct FactCase {
    what: &'static str,
    ids: u8,
    fact: &'static [[u8; 3]],
}

// The file has 3 predicates, of one place, of two and of none.
static PLACE_CASES: [FactCase; 12] = [
    FactCase {
        what: "predicate P - 1",
        ids: 2,
        fact: &[[2, 0, 0]],
    },
    FactCase {
        what: "predicate P",
        ids: 2,
        fact: &[[3, 0, 0]],
    },
    FactCase {
        what: "predicate 255",
        ids: 2,
        fact: &[[255, 0, 0]],
    },
    FactCase {
        what: "one place, id N - 1",
        ids: 2,
        fact: &[[0, 1, 0]],
    },
    FactCase {
        what: "one place, id N",
        ids: 2,
        fact: &[[0, 2, 0]],
    },
    FactCase {
        what: "one place, second id not 0",
        ids: 2,
        fact: &[[0, 1, 1]],
    },
    FactCase {
        what: "two places, ids N - 1",
        ids: 2,
        fact: &[[1, 1, 1]],
    },
    FactCase {
        what: "two places, first id N",
        ids: 2,
        fact: &[[1, 2, 0]],
    },
    FactCase {
        what: "two places, second id N",
        ids: 2,
        fact: &[[1, 0, 2]],
    },
    FactCase {
        what: "no place, ids 0",
        ids: 2,
        fact: &[[2, 0, 0]],
    },
    FactCase {
        what: "no place, first id not 0",
        ids: 2,
        fact: &[[2, 1, 0]],
    },
    FactCase {
        what: "no place, second id not 0",
        ids: 2,
        fact: &[[2, 0, 1]],
    },
];

// Files with as many ids as there may be.
static MANY_IDS_CASES: [FactCase; 5] = [
    FactCase {
        what: "N = 128, first id 127",
        ids: 128,
        fact: &[[0, 127, 0]],
    },
    FactCase {
        what: "N = 128, first id 128",
        ids: 128,
        fact: &[[0, 128, 0]],
    },
    FactCase {
        what: "N = 128, second id 127",
        ids: 128,
        fact: &[[1, 127, 127]],
    },
    FactCase {
        what: "N = 128, second id 128",
        ids: 128,
        fact: &[[1, 127, 128]],
    },
    FactCase {
        what: "N = 128, both ids 255",
        ids: 128,
        fact: &[[1, 255, 255]],
    },
];

fn print_fact(rt: &HostRuntime, what: &str, header: Header, body: Body) -> io::Result<()> {
    let file = build(rt.alloc(), &Header { facts: 1, ..header }, &body)?;
    let mut grid = Grid::new(rt.alloc(), 1000)?;
    let answer = ShownFilling::of(fill(&mut grid, file.as_slice(), JobRoom::new(rt.alloc())?));
    let size = grid.size();
    println!(rt; "{what}: {answer}, size {size}")
}

fn print_cases(rt: &HostRuntime, cases: &[FactCase]) -> io::Result<()> {
    for case in cases {
        let header = Header {
            ids: case.ids,
            ..HEADER
        };
        let body = Body {
            facts: case.fact,
            ..BODY
        };
        print_fact(rt, case.what, header, body)?;
    }
    Ok(())
}

// As many predicates as there may be, of no place each.
pub const SIXTEEN: &'static [Predicate] = &[
    Predicate {
        places: 0,
        name: b"a",
    },
    Predicate {
        places: 0,
        name: b"b",
    },
    Predicate {
        places: 0,
        name: b"c",
    },
    Predicate {
        places: 0,
        name: b"d",
    },
    Predicate {
        places: 0,
        name: b"e",
    },
    Predicate {
        places: 0,
        name: b"f",
    },
    Predicate {
        places: 0,
        name: b"g",
    },
    Predicate {
        places: 0,
        name: b"h",
    },
    Predicate {
        places: 0,
        name: b"i",
    },
    Predicate {
        places: 0,
        name: b"j",
    },
    Predicate {
        places: 0,
        name: b"k",
    },
    Predicate {
        places: 0,
        name: b"l",
    },
    Predicate {
        places: 0,
        name: b"m",
    },
    Predicate {
        places: 0,
        name: b"n",
    },
    Predicate {
        places: 0,
        name: b"o",
    },
    Predicate {
        places: 0,
        name: b"p",
    },
];

fn print_16_predicates(rt: &HostRuntime, what: &str, fact: &'static [[u8; 3]]) -> io::Result<()> {
    let header = Header {
        predicates: 16,
        operations: 0,
        ..HEADER
    };
    let body = Body {
        predicates: SIXTEEN,
        operations: Operations {
            part: &[],
            times: 0,
        },
        facts: fact,
        ..BODY
    };
    print_fact(rt, what, header, body)
}

pub fn print_facts(rt: &HostRuntime) -> io::Result<()> {
    print_cases(rt, &PLACE_CASES)?;
    print_cases(rt, &MANY_IDS_CASES)?;
    print_16_predicates(rt, "P = 16, predicate 15", &[[15, 0, 0]])?;
    print_16_predicates(rt, "P = 16, predicate 16", &[[16, 0, 0]])
}
