use crate::build::{BODY, Body, HEADER, Header, LENGTH, Text, build};
use crate::shown::ShownFilling;
use goals::job::JobRoom;
use goals::read_job::fill;
use registers::grid::Grid;
use registers::register::Register;
use std::io;

// Fills an empty grid from a file.
fn print_file(rt: &HostRuntime, what: &str, file: &[u8]) -> io::Result<()> {
    let mut grid = Grid::new(rt.alloc(), 1000)?;
    let answer = ShownFilling::of(fill(&mut grid, file, JobRoom::new(rt.alloc())?));
    let length = file.len();
    let size = grid.size();
    println!(rt; "{what}, {length} bytes: {answer}, size {size}")
}

// A header before the same body.
#[derive(Clone, Copy)]
struct HeaderCase {
    what: &'static str,
    header: Header,
}

static MARK_CASES: [HeaderCase; 8] = [
    HeaderCase {
        what: "all right",
        header: HEADER,
    },
    HeaderCase {
        what: "mark eDP",
        header: Header {
            mark: b"eDP",
            ..HEADER
        },
    },
    HeaderCase {
        what: "mark EdP",
        header: Header {
            mark: b"EdP",
            ..HEADER
        },
    },
    HeaderCase {
        what: "mark EDp",
        header: Header {
            mark: b"EDp",
            ..HEADER
        },
    },
    HeaderCase {
        what: "version 0",
        header: Header {
            version: 0,
            ..HEADER
        },
    },
    HeaderCase {
        what: "version 2",
        header: Header {
            version: 2,
            ..HEADER
        },
    },
    HeaderCase {
        what: "version 256",
        header: Header {
            version: 256,
            ..HEADER
        },
    },
    HeaderCase {
        what: "version 257",
        header: Header {
            version: 257,
            ..HEADER
        },
    },
];

static COUNT_CASES: [HeaderCase; 10] = [
    HeaderCase {
        what: "a predicate less",
        header: Header {
            predicates: 2,
            ..HEADER
        },
    },
    HeaderCase {
        what: "a predicate more",
        header: Header {
            predicates: 4,
            ..HEADER
        },
    },
    HeaderCase {
        what: "an operation less",
        header: Header {
            operations: 0,
            ..HEADER
        },
    },
    HeaderCase {
        what: "an operation more",
        header: Header {
            operations: 2,
            ..HEADER
        },
    },
    HeaderCase {
        what: "a fact less",
        header: Header { facts: 2, ..HEADER },
    },
    HeaderCase {
        what: "a fact more",
        header: Header { facts: 4, ..HEADER },
    },
    HeaderCase {
        what: "a byte of goal less",
        header: Header {
            goal_length: 0,
            ..HEADER
        },
    },
    HeaderCase {
        what: "a byte of goal more",
        header: Header {
            goal_length: 2,
            ..HEADER
        },
    },
    HeaderCase {
        what: "a step less",
        header: Header { steps: 0, ..HEADER },
    },
    HeaderCase {
        what: "a step more",
        header: Header { steps: 2, ..HEADER },
    },
];

static ABSURD_CASES: [HeaderCase; 6] = [
    HeaderCase {
        what: "255 predicates",
        header: Header {
            predicates: 255,
            ..HEADER
        },
    },
    HeaderCase {
        what: "255 operations",
        header: Header {
            operations: 255,
            ..HEADER
        },
    },
    HeaderCase {
        what: "65535 facts",
        header: Header {
            facts: 65535,
            ..HEADER
        },
    },
    HeaderCase {
        what: "65535 bytes of goal",
        header: Header {
            goal_length: 65535,
            ..HEADER
        },
    },
    HeaderCase {
        what: "65535 steps",
        header: Header {
            steps: 65535,
            ..HEADER
        },
    },
    HeaderCase {
        what: "all counts at their most",
        header: Header {
            predicates: 255,
            operations: 255,
            facts: 65535,
            goal_length: 65535,
            steps: 65535,
            ..HEADER
        },
    },
];

pub fn print_headers(rt: &HostRuntime) -> io::Result<()> {
    print_cases(rt, &MARK_CASES)?;
    print_cases(rt, &COUNT_CASES)?;
    print_cases(rt, &ABSURD_CASES)
}

fn print_cases(rt: &HostRuntime, cases: &[HeaderCase]) -> io::Result<()> {
    for case in cases {
        let file = build(rt.alloc(), &case.header, &BODY)?;
        print_file(rt, case.what, file.as_slice())?;
    }
    Ok(())
}

// A file whose goal text is as long as it says, or not.
#[derive(Clone, Copy)]
struct LengthCase {
    what: &'static str,
    said: u16,
    goal: &'static [u8],
}

// So many steps make a file of 40,000 bytes with a goal text of three.
const MANY_STEPS: u16 = 9989;

static LENGTH_CASES: [LengthCase; 6] = [
    LengthCase {
        what: "40000 as said",
        said: 3,
        goal: b"T  ",
    },
    LengthCase {
        what: "40001 as said",
        said: 4,
        goal: b"T   ",
    },
    LengthCase {
        what: "40000 said, one short",
        said: 3,
        goal: b"T ",
    },
    LengthCase {
        what: "40001 said, one short",
        said: 4,
        goal: b"T  ",
    },
    LengthCase {
        what: "39999 said, one over",
        said: 2,
        goal: b"T  ",
    },
    LengthCase {
        what: "40000 said, one over",
        said: 3,
        goal: b"T   ",
    },
];

pub fn print_lengths(rt: &HostRuntime) -> io::Result<()> {
    for case in &LENGTH_CASES {
        let header = Header {
            goal_length: case.said,
            steps: MANY_STEPS,
            ..HEADER
        };
        let body = Body {
            goal: Text {
                part: case.goal,
                times: 1,
            },
            steps: usize::from(MANY_STEPS),
            ..BODY
        };
        let file = build(rt.alloc(), &header, &body)?;
        print_file(rt, case.what, file.as_slice())?;
    }
    Ok(())
}

// The file cut to each length that does not reach behind its header, cut by its last byte, whole, and with a byte more.
pub fn print_cut(rt: &HostRuntime) -> io::Result<()> {
    for length in 0..15 {
        let mut file = build(rt.alloc(), &HEADER, &BODY)?;
        file.truncate(length);
        print_file(rt, "cut", file.as_slice())?;
    }
    let mut file = build(rt.alloc(), &HEADER, &BODY)?;
    print_file(rt, "whole", file.as_slice())?;
    file.push(0)?;
    print_file(rt, "one byte over", file.as_slice())?;
    file.truncate(LENGTH - 1);
    print_file(rt, "one byte short", file.as_slice())
}
