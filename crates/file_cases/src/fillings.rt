use crate::build::{
    BODY, Body, HEADER, Header, OPERATION, Operation, Operations, Predicate, Text, build,
};
use crate::shown::ShownFilling;
use goals::job::JobRoom;
use goals::read_job::fill;
use registers::fact::Fact;
use registers::grid::Grid;
use registers::record_list::RecordList;
use registers::register::Register;
use std::io;

// The first fact of the file.
const LISTED: Fact = Fact {
    predicate: 0,
    first: 1,
    second: 0,
};

// A fact that the file does not have.
const FOREIGN: Fact = Fact {
    predicate: 15,
    first: 127,
    second: 127,
};

// A file for a register of a limit that holds some facts already.
#[derive(Clone, Copy)]
struct FillingCase {
    what: &'static str,
    limit: usize,
    held: &'static [Fact],
    header: Header,
    body: Body,
}

static ROOM_CASES: [FillingCase; 7] = [
    FillingCase {
        what: "three facts, just enough room",
        limit: 3,
        held: &[],
        header: HEADER,
        body: BODY,
    },
    FillingCase {
        what: "three facts, one short",
        limit: 2,
        held: &[],
        header: HEADER,
        body: BODY,
    },
    FillingCase {
        what: "a repeated fact, room for each once",
        limit: 2,
        held: &[],
        header: HEADER,
        body: Body {
            facts: &[[0, 1, 0], [1, 0, 1], [0, 1, 0]],
            ..BODY
        },
    },
    FillingCase {
        what: "a repeated fact, one short",
        limit: 1,
        held: &[],
        header: HEADER,
        body: Body {
            facts: &[[0, 1, 0], [1, 0, 1], [0, 1, 0]],
            ..BODY
        },
    },
    FillingCase {
        what: "one of the facts held already",
        limit: 3,
        held: &[LISTED],
        header: HEADER,
        body: BODY,
    },
    FillingCase {
        what: "another fact held already, just enough room",
        limit: 4,
        held: &[FOREIGN],
        header: HEADER,
        body: BODY,
    },
    FillingCase {
        what: "another fact held already, one short",
        limit: 3,
        held: &[FOREIGN],
        header: HEADER,
        body: BODY,
    },
];

// Files with two faults: which one is told.
static ORDER_CASES: [FillingCase; 21] = [
    FillingCase {
        what: "the last fact out of bounds, room for none",
        limit: 1,
        held: &[FOREIGN],
        header: HEADER,
        body: Body {
            facts: &[[0, 1, 0], [1, 0, 1], [2, 0, 1]],
            ..BODY
        },
    },
    FillingCase {
        what: "the last fact out of bounds, room for all",
        limit: 9,
        held: &[FOREIGN],
        header: HEADER,
        body: Body {
            facts: &[[0, 1, 0], [1, 0, 1], [1, 0, 2]],
            ..BODY
        },
    },
    FillingCase {
        what: "a malformed goal, the last fact out of bounds",
        limit: 9,
        held: &[LISTED],
        header: HEADER,
        body: Body {
            facts: &[[0, 1, 0], [1, 0, 1], [3, 0, 0]],
            goal: Text {
                part: b"!",
                times: 1,
            },
            ..BODY
        },
    },
    FillingCase {
        what: "an unknown name in the goal, too many facts",
        limit: 1,
        held: &[FOREIGN],
        header: HEADER,
        body: Body {
            goal: Text {
                part: b"d",
                times: 1,
            },
            ..BODY
        },
    },
    FillingCase {
        what: "an id not below N in the goal, too many facts",
        limit: 1,
        held: &[FOREIGN],
        header: Header {
            goal_length: 4,
            ..HEADER
        },
        body: Body {
            goal: Text {
                part: b"a(2)",
                times: 1,
            },
            ..BODY
        },
    },
    FillingCase {
        what: "a third quantifier in the goal, the last fact out of bounds",
        limit: 9,
        held: &[LISTED],
        header: Header {
            goal_length: 27,
            ..HEADER
        },
        body: Body {
            facts: &[[0, 1, 0], [1, 0, 1], [3, 0, 0]],
            goal: Text {
                part: b"A?x:a(?x)A?y:a(?y)E?z:a(?z)",
                times: 1,
            },
            ..BODY
        },
    },
    FillingCase {
        what: "the longest goal text, malformed",
        limit: 9,
        held: &[LISTED],
        header: Header {
            goal_length: 2048,
            ..HEADER
        },
        body: Body {
            goal: Text {
                part: b"T",
                times: 2048,
            },
            ..BODY
        },
    },
    FillingCase {
        what: "a goal text too long, malformed",
        limit: 9,
        held: &[LISTED],
        header: Header {
            goal_length: 2049,
            ..HEADER
        },
        body: Body {
            goal: Text {
                part: b"T",
                times: 2049,
            },
            ..BODY
        },
    },
    FillingCase {
        what: "a goal text too long, the last fact out of bounds",
        limit: 9,
        held: &[LISTED],
        header: Header {
            goal_length: 2049,
            ..HEADER
        },
        body: Body {
            facts: &[[0, 1, 0], [1, 0, 1], [3, 0, 0]],
            goal: Text {
                part: b" ",
                times: 2049,
            },
            ..BODY
        },
    },
    FillingCase {
        what: "an operation at fault, a goal text too long",
        limit: 9,
        held: &[LISTED],
        header: Header {
            goal_length: 2049,
            ..HEADER
        },
        body: Body {
            operations: WRONG,
            goal: Text {
                part: b" ",
                times: 2049,
            },
            ..BODY
        },
    },
    FillingCase {
        what: "an operation at fault, a malformed goal",
        limit: 9,
        held: &[LISTED],
        header: HEADER,
        body: Body {
            operations: WRONG,
            goal: Text {
                part: b"!",
                times: 1,
            },
            ..BODY
        },
    },
    FillingCase {
        what: "an operation at fault, the last fact out of bounds",
        limit: 9,
        held: &[LISTED],
        header: HEADER,
        body: Body {
            operations: WRONG,
            facts: &[[0, 1, 0], [1, 0, 1], [3, 0, 0]],
            ..BODY
        },
    },
    FillingCase {
        what: "no ids, an operation at fault",
        limit: 9,
        held: &[LISTED],
        header: Header { ids: 0, ..HEADER },
        body: Body {
            operations: WRONG,
            ..BODY
        },
    },
    FillingCase {
        what: "a repeated name, an operation at fault",
        limit: 9,
        held: &[LISTED],
        header: HEADER,
        body: Body {
            predicates: REPEATED,
            operations: WRONG,
            ..BODY
        },
    },
    FillingCase {
        what: "a repeated name, a malformed goal",
        limit: 9,
        held: &[LISTED],
        header: HEADER,
        body: Body {
            predicates: REPEATED,
            goal: Text {
                part: b"!",
                times: 1,
            },
            ..BODY
        },
    },
    FillingCase {
        what: "no ids, a step more said",
        limit: 9,
        held: &[LISTED],
        header: Header {
            ids: 0,
            steps: 2,
            ..HEADER
        },
        body: BODY,
    },
    FillingCase {
        what: "a repeated name, a step less said",
        limit: 9,
        held: &[LISTED],
        header: Header { steps: 0, ..HEADER },
        body: Body {
            predicates: REPEATED,
            ..BODY
        },
    },
    FillingCase {
        what: "a malformed goal, a step more said",
        limit: 9,
        held: &[LISTED],
        header: Header { steps: 2, ..HEADER },
        body: Body {
            goal: Text {
                part: b"!",
                times: 1,
            },
            ..BODY
        },
    },
    FillingCase {
        what: "a fact out of bounds, a step more said",
        limit: 9,
        held: &[LISTED],
        header: Header { steps: 2, ..HEADER },
        body: Body {
            facts: &[[0, 1, 0], [1, 0, 1], [3, 0, 0]],
            ..BODY
        },
    },
    FillingCase {
        what: "a step more said, the version wrong",
        limit: 9,
        held: &[LISTED],
        header: Header {
            version: 2,
            steps: 2,
            ..HEADER
        },
        body: BODY,
    },
    FillingCase {
        what: "no ids, the mark wrong",
        limit: 9,
        held: &[LISTED],
        header: Header {
            mark: b"EDQ",
            ids: 0,
            ..HEADER
        },
        body: BODY,
    },
];

// An operation with a parameter too many.
const WRONG: Operations = Operations {
    part: &[Operation {
        parameters: 4,
        ..OPERATION
    }],
    times: 1,
};

// Two predicates of one name.
const REPEATED: &'static [Predicate] = &[
    Predicate {
        places: 1,
        name: b"a",
    },
    Predicate {
        places: 2,
        name: b"b",
    },
    Predicate {
        places: 0,
        name: b"a",
    },
];

fn print_case<R: Register>(
    rt: &HostRuntime,
    make: &str,
    register: &mut R,
    case: &FillingCase,
) -> io::Result<()> {
    for fact in case.held {
        let _ = register.put(*fact);
    }
    let file = build(rt.alloc(), &case.header, &case.body)?;
    let before = register.size();
    let answer = ShownFilling::of(fill(register, file.as_slice(), JobRoom::new(rt.alloc())?));
    let after = register.size();
    let limit = case.limit;
    let what = case.what;
    let kept = count_held(register, case.held);
    println!(rt;
        "{make} of limit {limit}, {what}: {answer}, size {before} then {after}, kept {kept}"
    )
}

// How many of the facts are held. The other case program asks this too; programs share no code here.
fn count_held<R: Register>(register: &R, facts: &[Fact]) -> usize {
    facts.iter().filter(|fact| register.holds(**fact)).count()
}

fn print_cases(rt: &HostRuntime, cases: &[FillingCase]) -> io::Result<()> {
    for case in cases {
        let mut table = vec![in rt.alloc(); FOREIGN; case.limit]?;
        let mut list = RecordList::new(table.as_mut_slice());
        print_case(rt, "list", &mut list, case)?;
        let mut grid = Grid::new(rt.alloc(), case.limit)?;
        print_case(rt, "grid", &mut grid, case)?;
    }
    Ok(())
}

pub fn print_fillings(rt: &HostRuntime) -> io::Result<()> {
    print_cases(rt, &ROOM_CASES)?;
    print_cases(rt, &ORDER_CASES)
}
