use crate::build::{
    BODY, Body, OPERATION, Operation, Operations, PREDICATES, Predicate, build, header_of,
};
use crate::facts::SIXTEEN;
use crate::shown::ShownFilling;
use goals::job::JobRoom;
use goals::read_job::fill;
use registers::grid::Grid;
use std::io;

// So many ids, predicates, and so many operations.
#[derive(Clone, Copy)]
struct ShapeCase {
    what: &'static str,
    ids: u8,
    predicates: &'static [Predicate],
    operations: usize,
}

static COUNT_CASES: [ShapeCase; 13] = [
    ShapeCase {
        what: "0 ids",
        ids: 0,
        predicates: PREDICATES,
        operations: 1,
    },
    ShapeCase {
        what: "1 ids",
        ids: 1,
        predicates: PREDICATES,
        operations: 1,
    },
    ShapeCase {
        what: "128 ids",
        ids: 128,
        predicates: PREDICATES,
        operations: 1,
    },
    ShapeCase {
        what: "129 ids",
        ids: 129,
        predicates: PREDICATES,
        operations: 1,
    },
    ShapeCase {
        what: "255 ids",
        ids: 255,
        predicates: PREDICATES,
        operations: 1,
    },
    ShapeCase {
        what: "no predicates",
        ids: 2,
        predicates: &[],
        operations: 0,
    },
    ShapeCase {
        what: "1 predicate",
        ids: 2,
        predicates: &[Predicate {
            places: 1,
            name: b"a",
        }],
        operations: 1,
    },
    ShapeCase {
        what: "16 predicates",
        ids: 2,
        predicates: SIXTEEN,
        operations: 0,
    },
    ShapeCase {
        what: "17 predicates",
        ids: 2,
        predicates: &[
            Predicate {
                places: 0,
                name: b"a",
            },
            Predicate {
                places: 0,
                name: b"b",
            },
            Predicate {
                places: 0,
                name: b"c",
            },
            Predicate {
                places: 0,
                name: b"d",
            },
            Predicate {
                places: 0,
                name: b"e",
            },
            Predicate {
                places: 0,
                name: b"f",
            },
            Predicate {
                places: 0,
                name: b"g",
            },
            Predicate {
                places: 0,
                name: b"h",
            },
            Predicate {
                places: 0,
                name: b"i",
            },
            Predicate {
                places: 0,
                name: b"j",
            },
            Predicate {
                places: 0,
                name: b"k",
            },
            Predicate {
                places: 0,
                name: b"l",
            },
            Predicate {
                places: 0,
                name: b"m",
            },
            Predicate {
                places: 0,
                name: b"n",
            },
            Predicate {
                places: 0,
                name: b"o",
            },
            Predicate {
                places: 0,
                name: b"p",
            },
            Predicate {
                places: 0,
                name: b"q",
            },
        ],
        operations: 0,
    },
    ShapeCase {
        what: "0 operations",
        ids: 2,
        predicates: PREDICATES,
        operations: 0,
    },
    ShapeCase {
        what: "1 operations",
        ids: 2,
        predicates: PREDICATES,
        operations: 1,
    },
    ShapeCase {
        what: "64 operations",
        ids: 2,
        predicates: PREDICATES,
        operations: 64,
    },
    ShapeCase {
        what: "65 operations",
        ids: 2,
        predicates: PREDICATES,
        operations: 65,
    },
];

static PLACE_CASES: [ShapeCase; 9] = [
    ShapeCase {
        what: "a predicate of 0 places",
        ids: 2,
        predicates: &[
            Predicate {
                places: 1,
                name: b"a",
            },
            Predicate {
                places: 0,
                name: b"b",
            },
        ],
        operations: 1,
    },
    ShapeCase {
        what: "a predicate of 1 places",
        ids: 2,
        predicates: &[
            Predicate {
                places: 1,
                name: b"a",
            },
            Predicate {
                places: 1,
                name: b"b",
            },
        ],
        operations: 1,
    },
    ShapeCase {
        what: "a predicate of 2 places",
        ids: 2,
        predicates: &[
            Predicate {
                places: 1,
                name: b"a",
            },
            Predicate {
                places: 2,
                name: b"b",
            },
        ],
        operations: 1,
    },
    ShapeCase {
        what: "a predicate of 3 places",
        ids: 2,
        predicates: &[
            Predicate {
                places: 1,
                name: b"a",
            },
            Predicate {
                places: 3,
                name: b"b",
            },
        ],
        operations: 1,
    },
    ShapeCase {
        what: "a predicate of 255 places",
        ids: 2,
        predicates: &[
            Predicate {
                places: 1,
                name: b"a",
            },
            Predicate {
                places: 255,
                name: b"b",
            },
        ],
        operations: 1,
    },
    ShapeCase {
        what: "a name of 0 letters",
        ids: 2,
        predicates: &[
            Predicate {
                places: 1,
                name: b"a",
            },
            Predicate {
                places: 0,
                name: b"",
            },
        ],
        operations: 1,
    },
    ShapeCase {
        what: "a name of 1 letters",
        ids: 2,
        predicates: &[
            Predicate {
                places: 1,
                name: b"a",
            },
            Predicate {
                places: 0,
                name: b"z",
            },
        ],
        operations: 1,
    },
    ShapeCase {
        what: "a name of 16 letters",
        ids: 2,
        predicates: &[
            Predicate {
                places: 1,
                name: b"a",
            },
            Predicate {
                places: 0,
                name: b"zzzzzzzzzzzzzzzz",
            },
        ],
        operations: 1,
    },
    ShapeCase {
        what: "a name of 17 letters",
        ids: 2,
        predicates: &[
            Predicate {
                places: 1,
                name: b"a",
            },
            Predicate {
                places: 0,
                name: b"zzzzzzzzzzzzzzzzz",
            },
        ],
        operations: 1,
    },
];

static NAME_CASES: [ShapeCase; 13] = [
    ShapeCase {
        what: "a name with a capital first",
        ids: 2,
        predicates: &[
            Predicate {
                places: 1,
                name: b"a",
            },
            Predicate {
                places: 0,
                name: b"Bc",
            },
        ],
        operations: 1,
    },
    ShapeCase {
        what: "a name with a capital last",
        ids: 2,
        predicates: &[
            Predicate {
                places: 1,
                name: b"a",
            },
            Predicate {
                places: 0,
                name: b"bcD",
            },
        ],
        operations: 1,
    },
    ShapeCase {
        what: "a name with a digit",
        ids: 2,
        predicates: &[
            Predicate {
                places: 1,
                name: b"a",
            },
            Predicate {
                places: 0,
                name: b"b2",
            },
        ],
        operations: 1,
    },
    ShapeCase {
        what: "a name with the byte before a",
        ids: 2,
        predicates: &[
            Predicate {
                places: 1,
                name: b"a",
            },
            Predicate {
                places: 0,
                name: b"b`",
            },
        ],
        operations: 1,
    },
    ShapeCase {
        what: "a name with the byte behind z",
        ids: 2,
        predicates: &[
            Predicate {
                places: 1,
                name: b"a",
            },
            Predicate {
                places: 0,
                name: b"b{",
            },
        ],
        operations: 1,
    },
    ShapeCase {
        what: "a name with a blank",
        ids: 2,
        predicates: &[
            Predicate {
                places: 1,
                name: b"a",
            },
            Predicate {
                places: 0,
                name: b"b c",
            },
        ],
        operations: 1,
    },
    ShapeCase {
        what: "a name with a byte over 127",
        ids: 2,
        predicates: &[
            Predicate {
                places: 1,
                name: b"a",
            },
            Predicate {
                places: 0,
                name: b"b\xff",
            },
        ],
        operations: 1,
    },
    ShapeCase {
        what: "a name of the letters a to z",
        ids: 2,
        predicates: &[
            Predicate {
                places: 1,
                name: b"a",
            },
            Predicate {
                places: 0,
                name: b"abcdefghijklm",
            },
            Predicate {
                places: 0,
                name: b"nopqrstuvwxyz",
            },
        ],
        operations: 1,
    },
    ShapeCase {
        what: "two names alike, side by side",
        ids: 2,
        predicates: &[
            Predicate {
                places: 1,
                name: b"a",
            },
            Predicate {
                places: 1,
                name: b"b",
            },
            Predicate {
                places: 1,
                name: b"b",
            },
        ],
        operations: 1,
    },
    ShapeCase {
        what: "two names alike, the first and the last",
        ids: 2,
        predicates: &[
            Predicate {
                places: 1,
                name: b"a",
            },
            Predicate {
                places: 1,
                name: b"b",
            },
            Predicate {
                places: 0,
                name: b"c",
            },
            Predicate {
                places: 2,
                name: b"a",
            },
        ],
        operations: 1,
    },
    ShapeCase {
        what: "a name that begins another",
        ids: 2,
        predicates: &[
            Predicate {
                places: 1,
                name: b"ab",
            },
            Predicate {
                places: 1,
                name: b"a",
            },
            Predicate {
                places: 1,
                name: b"abc",
            },
        ],
        operations: 1,
    },
    ShapeCase {
        what: "names of 16 letters, the last one differs",
        ids: 2,
        predicates: &[
            Predicate {
                places: 1,
                name: b"abcdefghijklmnop",
            },
            Predicate {
                places: 1,
                name: b"abcdefghijklmnoq",
            },
        ],
        operations: 1,
    },
    ShapeCase {
        what: "names of 16 letters, alike",
        ids: 2,
        predicates: &[
            Predicate {
                places: 1,
                name: b"abcdefghijklmnop",
            },
            Predicate {
                places: 1,
                name: b"abcdefghijklmnop",
            },
        ],
        operations: 1,
    },
];

// Operations over so many ids and the predicates of one place, of two and of none.
#[derive(Clone, Copy)]
struct OperationCase {
    what: &'static str,
    ids: u8,
    operations: &'static [Operation],
}

static LIMIT_CASES: [OperationCase; 15] = [
    OperationCase {
        what: "0 parameters, none used",
        ids: 2,
        operations: &[Operation {
            parameters: 0,
            span: 2,
            needs: &[],
            takes: &[],
            puts: &[],
        }],
    },
    OperationCase {
        what: "3 parameters, none used",
        ids: 2,
        operations: &[Operation {
            parameters: 3,
            span: 2,
            needs: &[],
            takes: &[],
            puts: &[],
        }],
    },
    OperationCase {
        what: "4 parameters, none used",
        ids: 2,
        operations: &[Operation {
            parameters: 4,
            span: 2,
            needs: &[],
            takes: &[],
            puts: &[],
        }],
    },
    OperationCase {
        what: "255 parameters, none used",
        ids: 2,
        operations: &[Operation {
            parameters: 255,
            span: 2,
            needs: &[],
            takes: &[],
            puts: &[],
        }],
    },
    OperationCase {
        what: "a span of 0",
        ids: 2,
        operations: &[Operation {
            parameters: 1,
            span: 0,
            needs: &[],
            takes: &[],
            puts: &[],
        }],
    },
    OperationCase {
        what: "a span of 1000",
        ids: 2,
        operations: &[Operation {
            parameters: 1,
            span: 1000,
            needs: &[],
            takes: &[],
            puts: &[],
        }],
    },
    OperationCase {
        what: "a span of 1001",
        ids: 2,
        operations: &[Operation {
            parameters: 1,
            span: 1001,
            needs: &[],
            takes: &[],
            puts: &[],
        }],
    },
    OperationCase {
        what: "a span of 65535",
        ids: 2,
        operations: &[Operation {
            parameters: 1,
            span: 65535,
            needs: &[],
            takes: &[],
            puts: &[],
        }],
    },
    OperationCase {
        what: "6 needs",
        ids: 2,
        operations: &[Operation {
            parameters: 1,
            span: 2,
            needs: &[
                [0, 128, 0],
                [0, 128, 0],
                [0, 128, 0],
                [0, 128, 0],
                [0, 128, 0],
                [0, 128, 0],
            ],
            takes: &[],
            puts: &[],
        }],
    },
    OperationCase {
        what: "7 needs",
        ids: 2,
        operations: &[Operation {
            parameters: 1,
            span: 2,
            needs: &[
                [0, 128, 0],
                [0, 128, 0],
                [0, 128, 0],
                [0, 128, 0],
                [0, 128, 0],
                [0, 128, 0],
                [0, 128, 0],
            ],
            takes: &[],
            puts: &[],
        }],
    },
    OperationCase {
        what: "6 takes",
        ids: 2,
        operations: &[Operation {
            parameters: 1,
            span: 2,
            needs: &[],
            takes: &[
                [0, 128, 0],
                [0, 128, 0],
                [0, 128, 0],
                [0, 128, 0],
                [0, 128, 0],
                [0, 128, 0],
            ],
            puts: &[],
        }],
    },
    OperationCase {
        what: "7 takes",
        ids: 2,
        operations: &[Operation {
            parameters: 1,
            span: 2,
            needs: &[],
            takes: &[
                [0, 128, 0],
                [0, 128, 0],
                [0, 128, 0],
                [0, 128, 0],
                [0, 128, 0],
                [0, 128, 0],
                [0, 128, 0],
            ],
            puts: &[],
        }],
    },
    OperationCase {
        what: "6 puts",
        ids: 2,
        operations: &[Operation {
            parameters: 1,
            span: 2,
            needs: &[],
            takes: &[],
            puts: &[
                [0, 128, 0],
                [0, 128, 0],
                [0, 128, 0],
                [0, 128, 0],
                [0, 128, 0],
                [0, 128, 0],
            ],
        }],
    },
    OperationCase {
        what: "7 puts",
        ids: 2,
        operations: &[Operation {
            parameters: 1,
            span: 2,
            needs: &[],
            takes: &[],
            puts: &[
                [0, 128, 0],
                [0, 128, 0],
                [0, 128, 0],
                [0, 128, 0],
                [0, 128, 0],
                [0, 128, 0],
                [0, 128, 0],
            ],
        }],
    },
    OperationCase {
        what: "6 needs, 6 takes and 6 puts",
        ids: 2,
        operations: &[Operation {
            parameters: 1,
            span: 2,
            needs: &[
                [0, 128, 0],
                [0, 128, 0],
                [0, 128, 0],
                [0, 128, 0],
                [0, 128, 0],
                [0, 128, 0],
            ],
            takes: &[
                [0, 128, 0],
                [0, 128, 0],
                [0, 128, 0],
                [0, 128, 0],
                [0, 128, 0],
                [0, 128, 0],
            ],
            puts: &[
                [0, 128, 0],
                [0, 128, 0],
                [0, 128, 0],
                [0, 128, 0],
                [0, 128, 0],
                [0, 128, 0],
            ],
        }],
    },
];

static ENTRY_CASES: [OperationCase; 15] = [
    OperationCase {
        what: "a need of predicate P - 1",
        ids: 2,
        operations: &[Operation {
            parameters: 1,
            span: 2,
            needs: &[[2, 0, 0]],
            takes: &[],
            puts: &[],
        }],
    },
    OperationCase {
        what: "a need of predicate P",
        ids: 2,
        operations: &[Operation {
            parameters: 1,
            span: 2,
            needs: &[[3, 0, 0]],
            takes: &[],
            puts: &[],
        }],
    },
    OperationCase {
        what: "a need of predicate P - 1, negated",
        ids: 2,
        operations: &[Operation {
            parameters: 1,
            span: 2,
            needs: &[[130, 0, 0]],
            takes: &[],
            puts: &[],
        }],
    },
    OperationCase {
        what: "a need of predicate P, negated",
        ids: 2,
        operations: &[Operation {
            parameters: 1,
            span: 2,
            needs: &[[131, 0, 0]],
            takes: &[],
            puts: &[],
        }],
    },
    OperationCase {
        what: "a need of byte 255",
        ids: 2,
        operations: &[Operation {
            parameters: 1,
            span: 2,
            needs: &[[255, 0, 0]],
            takes: &[],
            puts: &[],
        }],
    },
    OperationCase {
        what: "a take of predicate P - 1",
        ids: 2,
        operations: &[Operation {
            parameters: 1,
            span: 2,
            needs: &[],
            takes: &[[2, 0, 0]],
            puts: &[],
        }],
    },
    OperationCase {
        what: "a take of predicate P",
        ids: 2,
        operations: &[Operation {
            parameters: 1,
            span: 2,
            needs: &[],
            takes: &[[3, 0, 0]],
            puts: &[],
        }],
    },
    OperationCase {
        what: "a take of predicate P - 1, negated",
        ids: 2,
        operations: &[Operation {
            parameters: 1,
            span: 2,
            needs: &[],
            takes: &[[130, 0, 0]],
            puts: &[],
        }],
    },
    OperationCase {
        what: "a take of predicate P, negated",
        ids: 2,
        operations: &[Operation {
            parameters: 1,
            span: 2,
            needs: &[],
            takes: &[[131, 0, 0]],
            puts: &[],
        }],
    },
    OperationCase {
        what: "a take of byte 255",
        ids: 2,
        operations: &[Operation {
            parameters: 1,
            span: 2,
            needs: &[],
            takes: &[[255, 0, 0]],
            puts: &[],
        }],
    },
    OperationCase {
        what: "a put of predicate P - 1",
        ids: 2,
        operations: &[Operation {
            parameters: 1,
            span: 2,
            needs: &[],
            takes: &[],
            puts: &[[2, 0, 0]],
        }],
    },
    OperationCase {
        what: "a put of predicate P",
        ids: 2,
        operations: &[Operation {
            parameters: 1,
            span: 2,
            needs: &[],
            takes: &[],
            puts: &[[3, 0, 0]],
        }],
    },
    OperationCase {
        what: "a put of predicate P - 1, negated",
        ids: 2,
        operations: &[Operation {
            parameters: 1,
            span: 2,
            needs: &[],
            takes: &[],
            puts: &[[130, 0, 0]],
        }],
    },
    OperationCase {
        what: "a put of predicate P, negated",
        ids: 2,
        operations: &[Operation {
            parameters: 1,
            span: 2,
            needs: &[],
            takes: &[],
            puts: &[[131, 0, 0]],
        }],
    },
    OperationCase {
        what: "a put of byte 255",
        ids: 2,
        operations: &[Operation {
            parameters: 1,
            span: 2,
            needs: &[],
            takes: &[],
            puts: &[[255, 0, 0]],
        }],
    },
];

static ID_CASES: [OperationCase; 12] = [
    OperationCase {
        what: "N = 2, the first term 1",
        ids: 2,
        operations: &[Operation {
            parameters: 1,
            span: 2,
            needs: &[[0, 1, 0]],
            takes: &[],
            puts: &[],
        }],
    },
    OperationCase {
        what: "N = 2, the second term 1",
        ids: 2,
        operations: &[Operation {
            parameters: 1,
            span: 2,
            needs: &[],
            takes: &[],
            puts: &[[1, 0, 1]],
        }],
    },
    OperationCase {
        what: "N = 2, the first term 2",
        ids: 2,
        operations: &[Operation {
            parameters: 1,
            span: 2,
            needs: &[[0, 2, 0]],
            takes: &[],
            puts: &[],
        }],
    },
    OperationCase {
        what: "N = 2, the second term 2",
        ids: 2,
        operations: &[Operation {
            parameters: 1,
            span: 2,
            needs: &[],
            takes: &[],
            puts: &[[1, 0, 2]],
        }],
    },
    OperationCase {
        what: "N = 2, the first term 127",
        ids: 2,
        operations: &[Operation {
            parameters: 1,
            span: 2,
            needs: &[[0, 127, 0]],
            takes: &[],
            puts: &[],
        }],
    },
    OperationCase {
        what: "N = 2, the second term 127",
        ids: 2,
        operations: &[Operation {
            parameters: 1,
            span: 2,
            needs: &[],
            takes: &[],
            puts: &[[1, 0, 127]],
        }],
    },
    OperationCase {
        what: "N = 127, the first term 126",
        ids: 127,
        operations: &[Operation {
            parameters: 1,
            span: 2,
            needs: &[[0, 126, 0]],
            takes: &[],
            puts: &[],
        }],
    },
    OperationCase {
        what: "N = 127, the second term 126",
        ids: 127,
        operations: &[Operation {
            parameters: 1,
            span: 2,
            needs: &[],
            takes: &[],
            puts: &[[1, 0, 126]],
        }],
    },
    OperationCase {
        what: "N = 127, the first term 127",
        ids: 127,
        operations: &[Operation {
            parameters: 1,
            span: 2,
            needs: &[[0, 127, 0]],
            takes: &[],
            puts: &[],
        }],
    },
    OperationCase {
        what: "N = 127, the second term 127",
        ids: 127,
        operations: &[Operation {
            parameters: 1,
            span: 2,
            needs: &[],
            takes: &[],
            puts: &[[1, 0, 127]],
        }],
    },
    OperationCase {
        what: "N = 128, the first term 127",
        ids: 128,
        operations: &[Operation {
            parameters: 1,
            span: 2,
            needs: &[[0, 127, 0]],
            takes: &[],
            puts: &[],
        }],
    },
    OperationCase {
        what: "N = 128, the second term 127",
        ids: 128,
        operations: &[Operation {
            parameters: 1,
            span: 2,
            needs: &[],
            takes: &[],
            puts: &[[1, 0, 127]],
        }],
    },
];

static PARAMETER_CASES: [OperationCase; 16] = [
    OperationCase {
        what: "0 parameters, the first term 128",
        ids: 2,
        operations: &[Operation {
            parameters: 0,
            span: 2,
            needs: &[],
            takes: &[[0, 128, 0]],
            puts: &[],
        }],
    },
    OperationCase {
        what: "0 parameters, the second term 128",
        ids: 2,
        operations: &[Operation {
            parameters: 0,
            span: 2,
            needs: &[[129, 0, 128]],
            takes: &[],
            puts: &[],
        }],
    },
    OperationCase {
        what: "1 parameters, the first term 128",
        ids: 2,
        operations: &[Operation {
            parameters: 1,
            span: 2,
            needs: &[],
            takes: &[[0, 128, 0]],
            puts: &[],
        }],
    },
    OperationCase {
        what: "1 parameters, the second term 128",
        ids: 2,
        operations: &[Operation {
            parameters: 1,
            span: 2,
            needs: &[[129, 0, 128]],
            takes: &[],
            puts: &[],
        }],
    },
    OperationCase {
        what: "1 parameters, the first term 129",
        ids: 2,
        operations: &[Operation {
            parameters: 1,
            span: 2,
            needs: &[],
            takes: &[[0, 129, 0]],
            puts: &[],
        }],
    },
    OperationCase {
        what: "1 parameters, the second term 129",
        ids: 2,
        operations: &[Operation {
            parameters: 1,
            span: 2,
            needs: &[[129, 0, 129]],
            takes: &[],
            puts: &[],
        }],
    },
    OperationCase {
        what: "2 parameters, the first term 129",
        ids: 2,
        operations: &[Operation {
            parameters: 2,
            span: 2,
            needs: &[],
            takes: &[[0, 129, 0]],
            puts: &[],
        }],
    },
    OperationCase {
        what: "2 parameters, the second term 129",
        ids: 2,
        operations: &[Operation {
            parameters: 2,
            span: 2,
            needs: &[[129, 0, 129]],
            takes: &[],
            puts: &[],
        }],
    },
    OperationCase {
        what: "2 parameters, the first term 130",
        ids: 2,
        operations: &[Operation {
            parameters: 2,
            span: 2,
            needs: &[],
            takes: &[[0, 130, 0]],
            puts: &[],
        }],
    },
    OperationCase {
        what: "2 parameters, the second term 130",
        ids: 2,
        operations: &[Operation {
            parameters: 2,
            span: 2,
            needs: &[[129, 0, 130]],
            takes: &[],
            puts: &[],
        }],
    },
    OperationCase {
        what: "3 parameters, the first term 130",
        ids: 2,
        operations: &[Operation {
            parameters: 3,
            span: 2,
            needs: &[],
            takes: &[[0, 130, 0]],
            puts: &[],
        }],
    },
    OperationCase {
        what: "3 parameters, the second term 130",
        ids: 2,
        operations: &[Operation {
            parameters: 3,
            span: 2,
            needs: &[[129, 0, 130]],
            takes: &[],
            puts: &[],
        }],
    },
    OperationCase {
        what: "3 parameters, the first term 131",
        ids: 2,
        operations: &[Operation {
            parameters: 3,
            span: 2,
            needs: &[],
            takes: &[[0, 131, 0]],
            puts: &[],
        }],
    },
    OperationCase {
        what: "3 parameters, the second term 131",
        ids: 2,
        operations: &[Operation {
            parameters: 3,
            span: 2,
            needs: &[[129, 0, 131]],
            takes: &[],
            puts: &[],
        }],
    },
    OperationCase {
        what: "3 parameters, the first term 255",
        ids: 2,
        operations: &[Operation {
            parameters: 3,
            span: 2,
            needs: &[],
            takes: &[[0, 255, 0]],
            puts: &[],
        }],
    },
    OperationCase {
        what: "3 parameters, the second term 255",
        ids: 2,
        operations: &[Operation {
            parameters: 3,
            span: 2,
            needs: &[[129, 0, 255]],
            takes: &[],
            puts: &[],
        }],
    },
];

static FAULT_CASES: [OperationCase; 10] = [
    OperationCase {
        what: "one place, the second term 1",
        ids: 2,
        operations: &[Operation {
            parameters: 1,
            span: 2,
            needs: &[[0, 0, 1]],
            takes: &[],
            puts: &[],
        }],
    },
    OperationCase {
        what: "one place, the second term a parameter",
        ids: 2,
        operations: &[Operation {
            parameters: 1,
            span: 2,
            needs: &[[0, 0, 128]],
            takes: &[],
            puts: &[],
        }],
    },
    OperationCase {
        what: "no place, the first term 1",
        ids: 2,
        operations: &[Operation {
            parameters: 1,
            span: 2,
            needs: &[],
            takes: &[[2, 1, 0]],
            puts: &[],
        }],
    },
    OperationCase {
        what: "no place, the second term 1",
        ids: 2,
        operations: &[Operation {
            parameters: 1,
            span: 2,
            needs: &[],
            takes: &[],
            puts: &[[2, 0, 1]],
        }],
    },
    OperationCase {
        what: "no place, the first term a parameter",
        ids: 2,
        operations: &[Operation {
            parameters: 1,
            span: 2,
            needs: &[[130, 128, 0]],
            takes: &[],
            puts: &[],
        }],
    },
    OperationCase {
        what: "the last take at fault",
        ids: 2,
        operations: &[Operation {
            parameters: 1,
            span: 2,
            needs: &[],
            takes: &[
                [0, 128, 0],
                [0, 128, 0],
                [0, 128, 0],
                [0, 128, 0],
                [0, 128, 0],
                [0, 2, 0],
            ],
            puts: &[],
        }],
    },
    OperationCase {
        what: "the last put at fault",
        ids: 2,
        operations: &[Operation {
            parameters: 1,
            span: 2,
            needs: &[[0, 128, 0]],
            takes: &[[0, 128, 0]],
            puts: &[
                [0, 128, 0],
                [0, 128, 0],
                [0, 128, 0],
                [0, 128, 0],
                [0, 128, 0],
                [0, 2, 0],
            ],
        }],
    },
    OperationCase {
        what: "the first of three at fault",
        ids: 2,
        operations: &[
            Operation {
                parameters: 1,
                span: 1001,
                needs: &[],
                takes: &[],
                puts: &[],
            },
            Operation {
                parameters: 1,
                span: 2,
                needs: &[[0, 128, 0]],
                takes: &[[0, 128, 0]],
                puts: &[[1, 128, 0]],
            },
            Operation {
                parameters: 1,
                span: 2,
                needs: &[[0, 128, 0]],
                takes: &[[0, 128, 0]],
                puts: &[[1, 128, 0]],
            },
        ],
    },
    OperationCase {
        what: "the second of three at fault",
        ids: 2,
        operations: &[
            Operation {
                parameters: 1,
                span: 2,
                needs: &[[0, 128, 0]],
                takes: &[[0, 128, 0]],
                puts: &[[1, 128, 0]],
            },
            Operation {
                parameters: 1,
                span: 2,
                needs: &[],
                takes: &[],
                puts: &[[3, 0, 0]],
            },
            Operation {
                parameters: 1,
                span: 2,
                needs: &[[0, 128, 0]],
                takes: &[[0, 128, 0]],
                puts: &[[1, 128, 0]],
            },
        ],
    },
    OperationCase {
        what: "the third of three at fault",
        ids: 2,
        operations: &[
            Operation {
                parameters: 1,
                span: 2,
                needs: &[[0, 128, 0]],
                takes: &[[0, 128, 0]],
                puts: &[[1, 128, 0]],
            },
            Operation {
                parameters: 1,
                span: 2,
                needs: &[[0, 128, 0]],
                takes: &[[0, 128, 0]],
                puts: &[[1, 128, 0]],
            },
            Operation {
                parameters: 4,
                span: 2,
                needs: &[],
                takes: &[],
                puts: &[],
            },
        ],
    },
];

// Fills an empty grid from a file with that catalogue, no facts and the goal `T`.
fn print_catalogue(rt: &HostRuntime, what: &str, ids: u8, body: &Body) -> io::Result<()> {
    let file = build(rt.alloc(), &header_of(ids, body), body)?;
    let mut grid = Grid::new(rt.alloc(), 1000)?;
    let room = JobRoom::new(rt.alloc())?;
    let answer = ShownFilling::of(fill(&mut grid, file.as_slice(), room));
    println!(rt; "{what}: {answer}")
}

fn print_shapes(rt: &HostRuntime, cases: &[ShapeCase]) -> io::Result<()> {
    for case in cases {
        let body = Body {
            predicates: case.predicates,
            operations: Operations {
                part: &[OPERATION],
                times: case.operations,
            },
            facts: &[],
            ..BODY
        };
        print_catalogue(rt, case.what, case.ids, &body)?;
    }
    Ok(())
}

fn print_operations(rt: &HostRuntime, cases: &[OperationCase]) -> io::Result<()> {
    for case in cases {
        let body = Body {
            operations: Operations {
                part: case.operations,
                times: 1,
            },
            facts: &[],
            ..BODY
        };
        print_catalogue(rt, case.what, case.ids, &body)?;
    }
    Ok(())
}

pub fn print_counts(rt: &HostRuntime) -> io::Result<()> {
    print_shapes(rt, &COUNT_CASES)
}

pub fn print_places(rt: &HostRuntime) -> io::Result<()> {
    print_shapes(rt, &PLACE_CASES)
}

pub fn print_names(rt: &HostRuntime) -> io::Result<()> {
    print_shapes(rt, &NAME_CASES)
}

pub fn print_limits(rt: &HostRuntime) -> io::Result<()> {
    print_operations(rt, &LIMIT_CASES)
}

pub fn print_entries(rt: &HostRuntime) -> io::Result<()> {
    print_operations(rt, &ENTRY_CASES)
}

pub fn print_id_terms(rt: &HostRuntime) -> io::Result<()> {
    print_operations(rt, &ID_CASES)
}

pub fn print_parameter_terms(rt: &HostRuntime) -> io::Result<()> {
    print_operations(rt, &PARAMETER_CASES)
}

pub fn print_faults(rt: &HostRuntime) -> io::Result<()> {
    print_operations(rt, &FAULT_CASES)
}
