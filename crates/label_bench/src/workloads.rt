use crate::edition::Edition;

// An edition, and the spans of the steps by which its label progresses.
#[derive(Clone, Copy)]
pub struct Workload {
    pub name: &'static str,
    pub edition: Edition,
    pub spans: &'static [u16],
}

// A row that names a footpath's number is wiped before a stream gets the number.
const REUSE: &'static [u8] =
    b"G A ?l:label(?l) A ?f:tag(?l,?f) (path(?f)|stream(?f)|(!stream(?f) U[0,2000] !tag(?l,?f)))";

// Always true, for the sake of the conjunction that is worked out before it falls away.
const FALLS_AWAY: &'static [u8] = b"G (A ?l:label(?l) A ?f:tag(?l,?f) X path(?f) | T)";

const HOURS: &'static [u16] = &[1, 1, 1, 1, 1, 1, 1, 1];

// After two steps the label hardly grows.
const STANDING: &'static [u16] = &[1, 0, 0, 0, 0, 0, 0, 0, 0, 0, 0, 0, 0, 0, 0, 0];

const fn edition(goal: &'static [u8], labels: u8, tags: u8, pathless: u8) -> Edition {
    Edition {
        goal,
        labels,
        tags,
        pathless,
    }
}

pub fn workloads() -> [Workload; 8] {
    [
        Workload {
            name: "8 hours, 7 labels of 128 tags",
            edition: edition(REUSE, 7, 128, 1),
            spans: HOURS,
        },
        Workload {
            name: "8 hours, 14 labels of 128 tags",
            edition: edition(REUSE, 14, 128, 1),
            spans: HOURS,
        },
        Workload {
            name: "8 hours, 28 labels of 128 tags",
            edition: edition(REUSE, 28, 128, 1),
            spans: HOURS,
        },
        Workload {
            name: "16 steps that keep a large label",
            edition: edition(REUSE, 28, 128, 4),
            spans: STANDING,
        },
        Workload {
            name: "8 hours, 128 labels of 1 tag",
            edition: edition(REUSE, 128, 1, 24),
            spans: HOURS,
        },
        Workload {
            name: "8 hours, 480 conjuncts that fall away",
            edition: edition(FALLS_AWAY, 4, 120, 0),
            spans: HOURS,
        },
        Workload {
            name: "8 hours, 960 conjuncts that fall away",
            edition: edition(FALLS_AWAY, 8, 120, 0),
            spans: HOURS,
        },
        Workload {
            name: "8 hours, 1920 conjuncts that fall away",
            edition: edition(FALLS_AWAY, 16, 120, 0),
            spans: HOURS,
        },
    ]
}
