ghost use Rattle.std.specs.Prelude.{◌≡◌, None};

use crate::look::Look;
use crate::refusal::{LookRefusal, StepRefusal};
use crate::step::Step;

// A call on a session, as a value: the law speaks of lists of calls, so that a call is no closure. `registers` has calls, answers and
// lines of its own; one generic `Line` for both would need a trait for what answers, longer than the two fields and the loop.
#[derive(Clone, Copy, PartialEq, Eq, Debug)]
pub enum Call {
    Step(Step),
    Look,
}

// What a call answered.
#[derive(Clone, Copy, PartialEq, Eq, Debug)]
pub enum Answer {
    Stepped(Result<(), StepRefusal>),
    Seen(Result<Look, LookRefusal>),
}

// A call and, once it was made, its answer.
#[derive(Clone, Copy, PartialEq, Eq, Debug)]
pub struct Line {
    pub call: Call,
    pub answer: Option<Answer>,
}

// A call that was not made yet.
impl From<Call> for Line {
    ghost from_gives = { λ x y. y ≡ record { call = x; answer = None } };

    fn from(call: Call) -> Line {
        Line { call, answer: None }
    }
}
