ghost use Rattle.std.specs.Prelude.{◌≡◌, map};
ghost use Rattle.registers.specs.Calls.{answer_to, after_call, answered, after_lines, calls_of};

use crate::fact::Fact;
use crate::refusal::Refusal;
use crate::register::Register;

// A call on a register, as a value: lists of calls are compared, so that a call is no closure.
#[derive(Clone, Copy, PartialEq, Eq, Debug)]
pub enum Call {
    Holds(Fact),
    Size,
    Limit,
    Put(Fact),
    Take(Fact),
}

// What a call answered; a taking answers nothing.
#[derive(Clone, Copy, PartialEq, Eq, Debug)]
pub enum Answer {
    Held(bool),
    Number(usize),
    Putting(Result<(), Refusal>),
    Taken,
}

// A call and, once it was made, its answer.
#[derive(Clone, Copy, PartialEq, Eq, Debug)]
pub struct Line {
    pub call: Call,
    pub answer: Option<Answer>,
}

pub fn make_call<R: Register>(register: &mut R, call: Call) -> Answer
    ensures answer { result ≡ answer_to (R.Register.meaning register.old) call }
    ensures after { R.Register.meaning register.new ≡ after_call (R.Register.meaning register.old) call }
{
    match call {
        Call::Holds(fact) => Answer::Held(register.holds(fact)),
        Call::Size => Answer::Number(register.size()),
        Call::Limit => Answer::Number(register.limit()),
        Call::Put(fact) => Answer::Putting(register.put(fact)),
        Call::Take(fact) => {
            register.take(fact);
            Answer::Taken
        }
    }
}

// Makes the calls in their order and writes each answer beside its call.
pub fn make_calls<R: Register>(register: &mut R, lines: &mut [Line])
    ensures answers { lines.new ≡ answered (R.Register.meaning register.old) lines.old }
    ensures after { R.Register.meaning register.new ≡ after_lines (R.Register.meaning register.old) lines.old }
{
    for line in lines {
        line.answer = Some(make_call(register, line.call));
    }
}

// The same calls on two registers of any makes: each answers by its own meaning; begun with equal meanings, they give equal answers and have equal meanings.
pub fn make_calls_on_both<R: Register, S: Register>(
    left: &mut R,
    right: &mut S,
    left_lines: &mut [Line],
    right_lines: &mut [Line],
)
    ensures left_answers { left_lines.new ≡ answered (R.Register.meaning left.old) left_lines.old }
    ensures left_after { R.Register.meaning left.new ≡ after_lines (R.Register.meaning left.old) left_lines.old }
    ensures right_answers { right_lines.new ≡ answered (S.Register.meaning right.old) right_lines.old }
    ensures right_after { S.Register.meaning right.new ≡ after_lines (S.Register.meaning right.old) right_lines.old }
    ensures alike { R.Register.meaning left.old ≡ S.Register.meaning right.old →
        map calls_of left_lines.old ≡ map calls_of right_lines.old →
        (left_lines.new ≡ right_lines.new) × (R.Register.meaning left.new ≡ S.Register.meaning right.new) }
{
    make_calls(left, left_lines);
    make_calls(right, right_lines);
}
