use registers::calls::{Answer, Call};
use registers::fact::Fact;
use registers::refusal::Refusal;
use std::fmt;

// A fact as text: its predicate, then its ids in brackets.
#[derive(Clone, Copy)]
pub struct ShownFact(pub Fact);

impl fmt::Display for ShownFact {
    fn fmt<W: fmt::Write>(&self, f: &mut fmt::Formatter<W>) -> fmt::Result {
        let predicate = self.0.predicate;
        let first = self.0.first;
        let second = self.0.second;
        write!(f, "{predicate}({first}, {second})")
    }
}

// What putting answered.
#[derive(Clone, Copy)]
pub struct ShownPutting(pub Result<(), Refusal>);

impl fmt::Display for ShownPutting {
    fn fmt<W: fmt::Write>(&self, f: &mut fmt::Formatter<W>) -> fmt::Result {
        match self.0 {
            Ok(()) => write!(f, "accepted"),
            Err(refusal) => {
                let number = refusal.number();
                write!(f, "refused {number}")
            }
        }
    }
}

#[derive(Clone, Copy)]
pub struct ShownCall(pub Call);

impl fmt::Display for ShownCall {
    fn fmt<W: fmt::Write>(&self, f: &mut fmt::Formatter<W>) -> fmt::Result {
        match self.0 {
            Call::Holds(fact) => {
                let fact = ShownFact(fact);
                write!(f, "holds {fact}")
            }
            Call::Size => write!(f, "size"),
            Call::Limit => write!(f, "limit"),
            Call::Put(fact) => {
                let fact = ShownFact(fact);
                write!(f, "put {fact}")
            }
            Call::Take(fact) => {
                let fact = ShownFact(fact);
                write!(f, "take {fact}")
            }
        }
    }
}

// What a call answered, if it was made.
#[derive(Clone, Copy)]
pub struct ShownAnswer(pub Option<Answer>);

impl fmt::Display for ShownAnswer {
    fn fmt<W: fmt::Write>(&self, f: &mut fmt::Formatter<W>) -> fmt::Result {
        match self.0 {
            Some(Answer::Held(true)) => write!(f, "yes"),
            Some(Answer::Held(false)) => write!(f, "no"),
            Some(Answer::Number(number)) => write!(f, "{number}"),
            Some(Answer::Putting(answer)) => {
                let answer = ShownPutting(answer);
                write!(f, "{answer}")
            }
            Some(Answer::Taken) => write!(f, "done"),
            None => write!(f, "not made"),
        }
    }
}
