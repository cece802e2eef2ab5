ghost use Rattle.std.specs.Prelude.{◌≡◌, ◌<◌, not};
ghost use Rattle.goals.specs.Scopes.{variable_of, bind, newest, has_room, binding, deeper};

use crate::goal::Variable;

// The letters in use around a place of a goal text: none, the outer variable's, or the outer's and the inner's.
#[derive(Clone, Copy)]
pub enum Letters {
    Free,
    One(u8),
    Two(u8, u8),
}

// What stands around a place of a goal text: the variables in use, and how many brackets are open.
#[derive(Clone, Copy)]
pub struct Scope {
    pub letters: Letters,
    pub depth: usize,
}

impl Letters {
    // The variable that a letter stands for.
    pub fn find(self, letter: u8) -> Option<Variable>
        ensures { result ≡ variable_of self letter }
    {
        match self {
            Letters::One(a) | Letters::Two(a, _) if a == letter => Some(Variable::Outer),
            Letters::Two(_, b) if b == letter => Some(Variable::Inner),
            _ => None,
        }
    }

    // The letters in use behind a quantifier.
    pub fn with(self, letter: u8) -> Letters
        ensures { result ≡ bind self letter }
    {
        match self {
            Letters::Free => Letters::One(letter),
            Letters::One(a) => Letters::Two(a, letter),
            Letters::Two(_, _) => self,
        }
    }

    // The variable that the next quantifier binds.
    pub fn next(self) -> Variable
        ensures { result ≡ newest self }
    {
        match self {
            Letters::Free => Variable::Outer,
            Letters::One(_) | Letters::Two(_, _) => Variable::Inner,
        }
    }

    // Two quantifiers stand around here.
    pub fn are_full(self) -> bool
        ensures { result ≡ not (has_room self) }
    {
        matches!(self, Letters::Two(_, _))
    }
}

impl Scope {
    // The scope inside a bracket.
    pub fn deeper(self) -> Scope
        requires { self.depth < 16 }
        ensures { result ≡ deeper self }
    {
        Scope {
            depth: self.depth + 1,
            ..self
        }
    }

    // The scope behind a quantifier.
    pub fn binding(self, letter: u8) -> Scope
        ensures { result ≡ binding self letter }
    {
        Scope {
            letters: self.letters.with(letter),
            ..self
        }
    }
}
