ghost use Rattle.std.specs.Prelude.{◌≡◌};
ghost use Rattle.labels.specs.Facts.{bind, value as value_in};

use goals::goal::{Term, Variable};

// The ids of the outer and of the inner variable, 0 where none is bound: parts are compared with their bindings, so that what is
// not bound has one value.
#[derive(Clone, Copy, PartialEq, Eq, Debug)]
pub struct Binding {
    pub outer: u16,
    pub inner: u16,
}

impl Binding {
    // The same, with the variable bound to an id.
    pub fn with(self, variable: Variable, id: u16) -> Binding
        ensures { result ≡ bind variable id self }
    {
        match variable {
            Variable::Outer => Binding { outer: id, ..self },
            Variable::Inner => Binding { inner: id, ..self },
        }
    }

    // The id that a term stands for.
    pub fn value(self, term: Term) -> u16
        ensures { result ≡ value_in self term }
    {
        match term {
            Term::Id(id) => id,
            Term::Bound(Variable::Outer) => self.outer,
            Term::Bound(Variable::Inner) => self.inner,
        }
    }
}
