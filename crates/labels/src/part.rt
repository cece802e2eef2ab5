use crate::binding::Binding;
use goals::goal::Ends;

// A part of a label, which names its own parts by their numbers in the label's table: equal parts stand there once, where a tree
// of boxes would hold each as often as it is named, and would ask for memory.
#[derive(Clone, Copy, PartialEq, Eq, Debug)]
pub enum Part {
    True,
    False,
    Pending {
        node: usize,
        binding: Binding,
        ends: Ends,
    },
    Not(usize),
    And(usize, usize),
    Or(usize, usize),
}
