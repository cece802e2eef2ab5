ghost use Rattle.std.specs.Prelude.{◌≡◌, ℕ, ◌<◌, ◌≤◌, true, length, vec_len, vec_capacity, MatchOption, slice_index_or};
ghost use Rattle.goals.specs.declared.goal.Node.TheVariants.{True};
ghost use Rattle.goals.specs.GoalTable.{parts_below};
ghost use Rattle.goals.specs.NodeTable.{ordered_node};

use crate::time::Span;
use std::alloc::{AllocError, Global};

// The two variables that may be bound around a node: by the outer and by the inner of two nested quantifiers.
#[derive(Clone, Copy, PartialEq, Eq, Debug)]
pub enum Variable {
    Outer,
    Inner,
}

// An id by its number, or the variable that stands for one.
#[derive(Clone, Copy, PartialEq, Eq, Debug)]
pub enum Term {
    Id(u16),
    Bound(Variable),
}

// A predicate of two terms; an unused term is the id 0, as in the file.
#[derive(Clone, Copy, PartialEq, Eq, Debug)]
pub struct Atom {
    pub predicate: u8,
    pub first: Term,
    pub second: Term,
}

// An interval of spans; without an upper end it has none. With its fields in this order it is copied faster.
#[derive(Clone, Copy, PartialEq, Eq, Debug)]
pub struct Ends {
    pub upper: Option<Span>,
    pub lower: Span,
}

// A node of a goal, which names its parts by their numbers in the goal's table: labels name nodes by these numbers, and the table's
// room is made once, as boxes could not be.
#[derive(Clone, Copy, PartialEq, Eq, Debug)]
pub enum Node {
    True,
    Test(Atom),
    Equal(Term, Term),
    Not(usize),
    And(usize, usize),
    Or(usize, usize),
    Next(usize),
    Until(Ends, usize, usize),
    ForAll(Variable, Atom, usize),
    Exists(Variable, Atom, usize),
}

// A goal that was read: its nodes, each after its parts, and the number of the whole.
#[derive(Drop)]
pub struct Goal {
    pub(crate) nodes: Vec<Node>,
    pub(crate) root: usize,
    ghost rising: { (k : ℕ) → k < length nodes.items → parts_below k (slice_index_or nodes.items k True) ≡ true },
    ghost ordered: { (k : ℕ) → k < length nodes.items → ordered_node (slice_index_or nodes.items k True) ≡ true },
    ghost rooted: { root < length nodes.items },
    ghost few: { length nodes.items ≤ 128 },
}

impl Goal {
    // The number of the node that stands for the whole goal.
    pub fn root(&self) -> usize
        ensures { result ≡ self.now.root }
    {
        self.root
    }

    // How many nodes there are.
    pub fn len(&self) -> usize
        ensures { result ≡ length self.now.nodes.items }
    {
        self.nodes.len()
    }

    // The node with a number, if there is one.
    pub fn node(&self, number: usize) -> Option<Node>
        ensures { MatchOption result (length self.now.nodes.items ≤ number) (λ n. (number < length self.now.nodes.items) × (n ≡ slice_index_or self.now.nodes.items number True)) }
    {
        self.nodes.get(number).copied()
    }
}

// A goal has at most so many nodes.
pub(crate) const MOST_NODES: usize = 128;

// Room for the nodes of a goal.
#[derive(Drop)]
pub struct GoalRoom {
    pub(crate) nodes: Vec<Node>,
    ghost empty: { vec_len nodes ≡ 0 },
    ghost roomy: { 128 ≤ vec_capacity nodes },
}

impl GoalRoom {
    pub fn new(heap: Global) -> Result<GoalRoom, AllocError> {
        let nodes = Vec::with_capacity(heap, MOST_NODES)?;
        Ok(GoalRoom { nodes })
    }
}
