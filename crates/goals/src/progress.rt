ghost use Rattle.std.specs.Prelude.{◌≤◌, vec_len, vec_capacity};

use crate::goal::{Atom, Ends, Node, Variable};
use crate::rest::Rest;
use crate::scope::Scope;

// How far a text is read: what is left of it, the nodes counted, and the nodes made, each after its parts.
#[derive(Drop)]
pub struct Progress<'a> {
    pub rest: Rest<'a>,
    pub count: usize,
    pub nodes: Vec<Node>,
    ghost fits: { vec_len nodes ≤ count },
    ghost few: { count ≤ 128 },
    ghost roomy: { 128 ≤ vec_capacity nodes },
}

// What stands before an item; `F` and `G` have the node of their `T`.
#[derive(Clone, Copy)]
pub enum Prefix {
    Not,
    Next,
    Eventually(Ends, usize),
    Always(Ends, usize),
    ForAll(Variable, Atom),
    Exists(Variable, Atom),
}

// What joins the second formula of a bracket to the node of the first.
#[derive(Clone, Copy)]
pub enum Joint {
    Until(Ends, usize),
    Or(usize),
}

// A quantifier's letter and its bound.
#[derive(Clone, Copy)]
pub struct Bound {
    pub letter: u8,
    pub atom: Atom,
}

// A prefix with the scope behind it.
#[derive(Clone, Copy)]
pub struct Opening {
    pub prefix: Prefix,
    pub scope: Scope,
}

// The ends of `F` or `G`, with the node of its `T`.
#[derive(Clone, Copy)]
pub struct Timed {
    pub ends: Ends,
    pub truth: usize,
}
