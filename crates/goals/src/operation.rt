ghost use Rattle.std.specs.Prelude.{◌≡◌, ◌≤◌, length};

use crate::time::Span;

// What stands for an id in an operation: an id, or one of the operation's parameters, from 0.
#[derive(Clone, Copy)]
pub enum EntryTerm {
    Id(u16),
    Parameter(u8),
}

// A need, take or put: a predicate of two terms. Only needs are negated.
#[derive(Clone, Copy)]
pub struct Entry {
    pub negated: bool,
    pub predicate: u8,
    pub first: EntryTerm,
    pub second: EntryTerm,
}

// No operation has more needs, takes or puts.
pub const MOST_ENTRIES: usize = 6;

// Up to six entries; the first `count` items are in use. An array beside its count: entries are `Copy` and ask for no memory.
#[derive(Clone, Copy)]
pub struct Entries {
    pub(crate) items: [Entry; MOST_ENTRIES],
    pub(crate) count: usize,
    ghost few: { count ≤ 6 },
    ghost whole: { length items ≡ 6 },
}

// What a step does: with arguments for its parameters it needs some facts, takes some and puts some, and lasts its span.
#[derive(Clone, Copy)]
pub struct Operation {
    pub parameters: u8,
    pub span: Span,
    pub needs: Entries,
    pub takes: Entries,
    pub puts: Entries,
}

pub mod view;
