use crate::predicate::Predicate;
use crate::scope::Scope;
use crate::token::Token;

// What the words of a goal are read against: the number of ids and the predicates of its catalogue.
#[derive(Clone, Copy)]
pub struct Words<'a> {
    pub ids: u16,
    pub predicates: &'a [Predicate],
}

// A reader of a part of a goal: its words, and what stands around the part.
#[derive(Clone, Copy)]
pub struct Reader<'a> {
    pub words: Words<'a>,
    pub scope: Scope,
}

// A name of the text with its token.
#[derive(Clone, Copy)]
pub struct Called<'a> {
    pub name: &'a [u8],
    pub token: Token<'a>,
}
