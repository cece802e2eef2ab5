ghost use Rattle.std.specs.Prelude.{◌≡◌, ◌<◌};
ghost use Rattle.labels.specs.Labels.{waiting as waiting_of};
ghost use Rattle.labels.specs.Progress.{rest as rest_of};
ghost use Rattle.labels.specs.TableView.{Adds};
ghost use Rattle.labels.specs.JobWalks.{node_of, wait_of, Walks, WalksNot, WalksPair, WalksRange};

use crate::binding::Binding;
use crate::connective::Connective;
use crate::interval::{ends_after, is_passed, own_ends};
use crate::part::Part;
use crate::read::{is_fact, node_at};
use crate::table::{Full, Table};
use crate::workspace::MOST_WORK;
use goals::goal::{Atom, Ends, Node, Variable};
use goals::job::Job;
use goals::time::Span;
use registers::register::Register;

// Pairs, waits and ranges are made by `new`: a literal takes a line for each field, and `node` would pass 40 lines.

// An "and" or an "or" of a goal, by its number and those of its parts.
#[derive(Clone, Copy)]
pub struct Pair {
    pub by: Connective,
    pub node: usize,
    pub left: usize,
    pub right: usize,
}

impl Pair {
    fn new(by: Connective, node: usize, left: usize, right: usize) -> Pair
        ensures { result ≡ record { by = by; node = node; left = left; right = right } }
    {
        Pair {
            by,
            node,
            left,
            right,
        }
    }
}

// An until of a goal, with its ends or others.
#[derive(Clone, Copy)]
pub struct Wait {
    pub node: usize,
    pub ends: Ends,
    pub hold: usize,
    pub reach: usize,
}

impl Wait {
    pub fn new(node: usize, ends: Ends, hold: usize, reach: usize) -> Wait
        ensures { result ≡ record { node = node; ends = ends; hold = hold; reach = reach } }
    {
        Wait {
            node,
            ends,
            hold,
            reach,
        }
    }
}

// A quantifier of a goal: it joins the labels of the ids for which its bound holds.
#[derive(Clone, Copy)]
pub struct Range {
    pub by: Connective,
    pub node: usize,
    pub variable: Variable,
    pub bound: Atom,
    pub body: usize,
}

impl Range {
    pub fn new(by: Connective, node: usize, variable: Variable, bound: Atom, body: usize) -> Range
        ensures { result ≡ record { by = by; node = node; variable = variable; bound = bound; body = body } }
    {
        Range {
            by,
            node,
            variable,
            bound,
            body,
        }
    }
}

// What a step is worked out by: the job, the register that has the facts before it, and its span.
// The table that it fills is passed beside it: as a field, each contract would have to say that the other three stay.
#[derive(Drop)]
pub struct Step<'a, R> {
    pub job: &'a Job,
    pub register: &'a R,
    pub span: Span,
}

impl<'a, R: Register> Step<'a, R> {
    // A goal node, pending with its own ends.
    fn waiting(
        &self,
        table: &mut Table<MOST_WORK>,
        number: usize,
        binding: Binding,
    ) -> Result<usize, Full>
        ensures { Adds table.old table.new (waiting_of (node_of self.now.job.now number) binding) result }
    {
        let ends = own_ends(node_at(self.job, number));
        table.add(Part::Pending {
            node: number,
            binding,
            ends,
        })
    }

    // What is left of an until after the span.
    fn rest(
        &self,
        table: &mut Table<MOST_WORK>,
        node: usize,
        binding: Binding,
        ends: Ends,
    ) -> Result<usize, Full>
        ensures { Adds table.old table.new (rest_of self.now.span.hours node binding ends) result }
    {
        if is_passed(self.span, ends.upper) {
            return table.add(Part::False);
        }
        let ends = ends_after(self.span, ends);
        table.add(Part::Pending {
            node,
            binding,
            ends,
        })
    }

    // The progress of a goal node under a binding, at the register's facts, over the span.
    #[cycle(joined_negated_node_quantified_until)]
    pub fn node(
        &self,
        table: &mut Table<MOST_WORK>,
        number: usize,
        binding: Binding,
    ) -> Result<usize, Full>
        ensures { Walks self.now.job.now (R.Register.meaning self.now.register.now) self.now.span table.old table.new (node_of self.now.job.now number) binding result }
    {
        match *node_at(self.job, number) {
            Node::True => table.settle(true),
            Node::Test(atom) => table.settle(is_fact(self.register, binding, atom)),
            Node::Equal(left, right) => table.settle(binding.value(left) == binding.value(right)),
            Node::Not(x) => self.negated(table, x, binding),
            Node::And(left, right) => {
                let pair = Pair::new(Connective::And, number, left, right);
                self.joined(table, pair, binding)
            }
            Node::Or(left, right) => {
                let pair = Pair::new(Connective::Or, number, left, right);
                self.joined(table, pair, binding)
            }
            Node::Next(x) => self.waiting(table, x, binding),
            Node::Until(ends, hold, reach) => {
                let wait = Wait::new(number, ends, hold, reach);
                self.until(table, wait, binding)
            }
            Node::ForAll(variable, bound, body) => {
                let range = Range::new(Connective::And, number, variable, bound, body);
                self.quantified(table, range, binding)
            }
            Node::Exists(variable, bound, body) => {
                let range = Range::new(Connective::Or, number, variable, bound, body);
                self.quantified(table, range, binding)
            }
        }
    }

    // The progress of a node, negated.
    #[cycle(joined_negated_node_quantified_until)]
    fn negated(
        &self,
        table: &mut Table<MOST_WORK>,
        number: usize,
        binding: Binding,
    ) -> Result<usize, Full>
        ensures { WalksNot self.now.job.now (R.Register.meaning self.now.register.now) self.now.span table.old table.new number binding result }
    {
        let p = self.node(table, number, binding)?;
        table.negate(p)
    }

    // The progress of two parts, joined.
    #[cycle(joined_negated_node_quantified_until)]
    fn joined(
        &self,
        table: &mut Table<MOST_WORK>,
        pair: Pair,
        binding: Binding,
    ) -> Result<usize, Full>
        requires left { pair.left < pair.node }
        requires right { pair.right < pair.node }
        ensures { WalksPair self.now.job.now (R.Register.meaning self.now.register.now) self.now.span table.old table.new pair binding result }
    {
        let p = self.node(table, pair.left, binding)?;
        let q = self.node(table, pair.right, binding)?;
        table.join(pair.by, p, q)
    }

    // The progress of an until with any ends.
    #[cycle(joined_negated_node_quantified_until)]
    pub fn until(
        &self,
        table: &mut Table<MOST_WORK>,
        wait: Wait,
        binding: Binding,
    ) -> Result<usize, Full>
        requires hold { wait.hold < wait.node }
        requires reach { wait.reach < wait.node }
        ensures { Walks self.now.job.now (R.Register.meaning self.now.register.now) self.now.span table.old table.new (wait_of self.now.job.now wait) binding result }
    {
        let p = self.node(table, wait.hold, binding)?;
        let later = self.rest(table, wait.node, binding, wait.ends)?;
        let q = table.join(Connective::And, p, later)?;
        if wait.ends.lower.hours > 0 {
            return Ok(q);
        }
        let reached = self.node(table, wait.reach, binding)?;
        table.join(Connective::Or, reached, q)
    }

    // The progress of a quantifier: the labels of the ids in its range, joined in rising order to the right of the start.
    #[cycle(joined_negated_node_quantified_until)]
    fn quantified(
        &self,
        table: &mut Table<MOST_WORK>,
        range: Range,
        binding: Binding,
    ) -> Result<usize, Full>
        requires { range.body < range.node }
        ensures { WalksRange self.now.job.now (R.Register.meaning self.now.register.now) self.now.span table.old table.new range binding result }
    {
        let register = self.register;
        let mut so_far = table.start(range.by)?;
        for id in 0..self.job.ids() {
            let bound = binding.with(range.variable, id);
            if is_fact(register, bound, range.bound) {
                let p = self.node(table, range.body, bound)?;
                so_far = table.join(range.by, so_far, p)?;
            }
        }
        Ok(so_far)
    }
}
