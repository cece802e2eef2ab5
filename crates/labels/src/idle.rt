ghost use Rattle.std.specs.Prelude.{◌≡◌, ℕ, ◌<◌, ◌≤◌, true, false, length, IfOk, slice_index_or};
ghost use Rattle.labels.specs.Goals.{with_ends};
ghost use Rattle.labels.specs.Table.{before};
ghost use Rattle.labels.specs.TableView.{parts_in, label_in, Stands};
ghost use Rattle.labels.specs.JobWalks.{node_of, wait_of, keeps, keeps_part, keeps_label, keeps_any};
ghost use Rattle.labels.specs.LabelCalls.{label_of, idling_answer};
ghost use Rattle.labels.specs.LabelTruth.{Judges};

use crate::binding::Binding;
use crate::connective::Connective;
use crate::known::is_known;
use crate::label::Label;
use crate::part::Part;
use crate::read::{is_fact, node_at};
use crate::refusal::LabelRefusal;
use crate::walk::{Range, Wait};
use crate::workspace::Workspace;
use goals::goal::{Ends, Node};
use goals::job::Job;
use registers::register::Register;

// A register's facts held for ever, one state an hour, for the nodes of a job.
#[derive(Drop)]
struct Idling<'a, R> {
    job: &'a Job,
    register: &'a R,
}

impl<'a, R: Register> Idling<'a, R> {
    // Does it keep a goal node under a binding?
    #[cycle(any_node_until)]
    fn node(&self, number: usize, binding: Binding) -> bool
        ensures { result ≡ keeps self.now.job.now (R.Register.meaning self.now.register.now) (node_of self.now.job.now number) binding }
    {
        match *node_at(self.job, number) {
            Node::True => true,
            Node::Test(atom) => is_fact(self.register, binding, atom),
            Node::Equal(left, right) => binding.value(left) == binding.value(right),
            Node::Not(x) => !self.node(x, binding),
            Node::And(left, right) => self.node(left, binding) && self.node(right, binding),
            Node::Or(left, right) => self.node(left, binding) || self.node(right, binding),
            Node::Next(x) => self.node(x, binding),
            Node::Until(ends, hold, reach) => {
                self.until(Wait::new(number, ends, hold, reach), binding)
            }
            Node::ForAll(variable, bound, body) => {
                let range = Range::new(Connective::And, number, variable, bound, body);
                !self.any(range, binding, false)
            }
            Node::Exists(variable, bound, body) => {
                let range = Range::new(Connective::Or, number, variable, bound, body);
                self.any(range, binding, true)
            }
        }
    }

    // Does it keep an until with any ends: its second part, and its first too if the lower end is above 0?
    #[cycle(any_node_until)]
    fn until(&self, wait: Wait, binding: Binding) -> bool
        requires hold { wait.hold < wait.node }
        requires reach { wait.reach < wait.node }
        ensures { result ≡ keeps self.now.job.now (R.Register.meaning self.now.register.now) (wait_of self.now.job.now wait) binding }
    {
        if wait.ends.lower.hours > 0 && !self.node(wait.hold, binding) {
            return false;
        }
        self.node(wait.reach, binding)
    }

    // Is there an id in range for which the body's answer is the wanted one?
    // A `for`; `any` was tried: for a closure that calls `node` back the check asked for four measures.
    #[cycle(any_node_until)]
    fn any(&self, range: Range, binding: Binding, wanted: bool) -> bool
        requires { range.body < range.node }
        ensures { result ≡ keeps_any self.now.job.now (R.Register.meaning self.now.register.now) wanted range binding }
    {
        let register = self.register;
        for id in 0..self.job.ids() {
            let bound = binding.with(range.variable, id);
            if is_fact(register, bound, range.bound) && self.node(range.body, bound) == wanted {
                return true;
            }
        }
        false
    }

    // Does it keep a pending part? Like `Step::pending`, which gives a label.
    fn pending(&self, number: usize, binding: Binding, ends: Ends) -> bool
        ensures { result ≡ keeps self.now.job.now (R.Register.meaning self.now.register.now) (with_ends ends (node_of self.now.job.now number)) binding }
    {
        match *node_at(self.job, number) {
            Node::Until(_, hold, reach) => {
                self.until(Wait::new(number, ends, hold, reach), binding)
            }
            _ => self.node(number, binding),
        }
    }

    // Does it keep a part, from the answers for its own parts?
    fn one_part(&self, part: Part, gave: &[bool]) -> bool
        requires { before (length gave.now) part ≡ true }
        ensures { result ≡ keeps_part self.now.job.now (R.Register.meaning self.now.register.now) gave.now part }
    {
        match part {
            Part::True => true,
            Part::False => false,
            Part::Pending {
                node,
                binding,
                ends,
            } => self.pending(node, binding, ends),
            Part::Not(x) => !gave[x],
            Part::And(x, y) => gave[x] && gave[y],
            Part::Or(x, y) => gave[x] || gave[y],
        }
    }

    // The answers for every part of a label, each once and in the order of its table.
    fn every_part(&self, label: &Label, gave: &mut [bool])
        requires { length (parts_in label.now.table) ≤ length gave.old }
        ensures { (k : ℕ) → Stands label.now.table k → slice_index_or gave.new k false ≡ keeps_label self.now.job.now (R.Register.meaning self.now.register.now) (label_in label.now.table k) }
    {
        for (k, part) in label.table.parts().iter().enumerate() {
            gave[k] = self.one_part(*part, gave);
        }
    }
}

impl Label {
    // Does holding the register's facts for ever, one state an hour, keep the label? It is asked of each part once.
    pub fn idles<R: Register>(
        &self,
        workspace: &mut Workspace,
        job: &Job,
        register: &R,
    ) -> Result<bool, LabelRefusal>
        ensures answer { result ≡ idling_answer job.now (R.Register.meaning register.now) (label_of self.now) }
        ensures truth { IfOk result (λ b. Judges job.now (R.Register.meaning register.now) (label_of self.now) b) }
    {
        if !is_known(job, self) {
            return Err(LabelRefusal::OtherJob);
        }
        let gave = workspace.marks.as_mut_slice();
        Idling { job, register }.every_part(self, gave);
        Ok(gave[self.root])
    }
}
