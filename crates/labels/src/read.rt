ghost use Rattle.std.specs.Prelude.{◌≡◌, slice_index_or};
ghost use Rattle.goals.specs.declared.goal.Node.TheVariants.{True};
ghost use Rattle.goals.specs.NodeTable.{PartsBelow};
ghost use Rattle.goals.specs.JobView.{nodes_of};
ghost use Rattle.labels.specs.Facts.{fact};
ghost use Rattle.labels.specs.Held.{facts_of};

use crate::binding::Binding;
use goals::goal::{Atom, Node};
use goals::job::Job;
use registers::fact::Fact;
use registers::register::Register;

// The node of that number; behind the last one all is true.
pub fn node_at(job: &Job, number: usize) -> &Node
    ensures value { result.now ≡ slice_index_or (nodes_of job.now) number True }
    ensures below { PartsBelow number result.now }
{
    job.node_ref(number).unwrap_or(&Node::True)
}

// Is the atom a fact of the register, under the binding?
pub fn is_fact<R: Register>(register: &R, binding: Binding, atom: Atom) -> bool
    ensures { result ≡ fact (facts_of (R.Register.meaning register.now)) binding atom }
{
    register.holds(Fact {
        predicate: atom.predicate,
        first: binding.value(atom.first),
        second: binding.value(atom.second),
    })
}
