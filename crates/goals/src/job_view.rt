ghost use Rattle.std.specs.Prelude.{◌≡◌, length, IfSome};
ghost use Rattle.std.specs.List.{slice_get};
ghost use Rattle.std.specs.Option.{option_map};
ghost use Rattle.goals.specs.EntryBounds.{Inside};
ghost use Rattle.goals.specs.JobView.{ids_of, predicates_in, operations_in, nodes_of, root_of};

use crate::goal::Node;
use crate::job::Job;
use crate::operation::Operation;

#[tactic(auto, unfolding(crate::specs::JobView::ids_of, crate::specs::JobView::predicates_in, crate::specs::JobView::operations_in, crate::specs::JobView::nodes_of, crate::specs::JobView::root_of))]
impl Job {
    // How many ids there are.
    pub fn ids(&self) -> u16
        ensures { result ≡ ids_of self.now }
    {
        u16::from(self.catalogue.ids)
    }

    // How many predicates there are.
    pub fn predicate_count(&self) -> usize
        ensures { result ≡ length (predicates_in self.now) }
    {
        self.catalogue.predicates.len()
    }

    // How many operations there are.
    pub fn operation_count(&self) -> usize
        ensures { result ≡ length (operations_in self.now) }
    {
        self.catalogue.operations.len()
    }

    // The operation of that number, if there is one.
    pub fn operation(&self, number: usize) -> Option<Operation>
        ensures value { result ≡ slice_get (operations_in self.now) number }
        ensures inside { IfSome result (λ o. Inside (ids_of self.now) o) }
    {
        self.catalogue.operations.get(number).copied()
    }

    // How many nodes the goal has.
    pub fn node_count(&self) -> usize
        ensures { result ≡ length (nodes_of self.now) }
    {
        self.goal.nodes.len()
    }

    // The number of the goal's root.
    pub fn root(&self) -> usize
        ensures { result ≡ root_of self.now }
    {
        self.goal.root
    }

    // The node of that number, if there is one.
    pub fn node(&self, number: usize) -> Option<Node>
        ensures { result ≡ slice_get (nodes_of self.now) number }
    {
        self.node_ref(number).copied()
    }

    // The node of that number where it lies, if there is one: what walks over a goal read, since a copy of each node costs time.
    pub fn node_ref(&self, number: usize) -> Option<&Node>
        ensures { option_map (λ x. x.now) result ≡ slice_get (nodes_of self.now) number }
    {
        self.goal.nodes.get(number)
    }
}
