ghost use Rattle.std.specs.Prelude.{◌≡◌};
ghost use Rattle.labels.specs.Size.{size as size_of};
ghost use Rattle.labels.specs.LabelCalls.{label_of, state_of, opening_of};

use crate::binding::Binding;
use crate::interval::own_ends;
use crate::label::{Label, LabelRoom};
use crate::part::Part;
use crate::read::node_at;
use crate::state::LabelState;
use goals::job::Job;

impl Label {
    // The opening label of a job: the goal's root pending with its own ends.
    pub fn opening(room: LabelRoom, job: &Job) -> Label
        ensures { label_of result ≡ opening_of job.now }
    {
        let LabelRoom { mut table } = room;
        let node = job.root();
        let ends = own_ends(node_at(job, node));
        let binding = Binding { outer: 0, inner: 0 };
        let pending = Part::Pending {
            node,
            binding,
            ends,
        };
        let Ok(root) = table.add(pending) else {
            unreachable!()
        };
        Label { table, root }
    }

    // How many distinct parts the label has, itself included.
    pub fn size(&self) -> usize
        ensures { result ≡ size_of (label_of self.now) }
    {
        self.table.len()
    }

    // Whether the label is TRUE, FALSE or open.
    pub fn state(&self) -> LabelState
        ensures { result ≡ state_of (label_of self.now) }
    {
        match self.table.part(self.root) {
            Part::True => LabelState::True,
            Part::False => LabelState::False,
            _ => LabelState::Open,
        }
    }
}
