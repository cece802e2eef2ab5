ghost use Rattle.std.specs.Prelude.{◌≡◌, ℕ};
ghost use Rattle.labels.specs.Known.{known_part};
ghost use Rattle.labels.specs.LabelCalls.{label_of, known_to};

use crate::label::Label;
use crate::part::Part;
use goals::job::Job;

// Does a pending part name one of so many nodes, and ids of so many?
fn is_known_part(part: Part, nodes: usize, ids: u16) -> bool
    ensures { result ≡ known_part nodes ids part }
{
    match part {
        Part::Pending { node, binding, .. } => {
            node < nodes && (binding.outer < ids && binding.inner < ids)
        }
        _ => true,
    }
}

// Does the job know every pending part of the label?
pub fn is_known(job: &Job, label: &Label) -> bool
    ensures { result ≡ known_to job.now (label_of label.now) }
{
    let nodes = job.node_count();
    let ids = job.ids();
    label
        .table
        .parts()
        .iter()
        .all(|part| is_known_part(*part, nodes, ids))
}
