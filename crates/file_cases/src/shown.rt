use goals::catalogue_fault::CatalogueFault;
use goals::file_fault::{FileFault, FrameFault};
use goals::fill_fault::FillFault;
use goals::goal_fault::GoalFault;
use goals::job::Job;
use goals::job_fault::JobFault;
use std::fmt;

// What filling answered, as text: the number of nodes that the goal has or, refused, the number with what the fault tells.
#[derive(Clone, Copy)]
pub struct ShownFilling(Result<usize, FillFault>);

impl ShownFilling {
    pub fn of(answer: Result<Job, FillFault>) -> ShownFilling {
        ShownFilling(answer.map(|job| job.node_count()))
    }
}

impl fmt::Display for ShownFilling {
    fn fmt<W: fmt::Write>(&self, f: &mut fmt::Formatter<W>) -> fmt::Result {
        match self.0 {
            Ok(nodes) => write!(f, "accepted with {nodes} nodes"),
            Err(fault) => {
                let number = fault.number();
                write!(f, "refused {number}")?;
                show_details(fault, f)
            }
        }
    }
}

// The operation or the place of a fault; a goal's place in the text stands with the place of the text in the file.
fn show_details<W: fmt::Write>(fault: FillFault, f: &mut fmt::Formatter<W>) -> fmt::Result {
    match fault {
        FillFault::File(FileFault::Frame(FrameFault::Length(place))) => write!(f, " at {place}"),
        FillFault::File(FileFault::Job(JobFault::Catalogue(fault), _)) => show_operation(fault, f),
        FillFault::File(FileFault::Job(JobFault::Goal(fault), goal_at)) => {
            show_place(fault, goal_at, f)
        }
        _ => Ok(()),
    }
}

fn show_operation<W: fmt::Write>(fault: CatalogueFault, f: &mut fmt::Formatter<W>) -> fmt::Result {
    match fault {
        CatalogueFault::Shape => Ok(()),
        CatalogueFault::Operation(number) => write!(f, ", operation {number}"),
    }
}

fn show_place<W: fmt::Write>(
    fault: GoalFault,
    goal_at: usize,
    f: &mut fmt::Formatter<W>,
) -> fmt::Result {
    match fault.place() {
        Some(place) => write!(f, " at {place} of the goal text at {goal_at}"),
        None => Ok(()),
    }
}
