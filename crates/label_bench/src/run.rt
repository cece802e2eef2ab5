use crate::edition::Edition;
use anyhow::anyhow;
use goals::job::{Job, JobRoom};
use goals::read_job::fill;
use goals::time::Span;
use labels::label::{Label, LabelRoom};
use labels::refusal::LabelRefusal;
use labels::state::LabelState;
use labels::workspace::Workspace;
use registers::fact::ALL_FACTS;
use registers::grid::Grid;
use registers::register::Register;
use std::alloc::Global;

// A job with its opening register, and the label that progresses.
#[derive(Drop)]
pub struct Run {
    job: Job,
    register: Grid,
    label: Label,
    workspace: Workspace,
}

impl Run {
    // From the opening label of an edition.
    pub fn new(heap: Global, edition: Edition) -> anyhow::Result<Run> {
        let file = edition.file(heap)?;
        let mut register = Grid::new(heap, ALL_FACTS)?;
        let room = JobRoom::new(heap)?;
        let job = fill(&mut register, file.as_slice(), room).map_err(|_| anyhow!(
            "the edition is refused"
        ))?;
        let label = Label::opening(LabelRoom::new(heap)?, &job);
        let workspace = Workspace::new(heap)?;
        Ok(Run {
            job,
            register,
            label,
            workspace,
        })
    }

    pub fn step(&mut self, hours: u16) -> Result<(), LabelRefusal> {
        self.label.progress(
            &mut self.workspace,
            &self.job,
            &self.register,
            Span { hours },
        )
    }

    pub fn size(&self) -> usize {
        self.label.size()
    }

    // A match: the library has no `Display` for it, which could promise nothing of what it prints.
    pub fn state(&self) -> &'static str {
        match self.label.state() {
            LabelState::True => "true",
            LabelState::False => "false",
            LabelState::Open => "open",
        }
    }
}
