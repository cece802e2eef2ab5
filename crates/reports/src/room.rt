ghost use Rattle.std.specs.Prelude.{◌≡◌, ◌≤◌, [], vec_len, vec_capacity};
ghost use Rattle.reports.specs.declared.calls.TheConstants.{MOST_CALLS};

use crate::calls::MOST_CALLS;
use crate::text::Text;
use goals::job::JobRoom;
use labels::label::LabelRoom;
use labels::workspace::Workspace;
use sessions::call::Line;
use std::alloc::{AllocError, Global};

// Room to run the steps of a file. Its lines are a plain `Vec`: what is known of their room is said here and where calls are added alone.
#[derive(Drop)]
pub(crate) struct RunRoom {
    pub label: LabelRoom,
    pub workspace: Workspace,
    pub lines: Vec<Line>,
    ghost unused: { vec_len lines ≡ 0 },
    ghost wide: { MOST_CALLS ≤ vec_capacity lines },
}

// Room for the report of a file; the only call for a report that asks for memory makes it.
#[derive(Drop)]
pub struct ReportRoom {
    pub(crate) job: JobRoom,
    pub(crate) run: RunRoom,
    pub(crate) text: Text,
    ghost blank: { text ≡ [] },
}

impl ReportRoom {
    pub fn new(heap: Global) -> Result<ReportRoom, AllocError> {
        let lines = Vec::with_capacity(heap, MOST_CALLS)?;
        let run = RunRoom {
            label: LabelRoom::new(heap)?,
            workspace: Workspace::new(heap)?,
            lines,
        };
        Ok(ReportRoom {
            job: JobRoom::new(heap)?,
            run,
            text: Text::new(heap)?,
        })
    }
}
