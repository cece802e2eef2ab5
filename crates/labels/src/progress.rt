ghost use Rattle.std.specs.Prelude.{◌≡◌, OnOk};
ghost use Rattle.labels.specs.JobWalks.{WorksOut};
ghost use Rattle.labels.specs.LabelCalls.{label_of, progress_answer, after_progress};
ghost use Rattle.labels.specs.LabelTruth.{Carries};

use crate::compact::{copy, mark};
use crate::known::is_known;
use crate::label::Label;
use crate::refusal::LabelRefusal;
use crate::walk::Step;
use crate::workspace::Workspace;
use goals::job::Job;
use goals::time::Span;
use registers::register::Register;
use std::mem::swap;

impl<'a, R: Register> Step<'a, R> {
    // Works out the progress of a label into a table of the workspace.
    fn work_out(&self, label: &Label, workspace: &mut Workspace) -> Result<usize, LabelRefusal>
        ensures { WorksOut self.now.job.now (R.Register.meaning self.now.register.now) self.now.span (label_of label.now) workspace.new.fresh result }
    {
        let places = workspace.places.as_mut_slice();
        let marks = workspace.marks.as_mut_slice();
        workspace.work.clear();
        self.every_part(&mut workspace.work, &label.table, places)
            .map_err(|_| LabelRefusal::TooMuchWork)?;
        let top = places[label.root];
        mark(&workspace.work, top, marks);
        workspace.fresh.clear();
        copy(&workspace.work, top, marks, places, &mut workspace.fresh).map_err(
            |_| LabelRefusal::TooLong,
        )
    }
}

impl Label {
    // Progresses the label by a step of the span from the register's facts; a refusal changes nothing.
    pub fn progress<R: Register>(
        &mut self,
        workspace: &mut Workspace,
        job: &Job,
        register: &R,
        span: Span,
    ) -> Result<(), LabelRefusal>
        ensures answer { result ≡ progress_answer job.now (R.Register.meaning register.now) span (label_of self.old) }
        ensures after { label_of self.new ≡ after_progress job.now (R.Register.meaning register.now) span (label_of self.old) }
        ensures truth { OnOk result (Carries job.now (R.Register.meaning register.now) span (label_of self.old) (label_of self.new)) }
    {
        if !is_known(job, self) {
            return Err(LabelRefusal::OtherJob);
        }
        let step = Step {
            job,
            register,
            span,
        };
        let root = step.work_out(self, workspace)?;
        swap(&mut self.table, &mut workspace.fresh);
        self.root = root;
        Ok(())
    }
}
