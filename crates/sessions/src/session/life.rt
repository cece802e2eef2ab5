ghost use Rattle.std.specs.Prelude.{◌≡◌};
ghost use Rattle.registers.specs.Meaning.{Meaning};
ghost use Rattle.labels.specs.Labels.{Label as LabelTree};
ghost use Rattle.labels.specs.LabelCalls.{label_of};
ghost use Rattle.sessions.specs.State.{State, opened_state};
ghost use Rattle.sessions.specs.Answers.{judgement_by, look_answer, verdict_of};
ghost use Rattle.sessions.specs.SessionView.{session_state, note_state, closing_state, world};

use crate::look::Look;
use crate::refusal::LookRefusal;
use crate::session::{Closing, Note, Session};
use crate::verdict::{Judgement, Verdict};
use goals::job::Job;
use goals::time::Hour;
use labels::label::{Label, LabelRoom};
use labels::workspace::Workspace;
use registers::register::Register;

impl Session {
    // Opens a session on a job, in room for its label.
    pub fn open(room: LabelRoom, job: &Job) -> Session
        ensures { session_state result ≡ opened_state job.now }
    {
        Session {
            number: 0,
            hour: Hour { hours: 0 },
            label: Label::opening(room, job),
            broken: None,
        }
    }

    // Tells how the session stands; refused only where the job does not know its label.
    pub fn look<R: Register>(
        &self,
        workspace: &mut Workspace,
        job: &Job,
        register: &R,
    ) -> Result<Look, LookRefusal>
        ensures { result ≡ look_answer job.now (world self.now (R.Register.meaning register.now)) }
    {
        // A label refuses to be judged only where the job does not know it.
        let idles = self
            .label
            .idles(workspace, job, register)
            .map_err(|_| LookRefusal::OtherJob)?;
        Ok(Look {
            number: self.number,
            hour: self.hour,
            size: self.label.size(),
            truth: self.label.state(),
            idles,
            broken: self.broken,
        })
    }

    pub fn lay_aside(self) -> Note
        ensures { note_state result ≡ session_state self }
    {
        Note { session: self }
    }

    // Closes the session: what is left of it, with the verdict.
    pub fn finish<R: Register>(self, workspace: &mut Workspace, job: &Job, register: &R) -> Closing
        ensures state { closing_state result ≡ session_state self }
        ensures verdict { result.verdict ≡ verdict_of job.now (world self (R.Register.meaning register.now)) }
    {
        // Every field is named, since a session may not be dropped.
        let Session {
            number,
            hour,
            label,
            broken,
        } = self;
        let judgement = judge(&label, workspace, job, register);
        Closing {
            number,
            hour,
            label,
            verdict: Verdict { judgement, broken },
        }
    }

    // Closes the session.
    pub fn close<R: Register>(self, workspace: &mut Workspace, job: &Job, register: &R) -> Verdict
        ensures { result ≡ verdict_of job.now (world self (R.Register.meaning register.now)) }
    {
        self.finish(workspace, job, register).verdict
    }
}

impl Note {
    pub fn take_up(self) -> Session
        ensures { session_state result ≡ note_state self }
    {
        let Note { session } = self;
        session
    }
}

// Whether idling keeps the label, or the job does not know it.
fn judge<R: Register>(
    label: &Label,
    workspace: &mut Workspace,
    job: &Job,
    register: &R,
) -> Judgement
    ensures { result ≡ judgement_by job.now (R.Register.meaning register.now) (label_of label.now) }
{
    match label.idles(workspace, job, register) {
        Ok(true) => Judgement::Kept,
        Ok(false) => Judgement::NotKept,
        Err(_) => Judgement::OtherJob,
    }
}
