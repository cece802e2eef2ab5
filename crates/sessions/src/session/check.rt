ghost use Rattle.std.specs.Prelude.{◌≡◌, Err, MatchResult};
ghost use Rattle.sessions.specs.Checks.{checked, Ready};
ghost use Rattle.sessions.specs.SessionView.{session_state};

use crate::change::has_room;
use crate::needs::{arguments_fit, first_failing};
use crate::refusal::StepRefusal;
use crate::session::Session;
use crate::step::Step;
use goals::job::Job;
use goals::operation::Operation;
use labels::known::is_known;
use registers::register::Register;

// No session takes more steps.
const MOST_STEPS: u16 = 4096;

impl Session {
    // The checks of a step before its label is progressed; the operation of a step that they do not refuse.
    pub(crate) fn check<R: Register>(
        &self,
        job: &Job,
        register: &R,
        step: Step,
    ) -> Result<Operation, StepRefusal>
        ensures { MatchResult result
            (λ o. Ready job.now (session_state self.now).number (session_state self.now).label (R.Register.meaning register.now) step o)
            (λ e. checked job.now (session_state self.now).number (session_state self.now).label (R.Register.meaning register.now) step ≡ Err e) }
    {
        if !is_known(job, &self.label) {
            return Err(StepRefusal::OtherJob);
        }
        let Some(operation) = job.operation(usize::from(step.operation)) else {
            return Err(StepRefusal::NoOperation);
        };
        if !arguments_fit(job.ids(), operation.parameters, step.arguments) {
            return Err(StepRefusal::BadArgument);
        }
        if let Some(need) = first_failing(register, step.arguments, &operation.needs) {
            return Err(StepRefusal::Need(need));
        }
        if self.number >= MOST_STEPS {
            return Err(StepRefusal::TooManySteps);
        }
        if !has_room(register, &operation, step.arguments) {
            return Err(StepRefusal::Full);
        }
        Ok(operation)
    }
}
