ghost use Rattle.std.specs.Prelude.{◌≡◌, ◌<◌, ◌≤◌};
ghost use Rattle.registers.specs.Meaning.{Meaning};
ghost use Rattle.labels.specs.LabelCalls.{label_of};
ghost use Rattle.sessions.specs.State.{World, step_on};
ghost use Rattle.sessions.specs.Answers.{checked_at, step_answer, step_after};
ghost use Rattle.sessions.specs.SessionView.{session_state, world};

use crate::change::apply;
use crate::refusal::StepRefusal;
use crate::session::Session;
use crate::step::Step;
use goals::job::Job;
use goals::time::{Hour, Span};
use labels::state::LabelState;
use labels::workspace::Workspace;
use registers::register::Register;

impl Session {
    // Counts a step of the span, which led to the label.
    fn advance(&mut self, span: Span)
        requires few { self.old.number < 4096 }
        requires short { span.hours ≤ 1000 }
        ensures { session_state self.new ≡ step_on (session_state self.old) span.hours (label_of self.old.label) }
    {
        let number = self.number + 1;
        let hours = self.hour.hours + u32::from(span.hours);
        let is_false = matches!(self.label.state(), LabelState::False);
        self.number = number;
        self.hour = Hour { hours };
        // The first step whose label is FALSE stays the broken one.
        self.broken = self.broken.or(is_false.then_some(number));
    }

    // Takes a step, or refuses it and changes nothing: the label progresses by the facts before it, then the facts lose its
    // takes and gain its puts, the hour grows by its span, and the number by one.
    pub fn step<R: Register>(
        &mut self,
        workspace: &mut Workspace,
        job: &Job,
        register: &mut R,
        step: Step,
    ) -> Result<(), StepRefusal>
        ensures answer { result ≡ step_answer (checked_at job.now (world self.old (R.Register.meaning register.old)) step) }
        ensures after { world self.new (R.Register.meaning register.new)
            ≡ step_after job.now (world self.old (R.Register.meaning register.old)) step.arguments
            (checked_at job.now (world self.old (R.Register.meaning register.old)) step) }
    {
        let operation = self.check(job, register, step)?;
        self.label
            .progress(workspace, job, register, operation.span)?;
        self.advance(operation.span);
        apply(register, &operation, step.arguments);
        Ok(())
    }
}
