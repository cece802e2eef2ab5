ghost use Rattle.std.specs.Prelude.{◌≡◌};
ghost use Rattle.sessions.specs.Answers.{answer_to, after_call, answered, after_calls, calls_in};
ghost use Rattle.sessions.specs.SessionView.{world};

use crate::call::{Answer, Call, Line};
use crate::session::Session;
use goals::job::Job;
use labels::workspace::Workspace;
use registers::register::Register;

// Makes a call and gives its answer.
pub fn answer<R: Register>(
    session: &mut Session,
    workspace: &mut Workspace,
    job: &Job,
    register: &mut R,
    call: Call,
) -> Answer
    ensures answer { result ≡ answer_to job.now (world session.old (R.Register.meaning register.old)) call }
    ensures after { world session.new (R.Register.meaning register.new)
        ≡ after_call job.now (world session.old (R.Register.meaning register.old)) call }
{
    match call {
        Call::Step(step) => Answer::Stepped(session.step(workspace, job, register, step)),
        Call::Look => Answer::Seen(session.look(workspace, job, register)),
    }
}

// Makes the calls in their order and writes each answer beside its call.
pub fn answer_each<R: Register>(
    session: &mut Session,
    workspace: &mut Workspace,
    job: &Job,
    register: &mut R,
    lines: &mut [Line],
)
    ensures lines { lines.new ≡ answered job.now (world session.old (R.Register.meaning register.old)) lines.old }
    ensures after { world session.new (R.Register.meaning register.new)
        ≡ after_calls job.now (world session.old (R.Register.meaning register.old)) (calls_in lines.old) }
{
    for line in lines.iter_mut() {
        let answer = answer(session, workspace, job, register, line.call);
        line.answer = Some(answer);
    }
}
