ghost use Rattle.std.specs.Prelude.{◌≡◌, List, [], ◌∷◌};
ghost use Rattle.registers.specs.Meaning.{Meaning};
ghost use Rattle.sessions.specs.State.{State, World};
ghost use Rattle.sessions.specs.Answers.{calls_in, after_calls, answered, verdict_of};
ghost use Rattle.sessions.specs.Pieces.{Part, state_after, parts_after, last_facts};
ghost use Rattle.sessions.specs.SessionView.{session_state, closing_state, world};

use crate::answer::answer_each;
use crate::call::Line;
use crate::session::{Closing, Session};
use goals::job::Job;
use labels::workspace::Workspace;
use registers::register::Register;

// One piece or more of a list of calls, each over a register of its own make.
pub trait Pieces {
    ghost first: { Self → Part };

    ghost others: { Self → List Part };

    // Makes the calls of each piece in their order, with each answer beside its call; the session is laid aside and taken up between pieces.
    fn run(&mut self, workspace: &mut Workspace, job: &Job, session: Session) -> Session
        ensures session { session_state result ≡ state_after job.now (session_state session) (first self.old ∷ others self.old) }
        ensures parts { ◌≡◌ {A = List Part} (first self.new ∷ others self.new) (parts_after job.now (session_state session) (first self.old ∷ others self.old)) };

    // Closes over the last piece's register.
    fn close(&self, workspace: &mut Workspace, job: &Job, session: Session) -> Closing
        ensures state { closing_state result ≡ session_state session }
        ensures verdict { result.verdict ≡ verdict_of job.now (record { state = session_state session; facts = last_facts (first self.now).facts (others self.now) }) };
}

// A register and the calls over it: the last piece.
#[derive(Drop)]
pub struct Work<'a, R> {
    pub register: &'a mut R,
    pub lines: Vec<Line>,
}

// A piece before others.
#[derive(Drop)]
pub struct Piece<'a, R, Rest> {
    pub work: Work<'a, R>,
    pub rest: Rest,
}

impl<'a, R: Register> Work<'a, R> {
    // The calls of this piece alone.
    fn run_own(&mut self, workspace: &mut Workspace, job: &Job, session: &mut Session)
        ensures lines { self.new.lines.items ≡ answered job.now (world session.old (R.Register.meaning self.old.register.now)) self.old.lines.items }
        ensures after { world session.new (R.Register.meaning self.new.register.now)
            ≡ after_calls job.now (world session.old (R.Register.meaning self.old.register.now)) (calls_in self.old.lines.items) }
    {
        answer_each(session, workspace, job, self.register, &mut self.lines);
    }
}

impl<'a, R: Register> Pieces for Work<'a, R> {
    ghost first = { λ p. record { facts = R.Register.meaning p.register.now; lines = p.lines.items } };

    ghost others = { λ p. [] };

    fn run(&mut self, workspace: &mut Workspace, job: &Job, mut session: Session) -> Session {
        self.run_own(workspace, job, &mut session);
        session
    }

    fn close(&self, workspace: &mut Workspace, job: &Job, session: Session) -> Closing {
        session.finish(workspace, job, self.register)
    }
}

impl<'a, R: Register, Rest: Pieces> Pieces for Piece<'a, R, Rest> {
    ghost first = { λ p. record { facts = R.Register.meaning p.work.register.now; lines = p.work.lines.items } };

    ghost others = { λ p. Rest.Pieces.first p.rest ∷ Rest.Pieces.others p.rest };

    fn run(&mut self, workspace: &mut Workspace, job: &Job, mut session: Session) -> Session {
        self.work.run_own(workspace, job, &mut session);
        let note = session.lay_aside();
        let session = note.take_up();
        self.rest.run(workspace, job, session)
    }

    fn close(&self, workspace: &mut Workspace, job: &Job, session: Session) -> Closing {
        self.rest.close(workspace, job, session)
    }
}
