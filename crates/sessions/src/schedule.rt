ghost use Rattle.std.specs.Prelude.{◌≡◌, List, ◌∷◌};
ghost use Rattle.sessions.specs.State.{State, opened_state, opened};
ghost use Rattle.sessions.specs.Pieces.{Part, state_after, parts_after, Joined, all_lines, last_facts, Uncut};
ghost use Rattle.sessions.specs.Laws.{Law, closing_world};
ghost use Rattle.sessions.specs.SessionView.{closing_state};
ghost use Rattle.sessions.specs.Answers.{verdict_of};

use crate::pieces::Pieces;
use crate::session::{Closing, Session};
use crate::theorems::runs_keep_the_law;
use goals::job::Job;
use labels::label::LabelRoom;
use labels::workspace::Workspace;

// Opens a session, makes a list of calls cut into pieces, and closes the session over the last piece's register.
// The law over whole runs stands here: `state`, `parts` and `closed` say what each piece comes to over its own register,
// `law` and `cut` what that means where each piece begins with the facts and the limit that stand there.
pub fn run_schedule<P: Pieces>(
    room: LabelRoom,
    workspace: &mut Workspace,
    job: &Job,
    pieces: &mut P,
) -> Closing
    ensures state { closing_state result ≡ state_after job.now (opened_state job.now) (P.Pieces.first pieces.old ∷ P.Pieces.others pieces.old) }
    ensures parts { ◌≡◌ {A = List Part} (P.Pieces.first pieces.new ∷ P.Pieces.others pieces.new) (parts_after job.now (opened_state job.now) (P.Pieces.first pieces.old ∷ P.Pieces.others pieces.old)) }
    ensures law { Joined job.now (opened job.now (P.Pieces.first pieces.old).facts) (P.Pieces.first pieces.old ∷ P.Pieces.others pieces.old) →
        Law job.now (P.Pieces.first pieces.old).facts
        (all_lines (P.Pieces.first pieces.old ∷ P.Pieces.others pieces.old)) (all_lines (P.Pieces.first pieces.new ∷ P.Pieces.others pieces.new))
        (record { state = closing_state result; facts = last_facts (P.Pieces.first pieces.new).facts (P.Pieces.others pieces.new) }) result.verdict }
    ensures cut { Joined job.now (opened job.now (P.Pieces.first pieces.old).facts) (P.Pieces.first pieces.old ∷ P.Pieces.others pieces.old) →
        Uncut job.now (opened job.now (P.Pieces.first pieces.old).facts)
        (P.Pieces.first pieces.old ∷ P.Pieces.others pieces.old) (P.Pieces.first pieces.new ∷ P.Pieces.others pieces.new)
        (record { state = closing_state result; facts = last_facts (P.Pieces.first pieces.new).facts (P.Pieces.others pieces.new) }) result.verdict }
    ensures closed { result.verdict ≡ verdict_of job.now (closing_world (closing_state result) (P.Pieces.first pieces.new) (P.Pieces.others pieces.new)) }
{
    // For the proof: a theorem.
    runs_keep_the_law();
    let session = Session::open(room, job);
    let session = pieces.run(workspace, job, session);
    pieces.close(workspace, job, session)
}
