ghost use Rattle.std.specs.Prelude.{◌*◌, ◌≤◌};

use crate::verdict::Verdict;
use goals::time::Hour;
use labels::label::Label;

// A session that is open: nothing lets it go but laying aside and closing. Workspace, job and register are passed beside it
// one by one: they are parameters of its public calls, a look only reads the register, and a piece keeps its own.
pub struct Session {
    number: u16,
    hour: Hour,
    label: Label,
    broken: Option<u16>,
    ghost few: { number ≤ 4096 },
    ghost hours: { hour.hours ≤ number * 1000 },
}

// A session laid aside, with all that it was.
pub struct Note {
    session: Session,
}

// What is left of a session that was closed.
#[derive(Drop)]
pub struct Closing {
    pub number: u16,
    pub hour: Hour,
    pub label: Label,
    pub verdict: Verdict,
}

mod check;
pub mod life;
mod take;
