ghost use Rattle.std.specs.Prelude.{◌≡◌, true, [], is_ok};
ghost use Rattle.goals.specs.Frame.{framed};
ghost use Rattle.reports.specs.FileSteps.{steps_in};
ghost use Rattle.sessions.specs.State.{opened};
ghost use Rattle.reports.specs.Report.{report as report_of, ending_from};
ghost use Rattle.reports.specs.Tells.{Tells};
ghost use Rattle.reports.specs.FileReport.{Reports};

use crate::calls::add_calls;
use crate::ending::Ending;
use crate::room::{ReportRoom, RunRoom};
use crate::text::Text;
use goals::job::Job;
use goals::read_job::fill;
use labels::theorems::labels_stay_known;
use registers::register::Register;
use sessions::pieces::Work;
use sessions::schedule::run_schedule;

// Runs the steps of a file on its job, from its filled register, and writes their report into an empty text.
fn report_steps<R: Register>(
    text: &mut Text,
    room: RunRoom,
    job: &Job,
    register: &mut R,
    file: &[u8],
)
    requires empty { text.old ≡ [] }
    requires framed { is_ok (framed file.now) ≡ true }
    ensures text { text.new ≡ report_of job.now (R.Register.meaning register.old) (steps_in file.now) }
    ensures tells { Tells job.now (R.Register.meaning register.old) (steps_in file.now)
        (ending_from job.now (opened job.now (R.Register.meaning register.old)) (steps_in file.now)) }
{
    // For the proof: a theorem.
    labels_stay_known();
    let RunRoom {
        label,
        mut workspace,
        mut lines,
    } = room;
    add_calls(&mut lines, file);
    let mut work = Work { register, lines };
    let closing = run_schedule(label, &mut workspace, job, &mut work);
    let ending = match text.push_answers(work.lines.as_slice()) {
        Ok(()) => Ending::from(&closing.verdict),
        Err(refusal) => Ending::Refused(refusal),
    };
    text.push_ending(ending);
}

// The report of an edition file over a register, as bytes: the register is filled with the file's facts, the file's steps
// are run on its job, and each call's answer is written down up to the first refusal, then the verdict. A file that is
// refused gives its number alone.
pub fn report<R: Register + Drop>(room: ReportRoom, mut register: R, file: &[u8]) -> Vec<u8>
    ensures { Reports (R.Register.meaning register) file.now result.items }
{
    let ReportRoom { job, run, mut text } = room;
    match fill(&mut register, file, job) {
        Ok(job) => report_steps(&mut text, run, &job, &mut register, file),
        Err(fault) => text.push_ending(Ending::Refused(fault.into())),
    }
    text.into_bytes()
}
