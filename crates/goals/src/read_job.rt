ghost use Rattle.goals.specs.JobReading.{FramedSays, BothSays, JobSays, FillSays};

use crate::file_fault::{FileFault, PlacedFault};
use crate::fill_fault::FillFault;
use crate::frame::{FramedFile, read_frame};
use crate::job::{Job, JobRoom};
use crate::job_fault::JobFault;
use crate::put_facts::put_facts;
use crate::read_catalogue::read_catalogue;
use crate::reader::read_goal;
use registers::register::Register;

// A job with the framed file that it was read from.
#[derive(Drop)]
pub(crate) struct FramedJob<'a> {
    pub file: FramedFile<'a>,
    pub job: Job,
}

// The job of a framed file: its catalogue, then its goal.
fn job_of(file: FramedFile<'_>, room: JobRoom) -> Result<Job, JobFault>
    ensures { FramedSays file.entry.bytes.now file.entry.frame result }
{
    let JobRoom { catalogue, goal } = room;
    let catalogue = read_catalogue(file, catalogue)?;
    let text = &file.bytes[file.frame.goal_at..file.frame.steps_at];
    let goal = read_goal(
        text,
        u16::from(catalogue.ids),
        catalogue.predicates.as_slice(),
        goal,
    )?;
    Ok(Job { catalogue, goal })
}

fn read_both(bytes: &[u8], room: JobRoom) -> Result<FramedJob<'_>, FileFault>
    ensures { BothSays bytes.now result }
{
    let frame = read_frame(bytes)?;
    let file = FramedFile { bytes, frame };
    let goal_at = frame.goal_at;
    let job = job_of(file, room).map_err(|fault| PlacedFault { fault, goal_at })?;
    Ok(FramedJob { file, job })
}

// Reads the job of an edition file: refused with 18 or 19 for its frame, with 1 or 2 for its catalogue, with 3 to 7 for its goal.
pub fn read_job(file: &[u8], room: JobRoom) -> Result<Job, FileFault>
    ensures { JobSays file.now result }
{
    Ok(read_both(file, room)?.job)
}

// Reads the job of an edition file and puts every fact of the file into a register, whatever it holds already, or none:
// refused as the file is, then with 8 for a fact out of bounds, then with 9 if the register would pass its limit.
pub fn fill<R: Register>(register: &mut R, file: &[u8], room: JobRoom) -> Result<Job, FillFault>
    ensures { FillSays (R.Register.meaning register.old) (R.Register.meaning register.new) file.now result }
{
    let FramedJob { file, job } = read_both(file, room)?;
    put_facts(register, file)?;
    Ok(job)
}
