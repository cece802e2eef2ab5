ghost use Rattle.std.specs.Prelude.{◌≡◌, ◌+◌, ◌≤◌, true, length, is_ok, vec_len, vec_capacity};
ghost use Rattle.goals.specs.Frame.{framed};
ghost use Rattle.reports.specs.FileSteps.{step_at, steps_in, report_lines};

use goals::frame::{LONGEST_FILE, read_frame};
use sessions::call::{Call, Line};
use sessions::step::{Arguments, Step};

// A look at the opening, and a step and a look for each four bytes of the longest file.
pub const MOST_CALLS: usize = 1 + 2 * (LONGEST_FILE / 4);

// The step in four bytes: its operation and three arguments.
fn step_in(bytes: &[u8; 4]) -> Step
    ensures { result ≡ step_at bytes.now 0 }
{
    let [operation, first, second, third] = *bytes;
    Step {
        operation,
        arguments: Arguments {
            first: u16::from(first),
            second: u16::from(second),
            third: u16::from(third),
        },
    }
}

// Adds the calls of a file's report to an empty list that has room for them: a look at the opening, then each step of the
// file with a look behind it.
pub fn add_calls(lines: &mut Vec<Line>, file: &[u8])
    requires empty { vec_len lines.old ≡ 0 }
    requires room { MOST_CALLS ≤ vec_capacity lines.old }
    requires framed { is_ok (framed file.now) ≡ true }
    ensures items { lines.new.items ≡ report_lines (steps_in file.now) }
    ensures few { vec_len lines.new ≤ MOST_CALLS }
{
    let frame = read_frame(file).unwrap();
    let (_, section) = file.split_at(frame.steps_at);
    let (steps, _) = section.as_chunks::<4>();
    lines.push_reserved(Line::from(Call::Look));
    for bytes in steps {
        lines.push_reserved(Line::from(Call::Step(step_in(bytes))));
        lines.push_reserved(Line::from(Call::Look));
    }
}
