ghost use Rattle.std.specs.Prelude.{◌≡◌, ◌≤◌, true, length};
ghost use Rattle.labels.specs.Table.{before};
ghost use Rattle.labels.specs.Partwise.{moved as moved_by};
ghost use Rattle.labels.specs.Marks.{marked, Marking};
ghost use Rattle.labels.specs.TableView.{parts_in, label_in, Stands, Adds};

use crate::label::LARGEST;
use crate::part::Part;
use crate::table::{Full, Table};
use crate::workspace::MOST_WORK;

// Marks a part's own parts.
fn mark_own(part: Part, marks: &mut [bool])
    requires { before (length marks.old) part ≡ true }
    ensures { marks.new ≡ marked part marks.old }
{
    match part {
        Part::True | Part::False | Part::Pending { .. } => {}
        Part::Not(x) => {
            marks[x] = true;
        }
        Part::And(x, y) | Part::Or(x, y) => {
            marks[x] = true;
            marks[y] = true;
        }
    }
}

// Marks the parts of the label at the root, from the root down. That there is a mark, or a place, for each part is asked of each
// function that goes over both: they have different owners.
pub fn mark(source: &Table<MOST_WORK>, root: usize, marks: &mut [bool])
    requires within { Stands source.now root }
    requires room { length (parts_in source.now) ≤ length marks.old }
    ensures { Marking (parts_in source.now) root 0 marks.new }
{
    marks.fill(false);
    marks[root] = true;
    for k in (0..=root).rev() {
        if marks[k] {
            mark_own(source.part(k), marks);
        }
    }
}

// A part whose own parts have moved.
fn moved(part: Part, to: &[usize]) -> Part
    requires { before (length to.now) part ≡ true }
    ensures { result ≡ moved_by to.now part }
{
    match part {
        Part::True | Part::False | Part::Pending { .. } => part,
        Part::Not(x) => Part::Not(to[x]),
        Part::And(x, y) => Part::And(to[x], to[y]),
        Part::Or(x, y) => Part::Or(to[x], to[y]),
    }
}

// Copies what is marked, which are the parts of the label at the root. By the place and not by an iterator: what is written at
// a place is read again for the parts behind it.
pub fn copy(
    source: &Table<MOST_WORK>,
    root: usize,
    marks: &[bool],
    to: &mut [usize],
    table: &mut Table<LARGEST>,
) -> Result<usize, Full>
    requires within { Stands source.now root }
    requires marks { Marking (parts_in source.now) root 0 marks.now }
    requires wide { length (parts_in source.now) ≤ length marks.now }
    requires room { length (parts_in source.now) ≤ length to.old }
    ensures { Adds table.old table.new (label_in source.now root) result }
{
    for k in 0..=root {
        if marks[k] {
            to[k] = table.add(moved(source.part(k), to))?;
        }
    }
    Ok(to[root])
}
