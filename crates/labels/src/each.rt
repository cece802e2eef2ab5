ghost use Rattle.std.specs.Prelude.{◌≡◌, ◌≤◌, true, length};
ghost use Rattle.labels.specs.Goals.{with_ends};
ghost use Rattle.labels.specs.Table.{before};
ghost use Rattle.labels.specs.Partwise.{moved};
ghost use Rattle.labels.specs.TableView.{parts_in};
ghost use Rattle.labels.specs.JobWalks.{node_of, Walks, WalksPart, WalksAll};

use crate::binding::Binding;
use crate::connective::Connective;
use crate::label::LARGEST;
use crate::part::Part;
use crate::read::node_at;
use crate::table::{Full, Table};
use crate::walk::{Step, Wait};
use crate::workspace::MOST_WORK;
use goals::goal::{Ends, Node};
use registers::register::Register;

impl<'a, R: Register> Step<'a, R> {
    // The progress of a pending part. Idling has such a function too, but gives a truth and no label: what both walk is two lines.
    // A part's number, binding and ends are what `Part::Pending` holds; a struct of its own for them would be taken apart here again.
    fn pending(
        &self,
        table: &mut Table<MOST_WORK>,
        number: usize,
        binding: Binding,
        ends: Ends,
    ) -> Result<usize, Full>
        ensures { Walks self.now.job.now (R.Register.meaning self.now.register.now) self.now.span table.old table.new (with_ends ends (node_of self.now.job.now number)) binding result }
    {
        match *node_at(self.job, number) {
            Node::Until(_, hold, reach) => {
                let wait = Wait::new(number, ends, hold, reach);
                self.until(table, wait, binding)
            }
            _ => self.node(table, number, binding),
        }
    }

    // The progress of one part, from where the progress of its own parts stands.
    fn one_part(
        &self,
        table: &mut Table<MOST_WORK>,
        part: Part,
        to: &[usize],
    ) -> Result<usize, Full>
        requires read { before (length to.now) part ≡ true }
        requires early { before (length (parts_in table.old)) (moved to.now part) ≡ true }
        ensures { WalksPart self.now.job.now (R.Register.meaning self.now.register.now) self.now.span table.old table.new part to.now result }
    {
        match part {
            Part::True | Part::False => table.add(part),
            Part::Pending {
                node,
                binding,
                ends,
            } => self.pending(table, node, binding, ends),
            Part::Not(x) => table.negate(to[x]),
            Part::And(x, y) => table.join(Connective::And, to[x], to[y]),
            Part::Or(x, y) => table.join(Connective::Or, to[x], to[y]),
        }
    }

    // The progress of every part of a table, each once and in its order; `to` tells where it stands.
    pub fn every_part(
        &self,
        table: &mut Table<MOST_WORK>,
        source: &Table<LARGEST>,
        to: &mut [usize],
    ) -> Result<(), Full>
        requires { length (parts_in source.now) ≤ length to.old }
        ensures { WalksAll self.now.job.now (R.Register.meaning self.now.register.now) self.now.span table.old table.new source.now to.new result }
    {
        for (k, part) in source.parts().iter().enumerate() {
            to[k] = self.one_part(table, *part, to)?;
        }
        Ok(())
    }
}
