ghost use Rattle.labels.specs.Joining.{negate as negated};
ghost use Rattle.labels.specs.Connectives.{join_by, start_of};
ghost use Rattle.labels.specs.Progress.{settled};
ghost use Rattle.labels.specs.TableView.{label_in, Stands, Adds};

use crate::connective::Connective;
use crate::part::Part;
use crate::table::{Full, Table};

// The simplified joinings of labels of a table, by their places.
impl<const LIMIT: usize> Table<LIMIT> {
    // A truth, as TRUE or FALSE.
    pub fn settle(&mut self, truth: bool) -> Result<usize, Full>
        ensures { Adds self.old self.new (settled truth) result }
    {
        self.add(if truth { Part::True } else { Part::False })
    }

    pub fn negate(&mut self, place: usize) -> Result<usize, Full>
        requires { Stands self.old place }
        ensures { Adds self.old self.new (negated (label_in self.old place)) result }
    {
        match self.part(place) {
            Part::True => self.add(Part::False),
            Part::False => self.add(Part::True),
            Part::Not(x) => Ok(x),
            _ => self.add(Part::Not(place)),
        }
    }

    // Two labels joined, by the first rule that fits.
    pub fn join(&mut self, by: Connective, i: usize, j: usize) -> Result<usize, Full>
        requires left { Stands self.old i }
        requires right { Stands self.old j }
        ensures { Adds self.old self.new (join_by by (label_in self.old i) (label_in self.old j)) result }
    {
        let left = self.part(i);
        let right = self.part(j);
        if left == by.absorbing() {
            return Ok(i);
        }
        if right == by.absorbing() {
            return Ok(j);
        }
        if left == by.neutral() {
            return Ok(j);
        }
        if right == by.neutral() || i == j {
            return Ok(i);
        }
        self.add(by.joined(i, j))
    }

    // The label from which a quantifier joins.
    pub fn start(&mut self, by: Connective) -> Result<usize, Full>
        ensures { Adds self.old self.new (start_of by) result }
    {
        self.add(by.neutral())
    }
}
