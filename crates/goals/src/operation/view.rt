ghost use Rattle.std.specs.Prelude.{◌≡◌};
ghost use Rattle.goals.specs.Entries.{entries_of};

use crate::operation::{Entries, Entry};

impl Entries {
    // The entries in use.
    pub fn as_slice(&self) -> &[Entry]
        ensures { result.now ≡ entries_of self.now }
    {
        &self.items[..self.count]
    }
}
