ghost use Rattle.std.specs.Prelude.{◌≡◌, ℕ, ◌<◌, true, length};
ghost use Rattle.labels.specs.Order.{ordered_label};
ghost use Rattle.labels.specs.Table.{label_at, OnlyParts};

use crate::table::Table;
use std::alloc::{AllocError, Global};

// A label has at most so many distinct parts.
pub const LARGEST: usize = 512;

// A label: a table of its distinct parts, each behind its own, and the place of the label itself.
#[derive(Drop)]
pub struct Label {
    pub(crate) table: Table<LARGEST>,
    pub(crate) root: usize,
    ghost inside: { root < length table.items.items },
    ghost only: { OnlyParts table.items.items root },
    ghost ordered: { ordered_label (label_at table.items.items root) ≡ true },
}

// Room for a label.
#[derive(Drop)]
pub struct LabelRoom {
    pub(crate) table: Table<LARGEST>,
    ghost empty: { length table.items.items ≡ 0 },
}

impl LabelRoom {
    pub fn new(heap: Global) -> Result<LabelRoom, AllocError> {
        let table = Table::new(heap)?;
        Ok(LabelRoom { table })
    }
}
