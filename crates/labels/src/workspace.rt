ghost use Rattle.std.specs.Prelude.{◌≡◌, vec_len};

use crate::label::LARGEST;
use crate::table::Table;
use std::alloc::{AllocError, Global};

// A step works out at most so many labels.
pub const MOST_WORK: usize = 4096;

// Room for the work of a step, used again by each step: the labels worked out, the new label, and for each part of a table
// the place that its progress or its copy has, and a mark.
// Places and marks are two Vecs: idling takes the marks alone, and a copy reads marks while it writes places.
#[derive(Drop)]
pub struct Workspace {
    pub(crate) work: Table<MOST_WORK>,
    pub(crate) fresh: Table<LARGEST>,
    pub(crate) places: Vec<usize>,
    pub(crate) marks: Vec<bool>,
    ghost long: { vec_len places ≡ 4096 },
    ghost beside: { vec_len marks ≡ 4096 },
}

impl Workspace {
    pub fn new(heap: Global) -> Result<Workspace, AllocError> {
        let work = Table::new(heap)?;
        let fresh = Table::new(heap)?;
        let places = vec![in heap; 0usize; MOST_WORK]?;
        let marks = vec![in heap; false; MOST_WORK]?;
        Ok(Workspace {
            work,
            fresh,
            places,
            marks,
        })
    }
}
