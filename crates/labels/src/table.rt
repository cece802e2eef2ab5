ghost use Rattle.std.specs.Prelude.{◌≡◌, ◌≢◌, ℕ, ◌<◌, ◌≤◌, true, [], ◌∷◌, length, IfOk, MatchOption, vec_len, vec_capacity, slice_index_or};
ghost use Rattle.labels.specs.declared.part.Part.TheVariants.{True};
ghost use Rattle.labels.specs.Chains.{Latest, Linked, Heads, Falls};
ghost use Rattle.labels.specs.Table.{composed, label_at, before, InOrder, NoTwins};
ghost use Rattle.labels.specs.Growth.{Added};

use crate::hash::{BUCKETS, hash};
use crate::part::Part;
use std::alloc::{AllocError, Global};

// The table has no room for another part.
#[derive(Clone, Copy)]
pub struct Full;

// At most LIMIT distinct parts, each behind its own; parts are found by chains, one for each bucket of a hash.
// A Vec of parts and one of links, not one of pairs: the parts are then a list that every definition reads as it is. A link is of
// four bytes, since all heads are emptied at each step.
#[derive(Drop)]
pub struct Table<const LIMIT: usize> {
    items: Vec<Part>,
    heads: Vec<Option<u16>>,
    next: Vec<Option<u16>>,
    ghost small: { LIMIT ≤ 4096 },
    ghost room: { LIMIT ≤ vec_capacity items },
    ghost few: { vec_len items ≤ LIMIT },
    ghost order: { InOrder items.items },
    ghost twins: { NoTwins items.items },
    ghost buckets: { vec_len heads ≡ 1024 },
    ghost beside: { vec_len next ≡ vec_len items },
    ghost spare: { LIMIT ≤ vec_capacity next },
    ghost latest: { Latest items.items heads.items },
    ghost linked: { Linked items.items next.items },
    ghost own: { Heads items.items heads.items },
    ghost earlier: { Falls items.items next.items },
}

impl<const LIMIT: usize> Table<LIMIT> {
    // An empty table.
    pub fn new(heap: Global) -> Result<Table<LIMIT>, AllocError>
        requires { LIMIT ≤ 4096 }
        ensures { IfOk result (λ t. t.items.items ≡ []) }
    {
        let items = Vec::with_capacity(heap, LIMIT)?;
        let heads = vec![in heap; None; BUCKETS]?;
        let next = Vec::with_capacity(heap, LIMIT)?;
        Ok(Table { items, heads, next })
    }

    // How many parts there are.
    pub fn len(&self) -> usize
        ensures { result ≡ length self.now.items.items }
    {
        self.items.len()
    }

    // The parts, each behind its own.
    pub fn parts(&self) -> &[Part]
        ensures { result.now ≡ self.now.items.items }
    {
        self.items.as_slice()
    }

    // The part at a place.
    pub fn part(&self, place: usize) -> Part
        requires { place < length self.now.items.items }
        ensures { result ≡ slice_index_or self.now.items.items place True }
    {
        self.items[place]
    }

    // Where the part stands.
    fn find(&self, part: Part) -> Option<usize>
        ensures { MatchOption result ((k : ℕ) → k < length self.now.items.items → slice_index_or self.now.items.items k True ≢ part) (λ k. (k < length self.now.items.items) × (slice_index_or self.now.items.items k True ≡ part)) }
    {
        let mut link = self.heads[hash(part)];
        while let Some(at) = link {
            let place = usize::from(at);
            if self.items[place] == part {
                return Some(place);
            }
            link = self.next[place];
        }
        None
    }

    // Finds the part or adds it, and tells where it stands. That a part's own parts stand before a place is asked here and wherever a
    // part is read against a list of places: no type can say it of a part alone.
    pub fn add(&mut self, part: Part) -> Result<usize, Full>
        requires { before (length self.old.items.items) part ≡ true }
        ensures { Added LIMIT self.old.items.items self.new.items.items (composed (label_at self.old.items.items) part) result }
    {
        if let Some(place) = self.find(part) {
            return Ok(place);
        }
        let n = self.items.len();
        if n >= LIMIT {
            return Err(Full);
        }
        let bucket = hash(part);
        let last = self.heads[bucket];
        self.items.push_reserved(part);
        self.next.push_reserved(last);
        self.heads[bucket] = Some(n as u16);
        Ok(n)
    }

    // Empties the table.
    pub fn clear(&mut self)
        ensures { self.new.items.items ≡ [] }
    {
        self.items.clear();
        self.next.clear();
        self.heads.fill(None);
    }
}
