ghost use Rattle.std.specs.Prelude.{◌≡◌, ◌≤◌, true, [], map, vec_len, vec_capacity};
ghost use Rattle.goals.specs.CatalogueRules.{sound_counts, sound_predicates};
ghost use Rattle.goals.specs.Entries.{predicate_text, operation_text};
ghost use Rattle.goals.specs.CatalogueMeaning.{sound_operations};
ghost use Rattle.goals.specs.EntryBounds.{operations_inside};

use crate::operation::Operation;
use crate::predicate::Predicate;
use std::alloc::{AllocError, Global};

pub(crate) const MOST_PREDICATES: u8 = 16;

pub(crate) const MOST_OPERATIONS: u8 = 64;

// Room for the largest catalogue.
#[derive(Drop)]
pub struct CatalogueRoom {
    pub(crate) predicates: Vec<Predicate>,
    pub(crate) operations: Vec<Operation>,
    ghost no_predicates: { vec_len predicates ≡ 0 },
    ghost no_operations: { vec_len operations ≡ 0 },
    ghost room_predicates: { 16 ≤ vec_capacity predicates },
    ghost room_operations: { 64 ≤ vec_capacity operations },
}

impl CatalogueRoom {
    pub fn new(heap: Global) -> Result<CatalogueRoom, AllocError> {
        let predicates = Vec::with_capacity(heap, usize::from(MOST_PREDICATES))?;
        let operations = Vec::with_capacity(heap, usize::from(MOST_OPERATIONS))?;
        Ok(CatalogueRoom {
            predicates,
            operations,
        })
    }
}

// A checked catalogue: how many ids there are, the predicates and the operations.
#[derive(Drop)]
pub struct Catalogue {
    pub(crate) ids: u8,
    pub(crate) predicates: Vec<Predicate>,
    pub(crate) operations: Vec<Operation>,
    ghost counts: { sound_counts ids (vec_len predicates) (vec_len operations) ≡ true },
    ghost names: { sound_predicates [] (map predicate_text predicates.items) ≡ true },
    ghost rules: { sound_operations ids (map predicate_text predicates.items) (map operation_text operations.items) ≡ true },
    ghost bounds: { operations_inside ids operations.items ≡ true },
}
