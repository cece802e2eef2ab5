ghost use Rattle.std.specs.Prelude.{ℕ, List, vec_items};
ghost use Rattle.std.proofs.Props.{props};
ghost use Rattle.goals.specs.GoalClaims.{GoalRead};
ghost use Rattle.goals.specs.NodeTable.{PartsBelow-prop};
ghost use Rattle.goals.specs.SoundJob.{SoundJob};
ghost use Rattle.goals.specs.Vocabulary.{vocabulary_of};

use crate::catalogue::{Catalogue, CatalogueRoom};
use crate::goal::{Goal, GoalRoom};
use std::alloc::{AllocError, Global};

// Room for the largest job; the only call for a job that asks for memory makes it.
#[derive(Drop)]
pub struct JobRoom {
    pub(crate) catalogue: CatalogueRoom,
    pub(crate) goal: GoalRoom,
}

impl JobRoom {
    pub fn new(heap: Global) -> Result<JobRoom, AllocError> {
        let catalogue = CatalogueRoom::new(heap)?;
        let goal = GoalRoom::new(heap)?;
        Ok(JobRoom { catalogue, goal })
    }
}

// A checked catalogue with a goal that was read against it; nothing else is ever a job.
#[derive(Drop)]
pub struct Job {
    pub(crate) catalogue: Catalogue,
    pub(crate) goal: Goal,
    ghost read: { ∥ ((text : List ℕ) × GoalRead (vocabulary_of catalogue.ids catalogue.predicates.items) text goal) ∥₁ },
    pub ghost sound: { SoundJob catalogue.ids (vec_items goal.nodes) goal.root } by { Prim.hlevel (props, PartsBelow-prop) },
}
