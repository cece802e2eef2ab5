// Labels: what a goal still asks of the states to come, their progress by a step, and idling.
#![tactic(auto)]

pub mod binding;
mod compact;
mod connective;
mod each;
mod hash;
mod idle;
mod interval;
mod join;
pub mod known;
pub mod label;
mod look;
pub mod part;
mod progress;
mod read;
pub mod refusal;
pub mod state;
mod table;
pub mod theorems;
mod walk;
pub mod workspace;
