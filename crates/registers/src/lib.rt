// Registers: sets of facts with a limit, in two makes behind one trait.
#![tactic(auto)]

pub mod calls;
pub mod fact;
pub mod fact_list;
pub mod grid;
pub mod put_all;
pub mod record_list;
pub mod refusal;
pub mod register;
