// Edition files: their frame, the catalogue and the goal in them, and filling a register with their facts.
#![tactic(auto)]

mod bytes;
pub mod catalogue;
pub mod catalogue_fault;
pub mod exact;
mod facts;
pub mod file_fault;
pub mod fill_fault;
pub mod frame;
pub mod goal;
pub mod goal_fault;
pub mod job;
pub mod job_fault;
pub mod job_view;
mod number;
pub mod operation;
mod parts;
pub mod predicate;
mod progress;
mod put_facts;
mod read_catalogue;
pub mod read_job;
mod read_operation;
mod read_predicate;
pub mod reader;
mod rest;
mod scope;
mod steps;
pub mod time;
mod token;
mod words;
