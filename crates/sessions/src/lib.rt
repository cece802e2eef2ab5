// Sessions: steps and looks on a job over a register, laid aside, taken up and closed.
#![tactic(auto)]

pub mod answer;
pub mod call;
mod change;
mod ground;
pub mod look;
mod needs;
pub mod pieces;
pub mod refusal;
pub mod schedule;
pub mod session;
pub mod step;
pub mod theorems;
pub mod verdict;
