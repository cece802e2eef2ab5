// Reports of edition files: the file is read, its schedule is run, and the answers are written out as text.
#![tactic(auto)]

mod answers;
mod calls;
pub mod ending;
mod line;
pub mod report;
pub mod room;
mod text;
