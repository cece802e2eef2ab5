// Cases at the edges of both makes of register, one printed line each: what was asked and what came.
#![tactic(auto)]

mod edges;
mod filled;
mod lists;
mod shown;

use std::io;

fn main(rt: HostRuntime) -> io::Result<()> {
    println!(rt; "-- facts at the edge of the bounds")?;
    edges::print_bounds(&rt)?;
    println!(rt; "-- the same calls on both makes, at the limit and one below")?;
    edges::print_limits(&rt)?;
    println!(rt; "-- the records of a list")?;
    edges::print_records(&rt)?;
    println!(rt; "-- registers filled one fact after the other")?;
    filled::print_grids(&rt)?;
    filled::print_lists(&rt)?;
    println!(rt; "-- whole lists of facts")?;
    lists::print_lists(&rt)
}
