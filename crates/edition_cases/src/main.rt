// Makes the report of each example file that an argument names, and tells whether it is the stored one.
#![tactic(auto)]

use registers::fact::ALL_FACTS;
use registers::grid::Grid;
use reports::report::report;
use reports::room::ReportRoom;
use std::{env, fs};

fn main(rt: HostRuntime) -> anyhow::Result<()> {
    for name in env::args(&rt)?.skip(1) {
        if is_as_stored(&rt, name.as_str())? {
            println!(rt; "{name}: as stored")?;
        } else {
            println!(rt; "{name}: another report")?;
        }
    }
    Ok(())
}

// Is the report of NAME.edp the text in NAME.out?
fn is_as_stored(rt: &HostRuntime, name: &str) -> anyhow::Result<bool> {
    let path = format!(in rt.alloc(); "{name}.edp")?;
    let file = fs::read(rt, path.as_str())?;
    let path = format!(in rt.alloc(); "{name}.out")?;
    let stored = fs::read(rt, path.as_str())?;
    let room = ReportRoom::new(rt.alloc())?;
    let grid = Grid::new(rt.alloc(), ALL_FACTS)?;
    let text = report(room, grid, file.as_slice());
    Ok(text.as_slice() == stored.as_slice())
}
