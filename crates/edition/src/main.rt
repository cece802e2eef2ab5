// Reads an edition file from standard input and prints its report, over a grid that may hold every fact.
#![tactic(auto)]

use goals::frame::LONGEST_FILE;
use registers::fact::ALL_FACTS;
use registers::grid::Grid;
use registers::register::Register;
use reports::report::report;
use reports::room::ReportRoom;
use std::io;
use std::io::{Read, Write};

// One byte more than the longest file, so that a longer one is seen to be too long.
const MOST_BYTES: u64 = LONGEST_FILE as u64 + 1;

fn main(rt: HostRuntime) -> io::Result<()> {
    let mut file = Vec::new(rt.alloc());
    let mut input = rt.stdin().take(MOST_BYTES);
    let _ = input.read_to_end(&mut file)?;
    let room = ReportRoom::new(rt.alloc())?;
    let grid = Grid::new(rt.alloc(), ALL_FACTS)?;
    let text = report(room, grid, file.as_slice());
    rt.stdout().write_all(text.as_slice())
}
