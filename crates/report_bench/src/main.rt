// Times the report of an edition file, which is read from standard input. It prints how long the report is and the sum of its
// bytes modulo 65,536; with the argument `time` the report is made several times, and the nanoseconds of the quickest run are
// printed too. The rooms are made before the clock starts.
#![tactic(auto)]

use registers::fact::ALL_FACTS;
use registers::grid::Grid;
use registers::register::Register;
use reports::report::report;
use reports::room::ReportRoom;
use std::env;
use std::io::Read;
use std::time::Instant;

// How often the report is timed.
const RUNS: u8 = 11;

// Longer than any edition file.
const MOST_BYTES: u64 = 65536;

fn main(rt: HostRuntime) -> anyhow::Result<()> {
    let mut file = Vec::new(rt.alloc());
    let mut input = rt.stdin().take(MOST_BYTES);
    let _ = input.read_to_end(&mut file)?;
    let room = ReportRoom::new(rt.alloc())?;
    let grid = Grid::new(rt.alloc(), ALL_FACTS)?;
    let text = report(room, grid, file.as_slice());
    let length = text.len();
    let sum = sum_of(text.as_slice());
    print!(rt; "{length} {sum}")?;
    if is_timed(&rt)? {
        let nanoseconds = quickest(&rt, file.as_slice())?;
        print!(rt; " {nanoseconds}")?;
    }
    println!(rt; "")?;
    Ok(())
}

fn sum_of(bytes: &[u8]) -> u16 {
    bytes
        .iter()
        .fold(0, |sum: u16, byte| sum.wrapping_add(u16::from(*byte)))
}

// Each benchmark has this test and the loop below itself: a library's function over arguments and clocks could promise nothing.
fn is_timed(rt: &HostRuntime) -> anyhow::Result<bool> {
    Ok(
        env::args(rt)?
            .skip(1)
            .any(|argument| argument.as_str() == "time"),
    )
}

fn quickest(rt: &HostRuntime, file: &[u8]) -> anyhow::Result<u128> {
    let mut best = u128::MAX;
    for _ in 0..RUNS {
        let room = ReportRoom::new(rt.alloc())?;
        let grid = Grid::new(rt.alloc(), ALL_FACTS)?;
        let start = Instant::now(rt)?;
        let text = report(room, grid, file);
        best = best.min(start.elapsed(rt)?.as_nanos());
        drop(text);
    }
    Ok(best)
}
