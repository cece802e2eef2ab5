// Workloads of the two makes of register. With no argument each is run once and its check value printed;
// with the argument `time` each is run several times, and the nanoseconds of the quickest run are printed too.
#![tactic(auto)]

mod workloads;

use std::time::Instant;
use std::{env, io};
use workloads::{WORKLOADS, Workload, run};

// How often a workload is timed.
const RUNS: u8 = 9;

fn main(rt: HostRuntime) -> io::Result<()> {
    let timed = is_timed(&rt)?;
    for workload in WORKLOADS {
        let name = workload.name();
        let check = run(rt.alloc(), workload)?;
        if timed {
            let nanoseconds = quickest(&rt, workload)?;
            println!(rt; "{name}: {check}: {nanoseconds}")?;
        } else {
            println!(rt; "{name}: {check}")?;
        }
    }
    Ok(())
}

// Each benchmark has this test and the loop below itself: a library's function over arguments and clocks could promise nothing.
fn is_timed(rt: &HostRuntime) -> io::Result<bool> {
    Ok(
        env::args(rt)?
            .skip(1)
            .any(|argument| argument.as_str() == "time"),
    )
}

fn quickest(rt: &HostRuntime, workload: Workload) -> io::Result<u128> {
    let mut best = u128::MAX;
    for _ in 0..RUNS {
        let start = Instant::now(rt)?;
        let _ = run(rt.alloc(), workload)?;
        best = best.min(start.elapsed(rt)?.as_nanos());
    }
    Ok(best)
}
