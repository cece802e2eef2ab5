// Workloads of labels: runs of progress over large labels and large ranges. With no argument each is run once, and the size of the label
// after each step and its last state are printed; with the argument `time` each is run several times, and the nanoseconds
// that all steps of the quickest run take are printed too.
#![tactic(auto)]

mod edition;
mod run;
mod workloads;

use run::Run;
use std::env;
use std::time::Instant;
use workloads::{Workload, workloads};

// How often a workload is timed.
const RUNS: u8 = 99;

fn main(rt: HostRuntime) -> anyhow::Result<()> {
    let timed = is_timed(&rt)?;
    for workload in workloads() {
        let name = workload.name;
        print!(rt; "{name}:")?;
        print_sizes(&rt, workload)?;
        if timed {
            let nanoseconds = quickest(&rt, workload)?;
            print!(rt; ": {nanoseconds}")?;
        }
        println!(rt; "")?;
    }
    Ok(())
}

// Each benchmark has this test and the loop below itself: a library's function over arguments and clocks could promise nothing.
fn is_timed(rt: &HostRuntime) -> anyhow::Result<bool> {
    Ok(
        env::args(rt)?
            .skip(1)
            .any(|argument| argument.as_str() == "time"),
    )
}

fn print_sizes(rt: &HostRuntime, workload: Workload) -> anyhow::Result<()> {
    let mut run = Run::new(rt.alloc(), workload.edition)?;
    for hours in workload.spans {
        match run.step(*hours) {
            Ok(_) => {
                let size = run.size();
                print!(rt; " {size}")?;
            }
            Err(refusal) => {
                let number = refusal.number();
                print!(rt; " refused with {number}")?;
            }
        }
    }
    let state = run.state();
    print!(rt; " {state}")?;
    Ok(())
}

fn quickest(rt: &HostRuntime, workload: Workload) -> anyhow::Result<u128> {
    let mut best = u128::MAX;
    for _ in 0..RUNS {
        let mut run = Run::new(rt.alloc(), workload.edition)?;
        let start = Instant::now(rt)?;
        for hours in workload.spans {
            let _ = run.step(*hours);
        }
        best = best.min(start.elapsed(rt)?.as_nanos());
    }
    Ok(best)
}
