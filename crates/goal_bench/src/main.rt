// Times reading goal texts. With no argument each text is read and a check value printed;
// with the argument `time` it is read several times, and the nanoseconds of the quickest run are printed too.
#![tactic(auto)]

mod workloads;

use goals::predicate::Predicate;
use std::time::Instant;
use std::{env, io};
use workloads::{UNIT_COUNTS, predicates, read_often, text_of};

// How often reading a text is timed.
const RUNS: u8 = 9;

fn main(rt: HostRuntime) -> io::Result<()> {
    let timed = is_timed(&rt)?;
    let predicates = predicates();
    for units in UNIT_COUNTS {
        let text = text_of(rt.alloc(), units)?;
        print_text(&rt, timed, text.as_slice(), &predicates)?;
    }
    Ok(())
}

// Each benchmark has this test and the loop below itself: a library's function over arguments and clocks could promise nothing.
fn is_timed(rt: &HostRuntime) -> io::Result<bool> {
    Ok(
        env::args(rt)?
            .skip(1)
            .any(|argument| argument.as_str() == "time"),
    )
}

fn print_text(
    rt: &HostRuntime,
    timed: bool,
    text: &[u8],
    predicates: &[Predicate],
) -> io::Result<()> {
    let length = text.len();
    let check = read_often(rt.alloc(), text, predicates)?;
    if timed {
        let nanoseconds = quickest(rt, text, predicates)?;
        println!(rt; "read {length} bytes 1000 times: {check}: {nanoseconds}")
    } else {
        println!(rt; "read {length} bytes 1000 times: {check}")
    }
}

fn quickest(rt: &HostRuntime, text: &[u8], predicates: &[Predicate]) -> io::Result<u128> {
    let mut best = u128::MAX;
    for _ in 0..RUNS {
        let start = Instant::now(rt)?;
        let _ = read_often(rt.alloc(), text, predicates)?;
        best = best.min(start.elapsed(rt)?.as_nanos());
    }
    Ok(best)
}
