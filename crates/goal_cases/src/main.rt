// Reads each line of standard input as a goal text, and says how many nodes it has or how it is refused.
#![tactic(auto)]

use goals::goal::GoalRoom;
use goals::goal_fault::GoalFault;
use goals::predicate::Predicate;
use goals::reader::read_goal;
use std::io;

fn predicate(places: u8, word: &[u8]) -> Predicate {
    let mut name = [0u8; 16];
    for (place, letter) in name.iter_mut().zip(word) {
        *place = *letter;
    }
    Predicate {
        places,
        name,
        length: word.len().min(16),
    }
}

fn answer(rt: &HostRuntime, text: &[u8]) -> io::Result<()> {
    let predicates = [
        predicate(1, b"label"),
        predicate(1, b"path"),
        predicate(1, b"stream"),
        predicate(2, b"tag"),
        predicate(0, b"p"),
        predicate(0, b"q"),
        predicate(1, b"abcdefghijklmnop"),
    ];
    let room = GoalRoom::new(rt.alloc())?;
    match read_goal(text, 2, &predicates, room) {
        Ok(goal) => println!(rt; "{} nodes", goal.len()),
        Err(fault) => refuse(rt, fault),
    }
}

fn refuse(rt: &HostRuntime, fault: GoalFault) -> io::Result<()> {
    let number = fault.number();
    match fault.place() {
        Some(place) => println!(rt; "refused {number} at {place}"),
        None => println!(rt; "refused {number}"),
    }
}

fn main(rt: HostRuntime) -> io::Result<()> {
    for line in rt.lines(rt.alloc()) {
        let text = line?;
        answer(&rt, text.as_bytes())?;
    }
    Ok(())
}
