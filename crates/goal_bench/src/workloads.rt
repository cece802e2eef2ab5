use goals::goal::{Goal, GoalRoom, Node};
use goals::predicate::Predicate;
use goals::reader::read_goal;
use std::alloc::{AllocError, Global};

// Texts of 256, 512, 1,024 and 2,048 bytes.
pub const UNIT_COUNTS: [usize; 4] = [4, 8, 16, 32];

// The texts are made of this unit of 64 bytes and three nodes, and of the sign that joins it to the next.
const UNIT: &'static [u8] = b"(abcdefghijklmnop(100,101) | abcdefghijklmnoo(102,103))\n      ";

const JOINED: &'static [u8] = b"& ";

const LAST: &'static [u8] = b"  ";

const IDS: u16 = 128;

// How often a text is read in a run.
const READINGS: u32 = 1000;

// So many units, one at least, joined by `&`.
pub fn text_of(heap: Global, units: usize) -> Result<Vec<u8>, AllocError> {
    let mut text = Vec::new(heap);
    for _ in 1..units {
        text.extend_from_slice(UNIT)?;
        text.extend_from_slice(JOINED)?;
    }
    text.extend_from_slice(UNIT)?;
    text.extend_from_slice(LAST)?;
    Ok(text)
}

// Sixteen predicates of two places, whose names differ in the last of sixteen letters.
pub fn predicates() -> [Predicate; 16] {
    let empty = Predicate {
        places: 2,
        name: *b"abcdefghijklmno?",
        length: 16,
    };
    let mut predicates = [empty; 16];
    for (predicate, letter) in predicates.iter_mut().zip(b"abcdefghijklmnop") {
        predicate.name[15] = *letter;
    }
    predicates
}

// Reads a text many times and gives a number that depends on every goal that was read.
pub fn read_often(heap: Global, text: &[u8], predicates: &[Predicate]) -> Result<u64, AllocError> {
    let mut check: u64 = 0;
    for _ in 0..READINGS {
        let room = GoalRoom::new(heap)?;
        if let Ok(goal) = read_goal(text, IDS, predicates, room) {
            check = check.wrapping_add(check_of(&goal));
        }
    }
    Ok(check)
}

fn check_of(goal: &Goal) -> u64 {
    let weight = match goal.node(goal.root()) {
        Some(Node::And(_, right)) => right as u64,
        _ => 0,
    };
    (goal.len() as u64).wrapping_mul(1000).wrapping_add(weight)
}
