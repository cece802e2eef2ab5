ghost use Rattle.std.specs.Prelude.{◌≡◌, ◌+◌, ◌*◌, ◌<◌, ◌≤◌, length};
ghost use Rattle.goals.specs.Bytes.{byte_at};
ghost use Rattle.goals.specs.Frame.{marked, predicates_end, operations_end, frame_of, framed};

use crate::bytes::{byte_at, word_at};
use crate::file_fault::FrameFault;

// No edition file is longer.
pub const LONGEST_FILE: usize = 40000;

// Where the first section, that of the predicates, begins.
pub const PREDICATES_AT: usize = 14;

// The counts of an edition file, and where its sections begin.
#[derive(Clone, Copy, PartialEq, Eq, Debug)]
pub struct Frame {
    pub ids: u8,
    pub predicates: u8,
    pub operations: u8,
    pub facts: u16,
    pub goal_length: u16,
    pub steps: u16,
    pub operations_at: usize,
    pub facts_at: usize,
    pub goal_at: usize,
    pub steps_at: usize,
    pub end: usize,
}

// A file with its frame: its sections lie in it, one behind the other.
#[derive(Clone, Copy)]
pub(crate) struct FramedFile<'a> {
    pub bytes: &'a [u8],
    pub frame: Frame,
    ghost operations_near: { frame.operations_at ≤ 40000 },
    ghost facts_near: { frame.facts_at ≤ 40000 },
    ghost goal_first: { frame.goal_at ≤ frame.steps_at },
    ghost goal_end: { frame.steps_at ≤ length bytes.now },
    ghost goal_long: { frame.steps_at ≡ frame.goal_at + frame.goal_length },
}

// Reads the frame: the mark and the version, then the length against the counts.
#[tactic(auto, unfolding(crate::specs::Frame::framed, crate::specs::Frame::length_checked))]
pub fn read_frame(file: &[u8]) -> Result<Frame, FrameFault>
    ensures { result ≡ framed file.now }
{
    if !is_marked(file) {
        return Err(FrameFault::Mark);
    }
    if file.len() > LONGEST_FILE {
        return Err(FrameFault::Length(LONGEST_FILE));
    }
    let frame = walk(file);
    if file.len() != frame.end {
        return Err(FrameFault::Length(file.len().min(frame.end)));
    }
    Ok(frame)
}

// The letters E, D and P, and the version 1.
fn is_marked(file: &[u8]) -> bool
    ensures { result ≡ marked file.now }
{
    file.starts_with(b"EDP\x00\x01")
}

// The frame by the counts as they stand.
#[tactic(auto, unfolding(crate::specs::Frame::frame_of))]
fn walk(file: &[u8]) -> Frame
    requires { length file.now ≤ 40000 }
    ensures { result ≡ frame_of file.now }
{
    let predicates = byte_at(file, 6);
    let operations = byte_at(file, 7);
    let facts = word_at(file, 8);
    let goal_length = word_at(file, 10);
    let steps = word_at(file, 12);
    let operations_at = end_of_predicates(file, predicates);
    let facts_at = end_of_operations(file, operations, operations_at);
    let goal_at = facts_at + 3 * usize::from(facts);
    let steps_at = goal_at + usize::from(goal_length);
    Frame {
        ids: byte_at(file, 5),
        predicates,
        operations,
        facts,
        goal_length,
        steps,
        operations_at,
        facts_at,
        goal_at,
        steps_at,
        end: steps_at + 4 * usize::from(steps),
    }
}

// Two loops: the sum in a fold's closure isn't proved to fit, as nothing bounds the place it is handed; a trait of items is longer.
pub(crate) fn end_of_predicates(file: &[u8], count: u8) -> usize
    ensures value { result ≡ predicates_end file.now count 14 }
    ensures bound { result ≤ 14 + 257 * count }
{
    let mut at = PREDICATES_AT;
    for _ in 0..count {
        at += 2 + usize::from(byte_at(file, at + 1));
    }
    at
}

fn end_of_operations(file: &[u8], count: u8, start: usize) -> usize
    requires { start ≤ 65549 }
    ensures value { result ≡ operations_end file.now count start }
    ensures bound { result ≤ start + 2301 * count }
{
    let mut at = start;
    for _ in 0..count {
        at += 6 + 3 * entries(file, at);
    }
    at
}

// How many entries the operation at a place has: its needs, takes and puts.
pub(crate) fn entries(file: &[u8], at: usize) -> usize
    requires { at < 1000000 }
    ensures value { result ≡ byte_at file.now (at + 3) + byte_at file.now (at + 4) + byte_at file.now (at + 5) }
    ensures bound { result ≤ 765 }
{
    let needs = usize::from(byte_at(file, at + 3));
    let takes = usize::from(byte_at(file, at + 4));
    let puts = usize::from(byte_at(file, at + 5));
    needs + takes + puts
}
