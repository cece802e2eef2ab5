use crate::shown::{ShownAnswer, ShownCall, ShownFact};
use registers::calls::{Call, Line, make_call, make_calls_on_both};
use registers::fact::Fact;
use registers::grid::Grid;
use registers::record_list::RecordList;
use registers::register::Register;
use std::io;

const NO_FACT: Fact = Fact {
    predicate: 0,
    first: 0,
    second: 0,
};

fn fact(predicate: u8, first: u16, second: u16) -> Fact {
    Fact {
        predicate,
        first,
        second,
    }
}

// Facts on both sides of each bound.
fn bounds_calls() -> [Call; 13] {
    [
        Call::Put(fact(15, 0, 0)),
        Call::Put(fact(16, 0, 0)),
        Call::Put(fact(0, 127, 0)),
        Call::Put(fact(0, 128, 0)),
        Call::Put(fact(0, 0, 127)),
        Call::Put(fact(0, 0, 128)),
        Call::Put(fact(255, 65535, 65535)),
        Call::Holds(fact(15, 0, 0)),
        Call::Holds(fact(16, 0, 0)),
        Call::Holds(fact(0, 0, 127)),
        Call::Holds(fact(0, 0, 128)),
        Call::Take(fact(0, 128, 0)),
        Call::Size,
    ]
}

// Two facts fill a register of limit 2; the third is refused, whatever else may be put again, until one is taken.
fn limit_calls() -> [Call; 14] {
    [
        Call::Limit,
        Call::Put(fact(1, 2, 3)),
        Call::Put(fact(1, 2, 3)),
        Call::Size,
        Call::Put(fact(1, 3, 2)),
        Call::Put(fact(2, 2, 3)),
        Call::Put(fact(1, 2, 3)),
        Call::Put(fact(16, 2, 3)),
        Call::Take(fact(2, 2, 3)),
        Call::Size,
        Call::Take(fact(1, 2, 3)),
        Call::Holds(fact(1, 2, 3)),
        Call::Put(fact(2, 2, 3)),
        Call::Size,
    ]
}

fn print_calls<R: Register>(
    rt: &HostRuntime,
    make: &str,
    register: &mut R,
    calls: &[Call],
) -> io::Result<()> {
    for call in calls {
        let answer = ShownAnswer(Some(make_call(register, *call)));
        let call = ShownCall(*call);
        println!(rt; "{make}: {call}: {answer}")?;
    }
    Ok(())
}

pub fn print_bounds(rt: &HostRuntime) -> io::Result<()> {
    let calls = bounds_calls();
    let mut grid = Grid::new(rt.alloc(), 100)?;
    print_calls(rt, "grid", &mut grid, &calls)?;
    let mut table = [NO_FACT; 100];
    let mut list = RecordList::new(&mut table);
    print_calls(rt, "list", &mut list, &calls)
}

// A grid and a list of limit 2, asked the same: the answers stand side by side.
pub fn print_limits(rt: &HostRuntime) -> io::Result<()> {
    let mut grid = Grid::new(rt.alloc(), 2)?;
    let mut table = [NO_FACT; 2];
    let mut list = RecordList::new(&mut table);
    let mut grid_lines = [Line {
        call: Call::Size,
        answer: None,
    }; 14];
    for (line, call) in grid_lines.iter_mut().zip(limit_calls()) {
        line.call = call;
    }
    let mut list_lines = grid_lines;
    make_calls_on_both(&mut grid, &mut list, &mut grid_lines, &mut list_lines);
    for (left, right) in grid_lines.iter().zip(list_lines.iter()) {
        let call = ShownCall(left.call);
        let left = ShownAnswer(left.answer);
        let right = ShownAnswer(right.answer);
        println!(rt; "{call}: grid {left}, list {right}")?;
    }
    Ok(())
}

// The records of a list, in whatever order, after three facts were put and the second one taken.
pub fn print_records(rt: &HostRuntime) -> io::Result<()> {
    let facts = [fact(1, 2, 3), fact(1, 3, 2), fact(2, 2, 3)];
    let mut table = [NO_FACT; 5];
    let mut list = RecordList::new(&mut table);
    for fact in &facts {
        let _ = list.put(*fact);
    }
    list.take(fact(1, 3, 2));
    let length = list.records().len();
    println!(rt; "list: {length} records")?;
    for fact in &facts {
        let times = count_records(list.records(), *fact);
        let fact = ShownFact(*fact);
        println!(rt; "list: {fact} stands {times} times among the records")?;
    }
    Ok(())
}

fn count_records(records: &[Fact], fact: Fact) -> usize {
    records.iter().filter(|record| **record == fact).count()
}
