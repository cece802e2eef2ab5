use std::alloc::{AllocError, Global};

// The first fourteen bytes of a file.
#[derive(Clone, Copy)]
pub struct Header {
    pub mark: &'static [u8],
    pub version: u16,
    pub ids: u8,
    pub predicates: u8,
    pub operations: u8,
    pub facts: u16,
    pub goal_length: u16,
    pub steps: u16,
}

// A predicate as a file has it.
#[derive(Clone, Copy)]
pub struct Predicate {
    pub places: u8,
    pub name: &'static [u8],
}

// An operation as a file has it, whose entries are three bytes each.
#[derive(Clone, Copy)]
pub struct Operation {
    pub parameters: u8,
    pub span: u16,
    pub needs: &'static [[u8; 3]],
    pub takes: &'static [[u8; 3]],
    pub puts: &'static [[u8; 3]],
}

// Operations that stand in a file so many times.
#[derive(Clone, Copy)]
pub struct Operations {
    pub part: &'static [Operation],
    pub times: usize,
}

// A text that stands in a file so many times.
#[derive(Clone, Copy)]
pub struct Text {
    pub part: &'static [u8],
    pub times: usize,
}

// What stands behind the header.
#[derive(Clone, Copy)]
pub struct Body {
    pub predicates: &'static [Predicate],
    pub operations: Operations,
    pub facts: &'static [[u8; 3]],
    pub goal: Text,
    pub steps: usize,
}

// The header that fits the body below.
pub const HEADER: Header = Header {
    mark: b"EDP",
    version: 1,
    ids: 2,
    predicates: 3,
    operations: 1,
    facts: 3,
    goal_length: 1,
    steps: 1,
};

pub const BODY: Body = Body {
    predicates: PREDICATES,
    operations: Operations {
        part: &[OPERATION],
        times: 1,
    },
    facts: FACTS,
    goal: Text {
        part: b"T",
        times: 1,
    },
    steps: 1,
};

// Predicate 0 has one place, predicate 1 two and predicate 2 none.
pub const PREDICATES: &'static [Predicate] = &[
    Predicate {
        places: 1,
        name: b"a",
    },
    Predicate {
        places: 2,
        name: b"b",
    },
    Predicate {
        places: 0,
        name: b"c",
    },
];

// A fact of each predicate.
pub const FACTS: &'static [[u8; 3]] = &[[0, 1, 0], [1, 0, 1], [2, 0, 0]];

// How many bytes the file of that header and body has.
pub const LENGTH: usize = 46;

// An operation of one parameter and two hours that needs its parameter to have predicate 0.
pub const OPERATION: Operation = Operation {
    parameters: 1,
    span: 2,
    needs: &[[0, 128, 0]],
    takes: &[],
    puts: &[],
};

const STEP: [u8; 4] = [0, 1, 0, 0];

// The header that fits a body, with so many ids.
pub fn header_of(ids: u8, body: &Body) -> Header {
    Header {
        ids,
        predicates: count_byte(body.predicates.len()),
        operations: count_byte(
            body.operations
                .times
                .wrapping_mul(body.operations.part.len()),
        ),
        facts: count_word(body.facts.len()),
        goal_length: count_word(body.goal.times.wrapping_mul(body.goal.part.len())),
        steps: count_word(body.steps),
        ..HEADER
    }
}

fn count_byte(count: usize) -> u8 {
    count.min(255) as u8
}

fn count_word(count: usize) -> u16 {
    count.min(65535) as u16
}

pub fn build(heap: Global, header: &Header, body: &Body) -> Result<Vec<u8>, AllocError> {
    let mut file = Vec::new(heap);
    push_header(&mut file, header)?;
    for predicate in body.predicates {
        push_predicate(&mut file, predicate)?;
    }
    push_operations(&mut file, &body.operations)?;
    for fact in body.facts {
        file.extend_from_slice(fact)?;
    }
    for _ in 0..body.goal.times {
        file.extend_from_slice(body.goal.part)?;
    }
    for _ in 0..body.steps {
        file.extend_from_slice(&STEP)?;
    }
    Ok(file)
}

fn push_header(file: &mut Vec<u8>, header: &Header) -> Result<(), AllocError> {
    file.extend_from_slice(header.mark)?;
    file.extend_from_slice(&header.version.to_be_bytes())?;
    file.push(header.ids)?;
    file.push(header.predicates)?;
    file.push(header.operations)?;
    file.extend_from_slice(&header.facts.to_be_bytes())?;
    file.extend_from_slice(&header.goal_length.to_be_bytes())?;
    file.extend_from_slice(&header.steps.to_be_bytes())
}

fn push_predicate(file: &mut Vec<u8>, predicate: &Predicate) -> Result<(), AllocError> {
    file.push(predicate.places)?;
    file.push(count_byte(predicate.name.len()))?;
    file.extend_from_slice(predicate.name)
}

fn push_operations(file: &mut Vec<u8>, operations: &Operations) -> Result<(), AllocError> {
    for _ in 0..operations.times {
        for operation in operations.part {
            push_operation(file, operation)?;
        }
    }
    Ok(())
}

fn push_operation(file: &mut Vec<u8>, operation: &Operation) -> Result<(), AllocError> {
    file.push(operation.parameters)?;
    file.extend_from_slice(&operation.span.to_be_bytes())?;
    file.push(count_byte(operation.needs.len()))?;
    file.push(count_byte(operation.takes.len()))?;
    file.push(count_byte(operation.puts.len()))?;
    push_entries(file, operation.needs)?;
    push_entries(file, operation.takes)?;
    push_entries(file, operation.puts)
}

fn push_entries(file: &mut Vec<u8>, entries: &[[u8; 3]]) -> Result<(), AllocError> {
    for entry in entries {
        file.extend_from_slice(entry)?;
    }
    Ok(())
}
