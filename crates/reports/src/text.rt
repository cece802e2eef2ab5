ghost use Rattle.std.specs.Prelude.{◌≡◌, ◌+◌, ◌≤◌, [], ◌++◌, length, decimal, IfOk};

use crate::calls::MOST_CALLS;
use std::alloc::{AllocError, Global};
use std::marker::Model;

// A number of at most 20 digits and a space.
pub const LONGEST_FIELD: usize = 21;

// No line of a report is longer: three fields, a word and the line feed.
pub const LONGEST_LINE: usize = 70;

// A line for each call, and one for the ending.
pub const LONGEST_REPORT: usize = LONGEST_LINE * (MOST_CALLS + 1);

// The bytes written so far, in room for the longest report.
#[derive(Drop)]
pub struct Text {
    bytes: Vec<u8>,
}

impl Model for Text {
    ghost use Rattle.std.specs.Prelude.{ℕ, ◌≤◌, List, vec_capacity};
    ghost use Rattle.reports.specs.declared.text.TheConstants.{LONGEST_REPORT};

    ghost Value = { List ℕ };

    ghost view = { λ t. t.bytes.items };

    ghost invariant = { λ t. LONGEST_REPORT ≤ vec_capacity t.bytes };
}

// The least number that has two digits.
const LEAST_OF_TWO_DIGITS: u64 = 10;

impl Text {
    pub fn new(heap: Global) -> Result<Text, AllocError>
        ensures { IfOk result (λ t. t ≡ []) }
    {
        let bytes = Vec::with_capacity(heap, LONGEST_REPORT)?;
        Ok(Text { bytes })
    }

    pub fn into_bytes(self) -> Vec<u8>
        ensures { result.items ≡ self }
    {
        let Text { bytes } = self;
        bytes
    }

    // Writes bytes at the end.
    pub fn push_bytes(&mut self, bytes: &[u8])
        requires { length self.old + length bytes.now ≤ LONGEST_REPORT }
        ensures { self.new ≡ self.old ++ bytes.now }
    {
        let _ = self.bytes.extend_from_slice(bytes);
    }

    // Writes a number in base ten at the end. Not by `write!`, which may fail by its contract: this cannot.
    pub fn push_number(&mut self, number: u64)
        requires { length self.old + length (decimal number) ≤ LONGEST_REPORT }
        ensures { self.new ≡ self.old ++ decimal number }
    {
        if number >= LEAST_OF_TWO_DIGITS {
            self.push_number(number / 10);
        }
        self.push_bytes(&[b'0' + (number % 10) as u8]);
    }
}
