ghost use Rattle.std.specs.Prelude.{◌≡◌, ℕ, ◌+◌, ◌*◌, ◌<◌, ◌≤◌, min, true, false, ◌&&◌, IfOk, if◌then◌else◌, vec_len, nat_eq, nat_le, nat_lt};
ghost use Rattle.registers.specs.Facts.{count_of};
ghost use Rattle.registers.specs.Meaning.{empty_of};
ghost use Rattle.registers.specs.Grid.{bit_of, bits_of, grid_facts, grid_meaning};

use crate::fact::{ALL_FACTS, Fact};
use crate::refusal::Refusal;
use crate::register::Register;
use std::alloc::{AllocError, Global};

// How many rows a grid has: one for each predicate and first id.
const ROWS: usize = 2048;

// A register with one bit for each fact that may be held: 16 times 128 rows of 128 bits.
#[derive(Drop)]
pub struct Grid {
    rows: Vec<u128>,
    limit: usize,
    ghost whole: { vec_len rows ≡ 2048 },
    ghost cut: { limit ≤ 262144 },
    ghost few: { count_of (grid_facts rows.items) ≤ limit },
}

impl Grid {
    // An empty grid, its limit cut to 262,144; the only call on a grid that asks for memory.
    pub fn new(heap: Global, limit: usize) -> Result<Grid, AllocError>
        ensures { IfOk result (λ g. grid_meaning g.rows.items g.limit ≡ empty_of (min limit 262144)) }
    {
        let rows = vec![in heap; 0u128; ROWS]?;
        Ok(Grid {
            rows,
            limit: limit.min(ALL_FACTS),
        })
    }

    fn has(&self, fact: Fact) -> bool
        ensures { result ≡ grid_facts self.now.rows.items fact.predicate fact.first fact.second }
    {
        if !fact.in_bounds() {
            return false;
        }
        let at = row_of(fact);
        bit(self.rows[at], fact.second)
    }

    // A loop: of the chain `map(..).sum()` neither that the sum fits nor what it is was found.
    fn count(&self) -> usize
        ensures { result ≡ count_of (grid_facts self.now.rows.items) }
    {
        let mut n = 0;
        for row in &self.rows {
            n += ones_of(*row);
        }
        n
    }

    // Is there no room for a fact that is not there? Below the full count there is always room for it.
    fn is_full(&self) -> bool
        ensures { result ≡ (nat_lt self.now.limit 262144 && nat_le self.now.limit (count_of (grid_facts self.now.rows.items))) }
    {
        self.limit < ALL_FACTS && self.count() >= self.limit
    }
}

fn row_of(fact: Fact) -> usize
    ensures { result ≡ fact.predicate * 128 + fact.first }
{
    usize::from(fact.predicate) * 128 + usize::from(fact.first)
}

// The bit of a row. It, `with_bit` and `without_bit` ask that the bit is below 128: a struct with that as its ghost field, and a
// function to make one, would be ten lines for three of one line each.
fn bit(row: u128, b: u16) -> bool
    requires { b < 128 }
    ensures { result ≡ bit_of row b }
{
    (row >> b) & 1 == 1
}

fn ones_of(row: u128) -> usize
    ensures count { result ≡ bits_of row }
    ensures bound { result ≤ 128 }
{
    row.count_ones() as usize
}

fn with_bit(row: u128, b: u16) -> u128
    requires { b < 128 }
    ensures { (k : ℕ) → bit_of result k ≡ (if nat_eq b k then true else bit_of row k) }
{
    row | (1 << b)
}

fn without_bit(row: u128, b: u16) -> u128
    requires b_bound { b < 128 }
    requires b_value { bit_of row b ≡ true }
    ensures { (k : ℕ) → bit_of result k ≡ (if nat_eq b k then false else bit_of row k) }
{
    row ^ (1 << b)
}

impl Register for Grid {
    ghost use Rattle.registers.specs.Lawfulness.{grid_lawful};

    ghost meaning = { λ g. grid_meaning g.rows.items g.limit };

    ghost lawful = { λ g. grid_lawful _ _ g.few };

    fn holds(&self, fact: Fact) -> bool {
        self.has(fact)
    }

    fn size(&self) -> usize {
        self.count()
    }

    fn limit(&self) -> usize {
        self.limit
    }

    fn put(&mut self, fact: Fact) -> Result<(), Refusal> {
        if !fact.in_bounds() {
            return Err(Refusal::OutOfBounds);
        }
        if self.has(fact) {
            return Ok(());
        }
        if self.is_full() {
            return Err(Refusal::Full);
        }
        let at = row_of(fact);
        let row = with_bit(self.rows[at], fact.second);
        self.rows[at] = row;
        Ok(())
    }

    fn take(&mut self, fact: Fact) {
        if self.has(fact) {
            let at = row_of(fact);
            let row = without_bit(self.rows[at], fact.second);
            self.rows[at] = row;
        }
    }
}
