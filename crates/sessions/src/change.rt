ghost use Rattle.std.specs.Prelude.{◌≡◌, ◌+◌, ◌≤◌, true, nat_le};
ghost use Rattle.registers.specs.Meaning.{has, size_of, limit_of, all_allowed, including_all};
ghost use Rattle.sessions.specs.Steps.{ground_all, excluding_all, facts_after};

use crate::ground::Ground;
use crate::step::Arguments;
use goals::operation::Operation;
use registers::fact::{ALL_FACTS, Fact};
use registers::fact_list::{FactList, facts};
use registers::put_all::{is_before, put_all};
use registers::register::Register;

// How many facts of the list the register holds, each counted once. This, `count_new` below and that of `registers` differ in their
// test and in what they are counted against: one function over the test, with the two laws from it to these clauses, is longer.
fn count_held<R: Register, L: FactList>(register: &R, takes: &L) -> usize
    ensures { size_of (excluding_all (R.Register.meaning register.now) (L.FactList.listed takes.now)) + result ≡ size_of (R.Register.meaning register.now) }
{
    let mut held = 0;
    for (k, fact) in facts(takes).enumerate() {
        if register.holds(fact) && !is_before(takes, k, fact) {
            held += 1;
        }
    }
    held
}

// Is the fact held once those of the list are out?
fn stays<R: Register, L: FactList>(register: &R, takes: &L, fact: Fact) -> bool
    ensures { result ≡ has (excluding_all (R.Register.meaning register.now) (L.FactList.listed takes.now)) fact }
{
    register.holds(fact) && !is_before(takes, takes.count(), fact)
}

// How many facts of `puts` would be new once those of `takes` are out, each counted once.
fn count_new<R: Register, S: FactList, L: FactList>(register: &R, takes: &S, puts: &L) -> usize
    requires { all_allowed (L.FactList.listed puts.now) ≡ true }
    ensures { size_of (excluding_all (R.Register.meaning register.now) (S.FactList.listed takes.now)) + result
        ≡ size_of (including_all (excluding_all (R.Register.meaning register.now) (S.FactList.listed takes.now)) (L.FactList.listed puts.now)) }
{
    let mut new = 0;
    for (k, fact) in facts(puts).enumerate() {
        if !stays(register, takes, fact) && !is_before(puts, k, fact) {
            new += 1;
        }
    }
    new
}

// Would the limit allow the facts after the step? A limit of all facts allows any.
pub fn has_room<R: Register>(register: &R, operation: &Operation, arguments: Arguments) -> bool
    requires { all_allowed (ground_all arguments operation.now.puts) ≡ true }
    ensures { result ≡ nat_le (size_of (facts_after (R.Register.meaning register.now) operation.now arguments)) (limit_of (R.Register.meaning register.now)) }
{
    let limit = register.limit();
    if limit >= ALL_FACTS {
        return true;
    }
    let takes = Ground {
        entries: operation.takes,
        arguments,
    };
    let puts = Ground {
        entries: operation.puts,
        arguments,
    };
    let held = count_held(register, &takes);
    let free = limit - register.size() + held;
    count_new(register, &takes, &puts) <= free
}

// Takes one fact after the other.
fn take_each<R: Register, L: FactList>(register: &mut R, takes: &L)
    ensures { R.Register.meaning register.new ≡ excluding_all (R.Register.meaning register.old) (L.FactList.listed takes.now) }
{
    for fact in facts(takes) {
        register.take(fact);
    }
}

// Makes the facts those after the step, where there is room for them.
pub fn apply<R: Register>(register: &mut R, operation: &Operation, arguments: Arguments)
    requires bounds { all_allowed (ground_all arguments operation.now.puts) ≡ true }
    requires room { size_of (facts_after (R.Register.meaning register.old) operation.now arguments) ≤ limit_of (R.Register.meaning register.old) }
    ensures { R.Register.meaning register.new ≡ facts_after (R.Register.meaning register.old) operation.now arguments }
{
    let takes = Ground {
        entries: operation.takes,
        arguments,
    };
    let puts = Ground {
        entries: operation.puts,
        arguments,
    };
    take_each(register, &takes);
    let _ = put_all(register, &puts);
}
