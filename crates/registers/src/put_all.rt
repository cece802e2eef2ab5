ghost use Rattle.std.specs.Prelude.{◌≡◌, ◌+◌, ◌≤◌, true, length, take, nat_le};
ghost use Rattle.registers.specs.Meaning.{size_of, limit_of, all_allowed, including_all, put_all_answer, after_put_all};
ghost use Rattle.registers.specs.Records.{listed as listed_in};

use crate::fact::{ALL_FACTS, Fact};
use crate::fact_list::{FactList, facts};
use crate::refusal::Refusal;
use crate::register::Register;

// Puts every fact of a list or, refused, none: 8 if one of them is out of bounds, then 9 if the register would pass its limit.
pub fn put_all<R: Register, L: FactList>(register: &mut R, list: &L) -> Result<(), Refusal>
    ensures answer { result ≡ put_all_answer (R.Register.meaning register.old) (L.FactList.listed list.now) }
    ensures after { R.Register.meaning register.new ≡ after_put_all (R.Register.meaning register.old) (L.FactList.listed list.now) }
{
    if !all_in_bounds(list) {
        return Err(Refusal::OutOfBounds);
    }
    if !has_room(register, list) {
        return Err(Refusal::Full);
    }
    put_each(register, list);
    Ok(())
}

fn all_in_bounds<L: FactList>(list: &L) -> bool
    ensures { result ≡ all_allowed (L.FactList.listed list.now) }
{
    facts(list).all(|fact| fact.in_bounds())
}

// Would the limit allow all facts of the list, each counted once? A limit of all facts allows any. That all are in bounds is asked
// here and of two functions below: a type for such a list would say no more than the clause, and only `put_all` would make one.
fn has_room<R: Register, L: FactList>(register: &R, list: &L) -> bool
    requires { all_allowed (L.FactList.listed list.now) ≡ true }
    ensures { result ≡ nat_le (size_of (including_all (R.Register.meaning register.now) (L.FactList.listed list.now))) (limit_of (R.Register.meaning register.now)) }
{
    let limit = register.limit();
    if limit >= ALL_FACTS {
        return true;
    }
    let free = limit - register.size();
    list.count() <= free || count_new(register, list) <= free
}

// How many facts of the list the register lacks, each counted once. A loop: whether a fact counts depends on those before it, and
// the loop's invariant says to what the number has come, which a `filter(..).count()` would have to be led back to.
fn count_new<R: Register, L: FactList>(register: &R, list: &L) -> usize
    requires { all_allowed (L.FactList.listed list.now) ≡ true }
    ensures { size_of (R.Register.meaning register.now) + result ≡ size_of (including_all (R.Register.meaning register.now) (L.FactList.listed list.now)) }
{
    let mut new = 0;
    for (k, fact) in facts(list).enumerate() {
        if !register.holds(fact) && !is_before(list, k, fact) {
            new += 1;
        }
    }
    new
}

// Does the fact stand before the index?
pub fn is_before<L: FactList>(list: &L, index: usize, fact: Fact) -> bool
    ensures { result ≡ listed_in (take index (L.FactList.listed list.now)) fact.predicate fact.first fact.second }
{
    facts(list).take(index).any(|other| other == fact)
}

// Puts one fact after the other, where there is room for all.
fn put_each<R: Register, L: FactList>(register: &mut R, list: &L)
    requires bounds { all_allowed (L.FactList.listed list.now) ≡ true }
    requires room { size_of (including_all (R.Register.meaning register.old) (L.FactList.listed list.now)) ≤ limit_of (R.Register.meaning register.old) }
    ensures { R.Register.meaning register.new ≡ including_all (R.Register.meaning register.old) (L.FactList.listed list.now) }
{
    for fact in facts(list) {
        let _ = register.put(fact);
    }
}
