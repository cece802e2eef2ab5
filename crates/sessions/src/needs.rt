ghost use Rattle.std.specs.Prelude.{◌≡◌};
ghost use Rattle.sessions.specs.Steps.{argument_fits, arguments_fit, need_holds, first_failing};

use crate::ground::fact_of;
use crate::step::Arguments;
use goals::operation::{Entries, Entry};
use registers::register::Register;

// An argument that is used is below the number of ids, any other is 0. `goals` tests a file's facts so, over ids of one byte.
fn argument_fits(ids: u16, used: bool, argument: u16) -> bool
    ensures { result ≡ argument_fits ids used argument }
{
    if used { argument < ids } else { argument == 0 }
}

// Do the arguments suit an operation with so many parameters? Field by field: a chain over the three is no plainer, and
// its proof did not close.
pub fn arguments_fit(ids: u16, parameters: u8, arguments: Arguments) -> bool
    ensures { result ≡ arguments_fit ids parameters arguments }
{
    argument_fits(ids, parameters > 0, arguments.first)
        && argument_fits(ids, parameters > 1, arguments.second)
        && argument_fits(ids, parameters > 2, arguments.third)
}

fn need_holds<R: Register>(register: &R, arguments: Arguments, need: Entry) -> bool
    ensures { result ≡ need_holds (R.Register.meaning register.now) arguments need }
{
    register.holds(fact_of(need, arguments)) != need.negated
}

// The first need that does not hold, from 0.
pub fn first_failing<R: Register>(
    register: &R,
    arguments: Arguments,
    needs: &Entries,
) -> Option<usize>
    ensures { result ≡ first_failing (R.Register.meaning register.now) arguments needs.now }
{
    needs
        .as_slice()
        .iter()
        .position(|need| !need_holds(register, arguments, *need))
}
