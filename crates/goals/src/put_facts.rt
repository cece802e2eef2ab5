ghost use Rattle.std.specs.Prelude.{◌≡◌};
ghost use Rattle.goals.specs.Filling.{declared, all_declared, facts_of, facts_answer, after_facts, id_fits};

use crate::bytes::byte_at;
use crate::frame::{FramedFile, end_of_predicates};
use registers::fact::Fact;
use registers::fact_list::facts;
use registers::put_all::put_all;
use registers::refusal::Refusal;
use registers::register::Register;

// Puts every fact of a framed file into a register, whatever it holds already, or none: refused with 8 for a fact out of
// bounds, then with 9 if the register would pass its limit.
pub(crate) fn put_facts<R: Register>(register: &mut R, file: FramedFile<'_>) -> Result<(), Refusal>
    ensures answer { result ≡ facts_answer (R.Register.meaning register.old) file.entry.bytes.now file.entry.frame }
    ensures after { R.Register.meaning register.new ≡ after_facts (R.Register.meaning register.old) file.entry.bytes.now file.entry.frame result }
{
    if !all_declared(file) {
        return Err(Refusal::OutOfBounds);
    }
    put_all(register, &file)
}

// Does the file's catalogue allow every fact?
fn all_declared(file: FramedFile<'_>) -> bool
    ensures { result ≡ all_declared file.entry.bytes.now file.entry.frame (facts_of file.entry.bytes.now file.entry.frame) }
{
    facts(&file).all(|fact| is_declared(file, fact))
}

fn is_declared(file: FramedFile<'_>, fact: Fact) -> bool
    ensures { result ≡ declared file.entry.bytes.now file.entry.frame fact }
{
    let places = byte_at(file.bytes, end_of_predicates(file.bytes, fact.predicate));
    fact.predicate < file.frame.predicates
        && id_fits(places >= 1, file.frame.ids, fact.first)
        && id_fits(places >= 2, file.frame.ids, fact.second)
}

// Sessions test arguments so too, over wider ids; the test is this one line.
fn id_fits(used: bool, ids: u8, id: u16) -> bool
    ensures { result ≡ id_fits used ids id }
{
    if used { id < u16::from(ids) } else { id == 0 }
}
