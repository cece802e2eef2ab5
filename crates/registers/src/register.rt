ghost use Rattle.std.specs.Prelude.{◌≡◌};
ghost use Rattle.registers.specs.Meaning.{Meaning, Lawful, has, size_of, limit_of, put_answer, after_put, after_take};

use crate::fact::Fact;
use crate::refusal::Refusal;

// A set of facts with a limit on its size. What a register means is its ghost member `meaning`; each method is
// promised by the definitions beside that record.
pub trait Register {
    ghost meaning: { Self → Meaning };

    // Is the fact held?
    fn holds(&self, fact: Fact) -> bool
        ensures answer { result ≡ has (meaning self.now) fact }
        ensures lawful { Lawful (meaning self.now) };

    // How many facts are held.
    fn size(&self) -> usize
        ensures answer { result ≡ size_of (meaning self.now) }
        ensures lawful { Lawful (meaning self.now) };

    // The most facts that may be held; it never changes.
    fn limit(&self) -> usize
        ensures answer { result ≡ limit_of (meaning self.now) }
        ensures lawful { Lawful (meaning self.now) };

    // Puts the fact in, or refuses and changes nothing.
    fn put(&mut self, fact: Fact) -> Result<(), Refusal>
        ensures answer { result ≡ put_answer (meaning self.old) fact }
        ensures after { meaning self.new ≡ after_put (meaning self.old) fact }
        ensures lawful { Lawful (meaning self.old) };

    // Takes the fact out, if it is there.
    fn take(&mut self, fact: Fact)
        ensures after { meaning self.new ≡ after_take (meaning self.old) fact }
        ensures lawful { Lawful (meaning self.old) };

    // So of every register at any time: nothing out of bounds is held, and the size is at most the limit. Each method says it too,
    // since a law is not to be had through a `dyn Register`.
    ghost lawful: { (r : Self) → Lawful (meaning r) };
}
