ghost use Rattle.std.specs.Prelude.{◌≡◌, ◌+◌, ◌≤◌, ◌++◌, length};
ghost use Rattle.reports.specs.Lines.{truth_word, field, look_line, numbered, ending_line};

use crate::ending::Ending;
use crate::text::{LONGEST_FIELD, LONGEST_LINE, LONGEST_REPORT, Text};
use labels::state::LabelState;
use sessions::look::Look;

// A word for each state. `LabelState` is not this crate's, so that no conversion of std can be written for it here.
fn truth_word(truth: LabelState) -> &'static [u8]
    ensures value { result.now ≡ truth_word truth }
    ensures short { length result.now ≤ 5 }
{
    match truth {
        LabelState::True => b"true",
        LabelState::False => b"false",
        LabelState::Open => b"open",
    }
}

// That a line has room is asked of each writer: how much is written is known where all of it is, in `report_steps`.
impl Text {
    // Writes a number and a space.
    fn push_field(&mut self, number: u64)
        requires { length self.old + LONGEST_FIELD ≤ LONGEST_REPORT }
        ensures items { self.new ≡ self.old ++ field number }
        ensures short { length (field number) ≤ LONGEST_FIELD }
    {
        self.push_number(number);
        self.push_bytes(b" ");
    }

    // Writes the line of a look.
    pub fn push_look(&mut self, look: Look)
        requires { length self.old + LONGEST_LINE ≤ LONGEST_REPORT }
        ensures items { self.new ≡ self.old ++ look_line look }
        ensures short { length (look_line look) ≤ LONGEST_LINE }
    {
        self.push_field(u64::from(look.number));
        self.push_field(u64::from(look.hour.hours));
        self.push_field(look.size as u64);
        self.push_bytes(truth_word(look.truth));
        self.push_bytes(b"\n");
    }

    // Writes a line of words, the last of them a number.
    fn push_numbered(&mut self, words: &[u8], number: u64)
        requires room { length self.old + LONGEST_LINE ≤ LONGEST_REPORT }
        requires short { length words.now ≤ 8 }
        ensures { self.new ≡ self.old ++ numbered words.now number }
    {
        self.push_bytes(words);
        self.push_number(number);
        self.push_bytes(b"\n");
    }

    // Writes the last line.
    pub fn push_ending(&mut self, ending: Ending)
        requires { length self.old + LONGEST_LINE ≤ LONGEST_REPORT }
        ensures { self.new ≡ self.old ++ ending_line ending }
    {
        match ending {
            Ending::Kept => self.push_bytes(b"kept\n"),
            Ending::NotKept => self.push_bytes(b"not kept\n"),
            Ending::Broken(step) => self.push_numbered(b"broken ", u64::from(step)),
            Ending::Refused(refusal) => self.push_numbered(
                b"refused ",
                u64::from(refusal.number()),
            ),
        }
    }
}
