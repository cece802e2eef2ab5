ghost use Rattle.std.specs.Prelude.{◌≡◌, ◌+◌, ◌*◌, ◌≤◌, ◌++◌, length};
ghost use Rattle.reports.specs.Told.{answer_text, added_text, refusal_of, told_text, told_end};

use crate::ending::ReportRefusal;
use crate::text::{LONGEST_LINE, LONGEST_REPORT, Text};
use sessions::call::{Answer, Line};

impl Text {
    // Writes the line of a look, and gives a refusal.
    fn push_answer(&mut self, answer: Option<Answer>) -> Result<(), ReportRefusal>
        requires { length self.old + LONGEST_LINE ≤ LONGEST_REPORT }
        ensures items { self.new ≡ self.old ++ added_text (answer_text answer) }
        ensures refusal { result ≡ refusal_of (answer_text answer) }
        ensures short { length (added_text (answer_text answer)) ≤ LONGEST_LINE }
    {
        match answer {
            None => {}
            Some(Answer::Stepped(outcome)) => outcome?,
            Some(Answer::Seen(outcome)) => self.push_look(outcome?),
        }
        Ok(())
    }

    // Writes the lines of the looks up to the first refusal, and gives that.
    pub fn push_answers(&mut self, lines: &[Line]) -> Result<(), ReportRefusal>
        requires { length self.old + LONGEST_LINE * (length lines.now + 1) ≤ LONGEST_REPORT }
        ensures items { self.new ≡ self.old ++ told_text lines.now }
        ensures end { result ≡ told_end lines.now }
        ensures room { length self.new + LONGEST_LINE ≤ LONGEST_REPORT }
    {
        for line in lines {
            self.push_answer(line.answer)?;
        }
        Ok(())
    }
}
