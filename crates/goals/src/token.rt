ghost use Rattle.std.specs.Prelude.{◌≡◌, ℕ, ◌+◌, ◌≤◌, Bool, List, ◌∷◌, length, drop, MatchOption};
ghost use Rattle.goals.specs.Tokens.{run_of, sign_token, number_token, name_token, variable_token};
ghost use Rattle.goals.specs.Seen.{mark_of, NoSign, Shows, Leads, is_sign, TokenAt};

use crate::rest::Rest;

// The signs of a goal text.
#[derive(Clone, Copy, PartialEq, Eq)]
pub enum Sign {
    True,
    Not,
    Next,
    Eventually,
    Always,
    ForAll,
    Exists,
    Open,
    Close,
    OpenEnds,
    CloseEnds,
    Comma,
    Star,
    Colon,
    Equal,
    And,
    Or,
    Until,
    Implies,
}

// What a token is: a name, a variable by its letter, a number by its digits, a sign, none of these, or the end.
#[derive(Clone, Copy)]
pub enum Kind<'a> {
    Name(&'a [u8]),
    Variable(u8),
    Number(&'a [u8]),
    Sign(Sign),
    Bad,
    End,
}

// A token with its place, which is the index of its first byte, and what stands behind it.
#[derive(Clone, Copy)]
pub struct Token<'a> {
    pub kind: Kind<'a>,
    pub place: usize,
    pub rest: Rest<'a>,
}

// How many of the first bytes pass a test. A loop: tried as `take_while(..).count()`, whose value was not proved.
fn run_of<F: Fn(u8) -> bool>(bytes: &[u8], passes: F) -> usize
    requires { F.IsAlwaysCallable passes }
    ensures within { result ≤ length bytes.now }
    ensures value { (t : ℕ → Bool) → ((b : ℕ) (r : Bool) → F.post passes b r → r ≡ t b) → result ≡ run_of t bytes.now }
{
    for (count, b) in bytes.iter().enumerate() {
        if !passes(*b) {
            return count;
        }
    }
    bytes.len()
}

impl Sign {
    // The sign that a character is.
    fn of(c: char) -> Option<Sign>
        ensures { MatchOption result (NoSign c) (λ s. mark_of s ≡ c) }
    {
        match c {
            'T' => Some(Sign::True),
            '!' => Some(Sign::Not),
            'X' => Some(Sign::Next),
            'F' => Some(Sign::Eventually),
            'G' => Some(Sign::Always),
            'A' => Some(Sign::ForAll),
            'E' => Some(Sign::Exists),
            '(' => Some(Sign::Open),
            ')' => Some(Sign::Close),
            '[' => Some(Sign::OpenEnds),
            ']' => Some(Sign::CloseEnds),
            ',' => Some(Sign::Comma),
            '*' => Some(Sign::Star),
            ':' => Some(Sign::Colon),
            '=' => Some(Sign::Equal),
            '&' => Some(Sign::And),
            '|' => Some(Sign::Or),
            'U' => Some(Sign::Until),
            '>' => Some(Sign::Implies),
            _ => None,
        }
    }
}

impl<'a> Kind<'a> {
    // Small letters in a row.
    fn name(letters: &'a [u8]) -> Kind<'a>
        ensures { Shows result (name_token letters.now) }
    {
        if letters.len() <= 16 {
            Kind::Name(letters)
        } else {
            Kind::Bad
        }
    }

    // Digits in a row.
    fn number(digits: &'a [u8]) -> Kind<'a>
        ensures { (b : ℕ) (bs : List ℕ) → digits.now ≡ b ∷ bs → Shows result (number_token b bs) }
    {
        if digits.len() > 1 && digits[0] == b'0' {
            Kind::Bad
        } else {
            Kind::Number(digits)
        }
    }

    // A question mark with the small letters behind it.
    fn variable(bytes: &[u8]) -> Kind<'a>
        ensures { (b : ℕ) (bs : List ℕ) → bytes.now ≡ b ∷ bs → Shows result (variable_token bs) }
    {
        match bytes {
            [_, letter] => Kind::Variable(*letter),
            _ => Kind::Bad,
        }
    }

    // A character that begins no name, number or variable. With `map_or` the check made no proof, since the variant's function names a lifetime that its argument doesn't.
    fn sign(c: char) -> Kind<'a>
        ensures { Shows result (sign_token c) }
    {
        match Sign::of(c) {
            Some(sign) => Kind::Sign(sign),
            None => Kind::Bad,
        }
    }

    // The kind of the token that stands first, and how many bytes it has.
    fn first_of(bytes: &'a [u8]) -> (Kind<'a>, usize)
        ensures { Leads bytes.now result.0 result.1 }
    {
        let Some((first, behind)) = bytes.split_first() else {
            return (Kind::End, 0);
        };
        match *first {
            b'a'..=b'z' => {
                let length = run_of(bytes, |b| b.is_ascii_lowercase());
                (Kind::name(&bytes[..length]), length)
            }
            b'0'..=b'9' => {
                let length = run_of(bytes, |b| b.is_ascii_digit());
                (Kind::number(&bytes[..length]), length)
            }
            b'?' => {
                let length = 1 + run_of(behind, |b| b.is_ascii_lowercase());
                (Kind::variable(&bytes[..length]), length)
            }
            sign => (Kind::sign(char::from(sign)), 1),
        }
    }
}

impl<'a> Rest<'a> {
    // What is left behind so many bytes.
    fn behind(self, count: usize) -> Rest<'a>
        requires { count ≤ length self.bytes.now }
        ensures bytes { result.bytes.now ≡ drop count self.entry.bytes.now }
        ensures place { result.place ≡ self.entry.place + count }
    {
        Rest {
            bytes: &self.bytes[count..],
            place: self.place + count,
        }
    }

    // The token that stands first.
    pub fn next_token(self) -> Token<'a>
        ensures { TokenAt self.entry result }
    {
        let blanks = run_of(self.bytes, |b| b == b' ' || b == b'\n');
        let here = self.behind(blanks);
        let (kind, length) = Kind::first_of(here.bytes);
        Token {
            kind,
            place: here.place,
            rest: here.behind(length),
        }
    }
}

impl Token<'_> {
    // The token is this sign.
    pub fn is(self, sign: Sign) -> bool
        ensures { result ≡ is_sign self.entry.kind sign }
    {
        matches!(self.kind, Kind::Sign(own) if own == sign)
    }
}
