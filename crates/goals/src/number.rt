ghost use Rattle.std.specs.Prelude.{◌≡◌};
ghost use Rattle.goals.specs.Meanings.{capped};

// The number that digits write, or 65,535 where it is greater, which is over every limit that a number has. Each digit is added
// in `u32` and the sum cut: by saturating steps of `u16` a long row of digits took nearly twice as long.
pub fn number_of(digits: &[u8]) -> u16
    ensures { result ≡ capped 0 digits.now }
{
    digits.iter().fold(0, |n: u16, d| {
        (u32::from(n) * 10 + u32::from(d.saturating_sub(b'0'))).min(65535) as u16
    })
}
