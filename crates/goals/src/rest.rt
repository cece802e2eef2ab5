ghost use Rattle.std.specs.Prelude.{◌+◌, ◌≤◌, length};

// What is left of a goal text, and the place of its first byte.
#[derive(Clone, Copy)]
pub struct Rest<'a> {
    pub bytes: &'a [u8],
    pub place: usize,
    ghost short: { place + length bytes.now ≤ 2048 },
}
