ghost use Rattle.std.specs.Prelude.{◌≡◌, ◌<◌};
ghost use Rattle.goals.specs.Bytes.{byte_at, word_at};

// The byte at a place, or 0 past the end: the frame is defined so, and whether the file ends early is asked of the whole frame.
pub(crate) fn byte_at(bytes: &[u8], at: usize) -> u8
    ensures { result ≡ byte_at bytes.now at }
{
    bytes.get(at).copied().unwrap_or(0)
}

// The number in two bytes, the high byte first.
// A place is a plain number here and where entries are read: each function goes a little further on, so no one bound serves all as a type.
pub(crate) fn word_at(bytes: &[u8], at: usize) -> u16
    requires { at < 1000000 }
    ensures { result ≡ word_at bytes.now at }
{
    u16::from_be_bytes([byte_at(bytes, at), byte_at(bytes, at + 1)])
}
