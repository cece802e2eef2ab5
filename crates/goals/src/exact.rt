ghost use Rattle.goals.specs.Written.{FrameIsWhole, EditionsAreFramed};

// An accepted file is, byte for byte, what it says, written out again.
pub fn frame_is_whole()
    ensures { FrameIsWhole }
{}

// Every edition, written out, is accepted unless it is too long, and says just that edition.
pub fn editions_are_framed()
    ensures { EditionsAreFramed }
{}
