ghost use Rattle.rm_frame.specs.Framed.{FramesAreApart};

/// No frame is a proper prefix of another, and no two operations have one frame: what bytes begin with is
/// the frame of at most one operation that can be framed, whatever follows it.
pub fn frames_are_apart()
    ensures { FramesAreApart }
{}
