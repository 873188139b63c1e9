ghost use Rattle.rm_page.specs.Apart.{OpTextsAreApart, MessageTextsAreApart, ReplyTextsShow, LinesShow, PagesShow, MovesShow};

/// Two operations, or two messages, in their ranges have one text only where they are equal; and two
/// replies exactly where they are equal but for the sizes of grants, which no text shows.
pub fn texts_are_apart()
    ensures operations { OpTextsAreApart }
    ensures messages { MessageTextsAreApart }
    ensures replies { ReplyTextsShow }
{}

/// Two entries have one line exactly where they show the same, and two logs have one page exactly where
/// their entries that have lines show the same, in the same order. With the moves, exactly where their
/// entries also are of the same lanes.
pub fn lines_tell_entries()
    ensures lines { LinesShow }
    ensures pages { PagesShow }
    ensures moves { MovesShow }
{}
