ghost use Rattle.rm_formats.specs.ids.Apart.{AppTextsAreApart, AttemptTextsAreApart, ContainerTextsAreApart};

/// Two ids of one kind, in their ranges, have one text only where they are equal.
pub fn texts_are_apart()
    ensures apps { AppTextsAreApart }
    ensures attempts { AttemptTextsAreApart }
    ensures containers { ContainerTextsAreApart }
{}
