// The laws of markup, one function for each: the answer says only that the law holds.
ghost use Rattle.theory.specs.Grounds.{EveryVerdict};
ghost use Rattle.markup.specs.Laws.{MarkupDecided, BeginningsLaw};

/// Every text is well marked, or it is not and has exactly one place at which it is refused.
pub fn markup_is_decided() -> bool
    ensures { MarkupDecided }
{
    true
}

/// The beginnings of well-marked texts: the empty text, every beginning of one, and no text in doubt.
pub fn beginnings_are_decided() -> bool
    ensures { BeginningsLaw }
{
    true
}

/// Every list of bytes has its verdict under every set: it is lawful, with one set of values, or has one first fault.
pub fn every_document_has_its_verdict() -> bool
    ensures { EveryVerdict }
{
    true
}
