// The laws of reading a text.
ghost use Rattle.theory.specs.Readings.{OneReadingAtMost, EscapesResolved};

/// A text has one tree of markup at most, so its elements have one place each, and it has one set of values.
pub fn one_reading_at_most() -> bool
    ensures { OneReadingAtMost }
{
    true
}

/// A value as it is written, with each escape resolved, is the text that its pieces mean.
pub fn escapes_are_resolved() -> bool
    ensures { EscapesResolved }
{
    true
}
