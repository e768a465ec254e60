// The laws of the shape of a document.
ghost use Rattle.theory.specs.Shape.{LawfulHasShape, FairCopyKeepsShape};

/// A document that is lawful under some set has its shape.
pub fn lawful_has_shape() -> bool
    ensures { LawfulHasShape }
{
    true
}

/// The fair copy of a document that has its shape reads back to the document's values and no others, has its shape too, and is never longer than the document.
pub fn fair_copy_keeps_shape() -> bool
    ensures { FairCopyKeepsShape }
{
    true
}
