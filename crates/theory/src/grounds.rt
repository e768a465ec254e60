// The laws of verdicts.
ghost use Rattle.theory.specs.Grounds.{OneVerdictAtMost, OneCatalogueFirst, LayersDecided};

/// A document is never both lawful and at fault, has one first fault at most, and so allows one answer.
pub fn one_verdict_at_most() -> bool
    ensures { OneVerdictAtMost }
{
    true
}

/// A catalogue text has one first fault at most.
pub fn one_catalogue_first() -> bool
    ensures { OneCatalogueFirst }
{
    true
}

/// Letters, tree and accounts of every document, and names and values of every node, have no fault or a first one.
pub fn layers_are_decided() -> bool
    ensures { LayersDecided }
{
    true
}
