// The laws of catalogue sets.
ghost use Rattle.theory.specs.Catalogues.{KnowsWhatItHolds, SetsBounded, CatalogueTestExact, EveryCatalogueJudged};

/// The set of a catalogue text knows exactly the facts that the text holds.
pub fn set_knows_what_it_holds() -> bool
    ensures { KnowsWhatItHolds }
{
    true
}

/// The ruled set and the set of every catalogue text know decimals 0 to 6 alone.
pub fn sets_are_bounded() -> bool
    ensures { SetsBounded }
{
    true
}

/// The test of a catalogue text passes exactly when no fault is found in it.
pub fn catalogue_test_is_exact() -> bool
    ensures { CatalogueTestExact }
{
    true
}

/// Every catalogue text passes its test and has no fault, or has a first fault.
pub fn every_catalogue_is_judged() -> bool
    ensures { EveryCatalogueJudged }
{
    true
}
