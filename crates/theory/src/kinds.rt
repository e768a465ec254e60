// The laws of kinds and of kept forms.
ghost use Rattle.theory.specs.Kinds.{EveryKindLawful, KeptFormsTidy};

/// Of every kind and text: it is admitted exactly when its kept form is, keeping twice is keeping once, and an admitted kept form has no `|`.
pub fn every_kind_is_lawful() -> bool
    ensures { EveryKindLawful }
{
    true
}

/// A kept form has no tab or line end, no blank beside another and none at an end, and a text is its own kept form exactly when it is so.
pub fn kept_forms_are_tidy() -> bool
    ensures { KeptFormsTidy }
{
    true
}
