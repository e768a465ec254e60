// The set of a catalogue text.
ghost use Rattle.std.specs.Prelude.{◌≡◌, length};
ghost use Rattle.std.specs.Option.{ForSome, ForNone};
ghost use Rattle.rules.specs.Catalogues.{CatalogueFinds, facts_of};
ghost use Rattle.rules.specs.declared.grounds.Fault.{Fault};
ghost use Rattle.theory.proofs.CatalogueLaws.{text_bounded};

use crate::index::Index;
use crate::lines::{decimals_of, line_from, name_of};
use crate::sets::CatalogueSet;
use rules::Catalogue;

// The most bytes of a code that stands in a catalogue text.
const LONGEST_CODE: usize = 10;

/// The set of a catalogue text: its facts, and none where it has a fault.
#[derive(Drop)]
pub struct CatalogueText<'a> {
    pub(crate) text: &'a [u8],
    // The index of the text, where it has no fault.
    index: Option<Index<'a>>,
    ghost whole: { ForSome index (λ i. (i.text.now ≡ text.now) × (i.at ≡ length text.now)) },
    ghost faulty: { ForNone index (((f : Fault) → CatalogueFinds text.now f → ⊥) → ⊥) },
}

impl<'a> CatalogueText<'a> {
    /// The set of a catalogue text, which is checked here.
    pub fn new(text: &'a [u8]) -> CatalogueText<'a>
        ensures { result.text.now ≡ text.now }
    {
        CatalogueText {
            text,
            index: Index::new(text).ok(),
        }
    }
}

impl CatalogueSet for CatalogueText<'_> {
    ghost facts = { λ s. facts_of s.text.now };

    ghost small = { λ s. text_bounded s.text.now };

    fn decimals(&self, catalogue: Catalogue, code: &[u8]) -> Option<u8> {
        if code.len() > LONGEST_CODE {
            return None;
        }
        let index = self.index.as_ref()?;
        let i = index.search(name_of(catalogue), code).ok()?;
        Some(decimals_of(line_from(self.text, index.places[i] as usize)))
    }
}
