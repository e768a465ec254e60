// What a catalogue set finds of a code.
ghost use Rattle.std.specs.Prelude.{◌≡◌};
ghost use Rattle.catalogues.specs.Found.{found_by, Small};

use crate::sets::CatalogueSet;
use rules::Catalogue;

/// Why a code is refused by a catalogue.
#[derive(Clone, Copy, Debug, PartialEq, Eq)]
pub enum Finding {
    /// The catalogue has no such code.
    Unknown,
}

/// The decimals of a code, or why the catalogue refuses it.
pub fn look_up<C: CatalogueSet>(set: &C, catalogue: Catalogue, code: &[u8]) -> Result<u8, Finding>
    ensures found { result ≡ found_by (C.CatalogueSet.facts set.now catalogue code.now) }
    ensures small { Small result }
{
    set.decimals(catalogue, code).ok_or(Finding::Unknown)
}
