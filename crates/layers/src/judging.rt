// The layers up to values, one after the other.
ghost use Rattle.layers.specs.Layers.{LayersJudged, EarlyFault};

use crate::attribute_names::names;
use crate::attribute_values::values;
use catalogues::CatalogueSet;
use reader::tree;
use rules::Fault;

/// Judges letters, markup, tree, names and values: the first fault of the document, or the decimals that the set has for its Moneda.
pub fn judge_layers<C: CatalogueSet>(document: &[u8], set: &C) -> Result<u8, Fault>
    ensures judged { LayersJudged (C.CatalogueSet.facts set.now) document.now result }
    ensures early { EarlyFault result }
{
    letters::check(document)?;
    markup::check(document)?;
    tree(document)?;
    names(document)?;
    values(document, set)
}
