// The shape of a document, which asks no catalogue.
ghost use Rattle.rules.specs.Faults.{Judgement, fault_of};
ghost use Rattle.rules.specs.Grounds.{ShapeFinds};
ghost use Rattle.theory.specs.Shape.{every_code};
ghost use Rattle.theory.proofs.ShapeLaws.{every_code_bounded};

use crate::judging::judge_layers;
use catalogues::CatalogueSet;
use rules::{Catalogue, Fault};

/// The set that knows every code, without decimals.
struct EveryCode;

impl CatalogueSet for EveryCode {
    ghost facts = { λ _. every_code };

    ghost small = { λ _. every_code_bounded };

    fn decimals(&self, _catalogue: Catalogue, _code: &[u8]) -> Option<u8> {
        Some(0)
    }
}

/// Judges the shape of a document: letters, markup, tree and names, and each value by its kind alone.
pub fn judge_shape(document: &[u8]) -> Result<(), Fault>
    ensures judged { Judgement (ShapeFinds document.now) (fault_of result) }
{
    judge_layers(document, &EveryCode)?;
    Ok(())
}
