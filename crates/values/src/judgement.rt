// The judgement of one attribute value, for every catalogue set.
ghost use Rattle.std.specs.Prelude.{◌≡◌};
ghost use Rattle.rules.specs.Kept.{resolved};
ghost use Rattle.values.specs.Judged.{Judged};
ghost use Rattle.values.specs.declared.judgement.ValueFault.TheVariants.{NotInCatalogue};

use catalogues::{CatalogueSet, Finding, look_up};
use kinds::{admits, code};
use rules::Kind;

/// Why a value is refused.
#[derive(Clone, Copy)]
pub enum ValueFault {
    /// Its kind does not admit it.
    NotAdmitted,
    /// It is a code that its catalogue refuses, for what the catalogue found.
    NotInCatalogue(Finding),
}

impl From<Finding> for ValueFault {
    ghost from_gives = { λ e r. r ≡ NotInCatalogue e };

    fn from(finding: Finding) -> ValueFault {
        ValueFault::NotInCatalogue(finding)
    }
}

/// Judges the raw value of an attribute of a kind: the decimals of a code, nothing for another kind, or why it is refused.
pub fn judge<C: CatalogueSet>(set: &C, kind: Kind, raw: &[u8]) -> Result<Option<u8>, ValueFault>
    ensures { Judged (C.CatalogueSet.facts set.now) kind (resolved raw.now) result }
{
    match kind {
        Kind::Code(catalogue) => {
            let text = code(raw).ok_or(ValueFault::NotAdmitted)?;
            let decimals = look_up(set, catalogue, text)?;
            Ok(Some(decimals))
        }
        _ if admits(kind, raw) => Ok(None),
        _ => Err(ValueFault::NotAdmitted),
    }
}
