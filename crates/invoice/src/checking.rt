// The check of a document under a catalogue set.
ghost use Rattle.std.specs.Prelude.{IfOk};
ghost use Rattle.rules.specs.Faults.{Judgement, fault_of};
ghost use Rattle.rules.specs.Grounds.{Finds};
ghost use Rattle.invoice.specs.Checks.{Passes};

use accounts::{Summary, accounts};
use catalogues::CatalogueSet;
use layers::judge_layers;
use rules::Fault;

/// Judges a document under a set: its first fault, or, where it is lawful, its date, type and currency and its totals.
pub fn check<C: CatalogueSet>(document: &[u8], set: &C) -> Result<Summary, Fault>
    ensures judged { Judgement (Finds (C.CatalogueSet.facts set.now) document.now) (fault_of result) }
    ensures passes { IfOk result (Passes (C.CatalogueSet.facts set.now) document.now) }
{
    let decimals = judge_layers(document, set)?;
    accounts(document, decimals)
}
