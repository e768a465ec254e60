// The check of a catalogue text.
ghost use Rattle.rules.specs.Faults.{Judgement, fault_of};
ghost use Rattle.rules.specs.Catalogues.{CatalogueFinds};

use crate::index::Index;
use rules::Fault;

/// Whether a catalogue text is in order; if not, its first fault.
pub fn check(text: &[u8]) -> Result<(), Fault>
    ensures { Judgement (CatalogueFinds text.now) (fault_of result) }
{
    Index::new(text)?;
    Ok(())
}
