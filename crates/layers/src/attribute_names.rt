// The names of the attributes of a document.
ghost use Rattle.std.specs.Prelude.{◌≡◌};
ghost use Rattle.rules.specs.Faults.{Judgement, fault_of};
ghost use Rattle.rules.specs.Grounds.{NamesFault};
ghost use Rattle.rules.specs.Markup.{Document, Marks};
ghost use Rattle.walk.specs.Events.{Occurrence, told, Found};
ghost use Rattle.walk.specs.Coming.{InOrder};
ghost use Rattle.layers.specs.Found.{NamesFound};
ghost use Rattle.layers.specs.Meeting.{Met, Starts};

use reader::attributes;
use rules::Fault;
use walk::{Event, Walk};

/// Judges the names of the attributes of the node that an event opens.
fn node_names(document: &[u8], event: Event) -> Result<(), Fault>
    ensures { (o : Occurrence) → event ≡ told o → Found document.now o → Starts o → Judgement (Met NamesFault o) (fault_of result) }
{
    if let Some(opened) = event.opened() {
        attributes(document, opened.place, opened.attributes, opened.node)?;
    }
    Ok(())
}

/// Judges the names of the attributes of a document, where its tree is in order: the first attribute that is refused or missing.
pub fn names(document: &[u8]) -> Result<(), Fault>
    ensures { (m : Document) → Marks document.now m → InOrder document.now m → Judgement (NamesFound m) (fault_of result) }
{
    for event in Walk::new(document) {
        node_names(document, event)?;
    }
    Ok(())
}
