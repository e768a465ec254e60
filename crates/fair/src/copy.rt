// The fair copy of a document, node by node.
ghost use Rattle.std.specs.Prelude.{◌≡◌, ◌<◌, List, is_ok};
ghost use Rattle.rules.specs.Located.{Given, elements_of};
ghost use Rattle.rules.specs.Markup.{Document, Marks};
ghost use Rattle.rules.specs.Texts.{fair_copy};
ghost use Rattle.rules.specs.Values.{values_of};
ghost use Rattle.reader.specs.Slots.{standing_of};
ghost use Rattle.walk.specs.Coming.{InOrder};
ghost use Rattle.walk.specs.Events.{Occurrence, told, Tagged, Found};
ghost use Rattle.sinks.specs.Writers.{Written};
ghost use Rattle.fair.specs.Texts.{FairCopyOf};
ghost use Rattle.fair.specs.Copy.{WellNamed, AllNamed, start_text, end_text, occurrence_text, opens_childless, Fine};

use crate::rows::write_attributes;
use reader::lent_slots;
use rules::Node;
use schema::tag;
use sinks::{Refused, Text, Writer, send};
use walk::{Event, Opened, Walk};

/// The fair copy of a document whose nodes are in order and whose attributes have lawful names; of any other the bytes are not told.
#[derive(Clone, Copy)]
pub struct FairCopy<'a>(pub &'a [u8]);

/// Writes the start tag of a node, which is its only tag where it is childless; a node whose names are not lawful is refused.
fn write_start<W: Writer>(to: &mut W, document: &[u8], opened: Opened) -> Result<(), Refused>
    ensures { (gs : List Given) → Tagged document.now opened.attributes gs → opened.place < opened.attributes → WellNamed (standing_of opened.node opened.place gs) → Written W.Writer.writing to.old (start_text opened.node gs opened.childless) (is_ok result) to.new }
{
    let Ok(slots) = lent_slots(document, &opened) else {
        return Err(Refused);
    };
    to.write(b'<')?;
    send(to, tag(opened.node))?;
    write_attributes(to, opened.node, &slots)?;
    if opened.childless {
        return send(to, b"/>");
    }
    to.write(b'>')
}

/// Writes the end tag of a node.
fn write_end<W: Writer>(to: &mut W, node: Node) -> Result<(), Refused>
    ensures { Written W.Writer.writing to.old (end_text node) (is_ok result) to.new }
{
    send(to, b"</")?;
    send(to, tag(node))?;
    to.write(b'>')
}

/// Writes what an event gives to the copy, where the event before it opened a childless node or not.
fn write_event<W: Writer>(
    to: &mut W,
    document: &[u8],
    event: Event,
    childless: bool,
) -> Result<(), Refused>
    ensures { (o : Occurrence) → event ≡ told o → Found document.now o → Fine o → Written W.Writer.writing to.old (occurrence_text childless o) (is_ok result) to.new }
{
    match event {
        Event::Opened(opened) => write_start(to, document, opened),
        Event::Closed(_) if childless => Ok(()),
        Event::Closed(node) => write_end(to, node),
    }
}

/// Whether an event opens a childless node.
fn is_childless(event: Event) -> bool
    ensures { (o : Occurrence) → event ≡ told o → result ≡ opens_childless o }
{
    event.opened().is_some_and(|opened| opened.childless)
}

/// Writes the fair copy of a document whose nodes are in order and whose attributes have lawful names, until a byte is refused.
pub fn write<W: Writer>(document: &[u8], to: &mut W) -> Result<(), Refused>
    ensures { (m : Document) → Marks document.now m → InOrder document.now m → AllNamed m → Written W.Writer.writing to.old (fair_copy (values_of (elements_of m))) (is_ok result) to.new }
{
    let mut childless = false;
    for event in Walk::new(document) {
        write_event(to, document, event, childless)?;
        childless = is_childless(event);
    }
    Ok(())
}

impl<'a> Text for FairCopy<'a> {
    ghost reads = { λ copy text. FairCopyOf copy.0.now text };

    fn write<W: Writer>(&self, to: &mut W) -> Result<(), Refused> {
        write(self.0, to)
    }
}
