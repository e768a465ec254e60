// What each node of a document gives to its cadena.
ghost use Rattle.std.specs.Prelude.{◌≡◌, true, List, map, length, drop, is_ok};
ghost use Rattle.rules.specs.Grounds.{rows as rows_of};
ghost use Rattle.rules.specs.Located.{Given, elements_of};
ghost use Rattle.rules.specs.Markup.{Document, Marks};
ghost use Rattle.rules.specs.Schema.{attributes as attributes_of, namespaces as namespaces_of};
ghost use Rattle.rules.specs.Texts.{fields as fields_of, field_if, own_fields};
ghost use Rattle.rules.specs.Values.{values_of};
ghost use Rattle.reader.specs.Slots.{Filled};
ghost use Rattle.sinks.specs.Writers.{Written};
ghost use Rattle.walk.specs.Coming.{InOrder};
ghost use Rattle.walk.specs.Events.{Occurrence, told};
ghost use Rattle.original.specs.Joined.{joined_on, text_in};
ghost use Rattle.original.specs.Totals.{no_totals, Sound, SoundAt, opened_fields, opened_totals, closed_fields, closed_totals, met_fields, met_totals};
ghost use Rattle.original.specs.Wrote.{owed, Wrote, Same, WellNamed};

use crate::fields::Fields;
use reader::{LentSlots, lent_slots};
use rules::Node;
use schema::row_numbers::impuestos;
use schema::{Row, rows};
use sinks::{Refused, Writer};
use tags::Span;
use walk::{Event, Opened, Walk};

/// How many rows of a node fix its namespaces, which stand before its other rows.
fn namespaces(node: Node) -> usize
    ensures { result ≡ length (namespaces_of node) }
{
    match node {
        Node::Comprobante => 3,
        _ => 0,
    }
}

/// Where the attributes of a node stand; nowhere, if there is a fault in their names.
fn slots_of<'d>(document: &'d [u8], found: &Opened) -> LentSlots<'d>
    ensures { (gs : List Given) → Sound document.now found.now.node found.now.place found.now.attributes gs → Filled document.now (rows_of found.now.node) gs result.spans }
{
    match lent_slots(document, found) {
        Ok(slots) => slots,
        Err(_) => LentSlots {
            document,
            spans: [None; 22],
        },
    }
}

impl<'a, 'd, W: Writer> Fields<'a, 'd, W> {
    /// Writes what the slot of a row holds, if the row is part of the cadena.
    fn row(&mut self, row: Row, slot: Option<Span>) -> Result<(), Refused>
        ensures wrote { Wrote W.Writer.writing self.old (field_if row.in_cadena (text_in self.old.document.now slot)) (owed self.old) result self.new }
        ensures same { Same self.old self.new }
    {
        if row.in_cadena {
            return self.field(slot);
        }
        Ok(())
    }

    /// Writes the attributes of a node that are part of the cadena, in table order.
    fn own(&mut self, node: Node, slots: &LentSlots) -> Result<(), Refused>
        ensures wrote { Wrote W.Writer.writing self.old (own_fields (attributes_of node) (map (text_in self.old.document.now) (drop (length (namespaces_of node)) slots.now.spans))) (owed self.old) result self.new }
        ensures same { Same self.old self.new }
    {
        for (row, slot) in rows(node).iter().zip(&slots.spans).skip(namespaces(node)) {
            self.row(*row, *slot)?;
        }
        Ok(())
    }

    /// Writes what a node gives where it is opened. The totals of the invoice's taxes are only noted, and that of the retained taxes is written before the transferred ones.
    fn opened(&mut self, found: Opened) -> Result<(), Refused>
        ensures wrote { (gs : List Given) → Sound self.old.document.now found.node found.place found.attributes gs → Wrote W.Writer.writing self.old (opened_fields (owed self.old) found.node gs) (opened_totals (owed self.old) found.node gs) result self.new }
        ensures same { Same self.old self.new }
    {
        let slots = slots_of(self.document, &found);
        match found.node {
            Node::Impuestos => {
                self.retained = slots.span(impuestos::TOTAL_RETENIDOS);
                self.transferred = slots.span(impuestos::TOTAL_TRASLADADOS);
                Ok(())
            }
            Node::Traslados => {
                let retained = self.retained.take();
                self.field(retained)
            }
            _ => self.own(found.node, &slots),
        }
    }

    /// Writes what a node gives where it is closed: the invoice's taxes give the totals that are not written yet.
    fn closed(&mut self, node: Node) -> Result<(), Refused>
        ensures wrote { Wrote W.Writer.writing self.old (closed_fields (owed self.old) node) (closed_totals (owed self.old) node) result self.new }
        ensures same { Same self.old self.new }
    {
        match node {
            Node::Impuestos => {
                let retained = self.retained.take();
                let transferred = self.transferred.take();
                self.field(retained)?;
                self.field(transferred)
            }
            _ => Ok(()),
        }
    }

    /// Writes what a node gives where it is opened or closed.
    fn event(&mut self, event: Event) -> Result<(), Refused>
        ensures wrote { (o : Occurrence) → event ≡ told o → SoundAt self.old.document.now o → Wrote W.Writer.writing self.old (met_fields (owed self.old) o) (met_totals (owed self.old) o) result self.new }
        ensures same { Same self.old self.new }
    {
        match event {
            Event::Opened(found) => self.opened(found),
            Event::Closed(node) => self.closed(node),
        }
    }

    /// Writes the fields of the whole document.
    pub fn all(&mut self) -> Result<(), Refused>
        ensures wrote { (m : Document) → Marks self.old.document.now m → InOrder self.old.document.now m → WellNamed m → owed self.old ≡ no_totals → Written W.Writer.writing self.old.to.now (joined_on self.old.begun (fields_of (λ k. true) (values_of (elements_of m)))) (is_ok result) self.new.to.now }
        ensures same { Same self.old self.new }
    {
        for event in Walk::new(self.document) {
            self.event(event)?;
        }
        Ok(())
    }
}
