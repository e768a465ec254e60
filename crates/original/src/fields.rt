// The fields of a cadena, one after another with '|' between them.
ghost use Rattle.std.specs.Prelude.{◌≡◌, true, false, [], ◌∷◌, ◌++◌, None, is_ok, if◌then◌else◌};
ghost use Rattle.rules.specs.Kept.{resolved, kept};
ghost use Rattle.rules.specs.Texts.{field_if};
ghost use Rattle.sinks.specs.Writers.{Written};
ghost use Rattle.original.specs.Joined.{text_in};
ghost use Rattle.original.specs.Wrote.{owed, Wrote, Same};

use kinds::Kept;
use sinks::{Refused, Writer};
use tags::Span;

/// The fields of a document's cadena as they are written, with the places of the totals of the invoice's taxes that are still to be written.
#[derive(Drop)]
pub struct Fields<'a, 'd, W> {
    pub to: &'a mut W,
    pub document: &'d [u8],
    pub begun: bool,
    pub retained: Option<Span>,
    pub transferred: Option<Span>,
}

/// Writes the kept form of a raw value.
fn write_kept<W: Writer>(to: &mut W, raw: &[u8]) -> Result<(), Refused>
    ensures { Written W.Writer.writing to.old (kept (resolved raw.now)) (is_ok result) to.new }
{
    for byte in Kept::new(raw) {
        to.write(byte)?;
    }
    Ok(())
}

/// Writes one field: '|' unless it is the first, and the kept form of a raw value.
fn write_field<W: Writer>(to: &mut W, begun: bool, raw: &[u8]) -> Result<(), Refused>
    ensures { Written W.Writer.writing to.old ((if begun then 124 ∷ [] else []) ++ kept (resolved raw.now)) (is_ok result) to.new }
{
    if begun {
        to.write(b'|')?;
    }
    write_kept(to, raw)
}

impl<'a, 'd, W: Writer> Fields<'a, 'd, W> {
    /// The fields of a document's cadena, of which none is written.
    pub fn new(document: &'d [u8], to: &'a mut W) -> Fields<'a, 'd, W>
        ensures document { result.document.now ≡ document.now }
        ensures to { result.to.now ≡ to.old }
        ensures lent { result.to.ghost_name ≡ to.entry.ghost_name }
        ensures begun { result.begun ≡ false }
        ensures retained { result.retained ≡ None }
        ensures transferred { result.transferred ≡ None }
    {
        Fields {
            to,
            document,
            begun: false,
            retained: None,
            transferred: None,
        }
    }

    /// Writes the raw value at a place as a field, if there is one.
    pub fn field(&mut self, place: Option<Span>) -> Result<(), Refused>
        ensures wrote { Wrote W.Writer.writing self.old (field_if true (text_in self.old.document.now place)) (owed self.old) result self.new }
        ensures same { Same self.old self.new }
    {
        let Some(place) = place else {
            return Ok(());
        };
        write_field(self.to, self.begun, place.of(self.document))?;
        self.begun = true;
        Ok(())
    }
}
