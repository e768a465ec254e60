// The cadena original of a document.
ghost use Rattle.std.specs.Prelude.{true, is_ok};
ghost use Rattle.rules.specs.Located.{elements_of};
ghost use Rattle.rules.specs.Markup.{Document, Marks};
ghost use Rattle.rules.specs.Texts.{cadena as cadena_of, fields as fields_of, joined};
ghost use Rattle.rules.specs.Values.{values_of};
ghost use Rattle.sinks.specs.Writers.{Written};
ghost use Rattle.walk.specs.Coming.{InOrder};
ghost use Rattle.original.specs.Texts.{CadenaOf};
ghost use Rattle.original.specs.Wrote.{WellNamed};

use crate::fields::Fields;
use sinks::{Refused, Text, Writer, send};

/// The cadena of a document whose nodes are in order and whose attributes have no fault in their names; of any other the bytes are not told.
#[derive(Clone, Copy)]
pub struct Cadena<'a>(pub &'a [u8]);

/// Writes the fields of a document's cadena.
fn write_fields<W: Writer>(document: &[u8], to: &mut W) -> Result<(), Refused>
    ensures { (m : Document) → Marks document.now m → InOrder document.now m → WellNamed m → Written W.Writer.writing to.old (joined (fields_of (λ k. true) (values_of (elements_of m)))) (is_ok result) to.new }
{
    Fields::new(document, to).all()
}

/// Writes the cadena of a document until a byte is refused. The document is one whose nodes are in order and whose attributes have no fault in their names; of any other the bytes are not told.
pub fn write<W: Writer>(document: &[u8], to: &mut W) -> Result<(), Refused>
    ensures { (m : Document) → Marks document.now m → InOrder document.now m → WellNamed m → Written W.Writer.writing to.old (cadena_of (values_of (elements_of m))) (is_ok result) to.new }
{
    send(to, b"||")?;
    write_fields(document, to)?;
    send(to, b"||")
}

impl<'a> Text for Cadena<'a> {
    ghost reads = { λ cadena text. CadenaOf cadena.0.now text };

    fn write<W: Writer>(&self, to: &mut W) -> Result<(), Refused> {
        write(self.0, to)
    }
}
