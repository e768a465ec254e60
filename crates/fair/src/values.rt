// The attributes of the fair copy.
ghost use Rattle.std.specs.Prelude.{is_ok};
ghost use Rattle.rules.specs.Kept.{resolved, kept as kept_form};
ghost use Rattle.rules.specs.Markup.{piece_text, pieces_text, attribute_text};
ghost use Rattle.rules.specs.Texts.{piece, pieces, fair_attribute};
ghost use Rattle.kinds.specs.Reading.{rest};
ghost use Rattle.sinks.specs.Writers.{Written};

use kinds::Kept;
use sinks::{Refused, Writer, send};

/// Writes a byte of a value: each of the five characters by its escape.
fn write_byte<W: Writer>(to: &mut W, byte: u8) -> Result<(), Refused>
    ensures { Written W.Writer.writing to.old (piece_text (piece byte)) (is_ok result) to.new }
{
    match byte {
        b'&' => send(to, b"&amp;"),
        b'<' => send(to, b"&lt;"),
        b'>' => send(to, b"&gt;"),
        b'"' => send(to, b"&quot;"),
        b'\'' => send(to, b"&apos;"),
        _ => to.write(byte),
    }
}

/// Writes what is left of a kept form.
fn write_kept<W: Writer>(to: &mut W, left: Kept) -> Result<(), Refused>
    ensures { Written W.Writer.writing to.old (pieces_text (pieces (rest left.entry))) (is_ok result) to.new }
{
    for byte in left {
        write_byte(to, byte)?;
    }
    Ok(())
}

/// Writes an attribute: a space, its name, and the kept form of its raw value between double quotes.
pub fn write_attribute<W: Writer>(to: &mut W, name: &[u8], raw: &[u8]) -> Result<(), Refused>
    ensures { Written W.Writer.writing to.old (attribute_text (fair_attribute name.now (kept_form (resolved raw.now)))) (is_ok result) to.new }
{
    to.write(b' ')?;
    send(to, name)?;
    send(to, b"=\"")?;
    write_kept(to, Kept::new(raw))?;
    to.write(b'"')
}
