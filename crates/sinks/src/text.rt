// Texts: what can be written to any writer.
ghost use Rattle.std.specs.Prelude.{◌≡◌, ℕ, ◌^◌, ◌<◌, List, length, is_ok};
ghost use Rattle.sinks.specs.Writers.{Written};

use crate::counter::Counter;
use crate::writer::{Refused, Writer, send};

/// What can be written byte by byte.
pub trait Text {
    // which bytes the text is, as far as that is known
    ghost reads: { Self → List ℕ → Type 0 };

    /// Writes the text until a byte is refused.
    fn write<W: Writer>(&self, to: &mut W) -> Result<(), Refused>
        ensures { (text : List ℕ) → reads self.now text → Written W.Writer.writing to.old text (is_ok result) to.new };
}

/// The text that is just these bytes.
#[derive(Clone, Copy)]
pub struct Bytes<'a>(pub &'a [u8]);

impl<'a> Text for Bytes<'a> {
    ghost reads = { λ b text. text ≡ b.0.now };

    fn write<W: Writer>(&self, to: &mut W) -> Result<(), Refused> {
        send(to, self.0)
    }
}

/// How many bytes a text has, counted without writing it anywhere.
pub fn text_length<T: Text>(text: &T) -> usize
    ensures { (t : List ℕ) → T.Text.reads text.now t → length t < 2 ^ 64 → result ≡ length t }
{
    let mut counter = Counter::new();
    let _ = text.write(&mut counter);
    counter.count()
}
