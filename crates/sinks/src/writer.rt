// What texts are written to: a sink, or what only counts them.
ghost use Rattle.std.specs.Prelude.{ℕ, List, [], ◌∷◌, is_ok};
ghost use Rattle.sinks.specs.Writers.{Writing, Written};

/// A byte was refused.
#[derive(Clone, Copy, Debug, PartialEq, Eq)]
pub struct Refused;

/// What a text is written to byte by byte, until a byte is refused.
pub trait Writer {
    // which bytes it allows, and how it is after a text
    ghost writing: { Writing Self };

    /// Writes one byte.
    fn write(&mut self, byte: u8) -> Result<(), Refused>
        ensures { Written writing self.old (byte ∷ []) (is_ok result) self.new };
}

/// Writes bytes one after another until one is refused.
pub fn send<W: Writer>(to: &mut W, bytes: &[u8]) -> Result<(), Refused>
    ensures { Written W.Writer.writing to.old bytes.now (is_ok result) to.new }
{
    for byte in bytes {
        to.write(*byte)?;
    }
    Ok(())
}
