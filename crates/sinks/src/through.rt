// What writes to a sink and counts the bytes that it takes.
ghost use Rattle.std.specs.Prelude.{◌≡◌, ℕ, ◌^◌, ◌<◌, List, length, is_ok, if◌then◌else◌, Ok, Err};
ghost use Rattle.rules.specs.declared.grounds.Fault.TheVariants.{Stopped};
ghost use Rattle.sinks.specs.Counts.{through};
ghost use Rattle.sinks.specs.Sending.{SentTo};

use crate::sink::Sink;
use crate::text::{Bytes, Text};
use crate::writer::{Refused, Writer};
use rules::Fault;

/// Writes to a sink, and counts the bytes that it takes.
#[derive(Drop)]
pub struct Through<'a, S> {
    sink: &'a mut S,
    count: usize,
}

impl<'a, S: Sink> Through<'a, S> {
    /// A writer to a sink, of which no byte is counted yet.
    pub fn new(sink: &'a mut S) -> Through<'a, S>
        ensures none { result.count ≡ 0 }
        ensures sink { result.sink.now ≡ sink.old }
        ensures lent { result.sink.ghost_name ≡ sink.entry.ghost_name }
    {
        Through { sink, count: 0 }
    }

    /// How many bytes the sink took, or the largest number where they were more.
    pub fn count(&self) -> usize
        ensures { result ≡ self.now.count }
    {
        self.count
    }

    /// The answer of a call that wrote to the sink.
    pub fn answer(&self, written: Result<(), Refused>) -> Result<(), Fault>
        ensures { result ≡ (if is_ok written then Ok tt else Err (Stopped self.now.count)) }
    {
        written.or(Err(Fault::Stopped { taken: self.count }))
    }
}

impl<'a, S: Sink> Writer for Through<'a, S> {
    ghost writing = { through S.Sink };

    fn write(&mut self, byte: u8) -> Result<(), Refused> {
        if !self.sink.put(byte) {
            return Err(Refused);
        }
        self.count = self.count.saturating_add(1);
        Ok(())
    }
}

/// Sends a text to a sink until the sink refuses a byte.
pub fn send_text<T: Text, S: Sink>(text: &T, sink: &mut S) -> Result<(), Fault>
    ensures { (t : List ℕ) → T.Text.reads text.now t → length t < 2 ^ 64 → SentTo S.Sink sink.old t result sink.new }
{
    let mut to = Through::new(sink);
    let written = text.write(&mut to);
    to.answer(written)
}

/// Sends bytes to a sink until it refuses one.
pub fn send_to<S: Sink>(sink: &mut S, bytes: &[u8]) -> Result<(), Fault>
    ensures { SentTo S.Sink sink.old bytes.now result sink.new }
{
    send_text(&Bytes(bytes), sink)
}
