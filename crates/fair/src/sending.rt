// The fair copy of a document, sent to a sink, and its length, counted without writing it anywhere.
ghost use Rattle.std.specs.Prelude.{◌≡◌, ◌^◌, ◌<◌, length};
ghost use Rattle.rules.specs.Located.{elements_of};
ghost use Rattle.rules.specs.Markup.{Document, Marks};
ghost use Rattle.rules.specs.Texts.{fair_copy};
ghost use Rattle.rules.specs.Values.{values_of};
ghost use Rattle.sinks.specs.Sending.{SentTo};
ghost use Rattle.walk.specs.Coming.{InOrder};
ghost use Rattle.fair.specs.Copy.{AllNamed};

use crate::copy::FairCopy;
use rules::Fault;
use sinks::{Sink, send_text, text_length};

/// Sends the fair copy of a document to a sink. The document is one whose nodes are in order and whose attributes have lawful names; of any other the bytes are not told.
pub fn send_fair_copy<S: Sink>(document: &[u8], sink: &mut S) -> Result<(), Fault>
    ensures { (m : Document) → Marks document.now m → InOrder document.now m → AllNamed m → length (fair_copy (values_of (elements_of m))) < 2 ^ 64 → SentTo S.Sink sink.old (fair_copy (values_of (elements_of m))) result sink.new }
{
    send_text(&FairCopy(document), sink)
}

/// How many bytes the fair copy of such a document has.
pub fn fair_copy_length(document: &[u8]) -> usize
    ensures { (m : Document) → Marks document.now m → InOrder document.now m → AllNamed m → length (fair_copy (values_of (elements_of m))) < 2 ^ 64 → result ≡ length (fair_copy (values_of (elements_of m))) }
{
    text_length(&FairCopy(document))
}
