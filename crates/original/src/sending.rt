// The cadena of a document, sent to a sink.
ghost use Rattle.std.specs.Prelude.{◌^◌, ◌<◌, length};
ghost use Rattle.rules.specs.Located.{elements_of};
ghost use Rattle.rules.specs.Markup.{Document, Marks};
ghost use Rattle.rules.specs.Texts.{cadena as cadena_of};
ghost use Rattle.rules.specs.Values.{values_of};
ghost use Rattle.sinks.specs.Sending.{SentTo};
ghost use Rattle.walk.specs.Coming.{InOrder};
ghost use Rattle.original.specs.Wrote.{WellNamed};

use crate::cadena::Cadena;
use rules::Fault;
use sinks::{Sink, send_text};

/// Sends the cadena of a document to a sink. The document is one whose nodes are in order and whose attributes have no fault in their names; of any other the bytes are not told.
pub fn send_cadena<S: Sink>(document: &[u8], sink: &mut S) -> Result<(), Fault>
    ensures { (m : Document) → Marks document.now m → InOrder document.now m → WellNamed m → length (cadena_of (values_of (elements_of m))) < 2 ^ 64 → SentTo S.Sink sink.old (cadena_of (values_of (elements_of m))) result sink.new }
{
    send_text(&Cadena(document), sink)
}
