// The cadena of a document alone, under a catalogue set.
ghost use Rattle.rules.specs.Texts.{cadena as cadena_of};
ghost use Rattle.texts.specs.Answered.{Answered};

use catalogues::CatalogueSet;
use invoice::check;
use original::send_cadena;
use rules::Fault;
use sinks::Sink;

/// Sends the cadena of a document to a sink: the first fault of the document and nothing sent, else as much of the cadena as the sink takes.
pub fn cadena<C: CatalogueSet, S: Sink>(document: &[u8], set: &C, sink: &mut S) -> Result<(), Fault>
    ensures { Answered S.Sink (C.CatalogueSet.facts set.now) document.now cadena_of sink.old result sink.new }
{
    check(document, set)?;
    send_cadena(document, sink)
}
