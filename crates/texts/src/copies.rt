// The fair copy of a document alone, under a catalogue set, and its length.
ghost use Rattle.rules.specs.Texts.{fair_copy as fair_copy_of};
ghost use Rattle.texts.specs.Answered.{Answered, LengthAnswered, CopyLaw};

use catalogues::CatalogueSet;
use fair::send_fair_copy;
use invoice::check;
use rules::Fault;
use sinks::Sink;

/// Sends the fair copy of a document to a sink: the first fault of the document and nothing sent, else as much of the fair copy as the sink takes.
pub fn fair_copy<C: CatalogueSet, S: Sink>(
    document: &[u8],
    set: &C,
    sink: &mut S,
) -> Result<(), Fault>
    ensures answered { Answered S.Sink (C.CatalogueSet.facts set.now) document.now fair_copy_of sink.old result sink.new }
    ensures law { CopyLaw (C.CatalogueSet.facts set.now) document.now }
{
    check(document, set)?;
    send_fair_copy(document, sink)
}

/// How many bytes the fair copy of a document has, counted without writing it anywhere; or the first fault of the document.
pub fn fair_copy_length<C: CatalogueSet>(document: &[u8], set: &C) -> Result<usize, Fault>
    ensures { LengthAnswered (C.CatalogueSet.facts set.now) document.now result }
{
    check(document, set)?;
    Ok(fair::fair_copy_length(document))
}
