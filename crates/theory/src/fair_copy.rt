// The laws of the fair copy.
ghost use Rattle.theory.specs.FairCopy.{FairCopyReadsBack, FairCopyStaysLawful, FairCopyNeverLonger, FairCopyTellsValues, ExamplesPass};

/// The fair copy of a lawful document is well-marked, has the document's values and no others, and so has its cadena and is its own fair copy.
pub fn fair_copy_reads_back() -> bool
    ensures { FairCopyReadsBack }
{
    true
}

/// The fair copy of a document is lawful under every set under which the document is lawful.
pub fn fair_copy_stays_lawful() -> bool
    ensures { FairCopyStaysLawful }
{
    true
}

/// The fair copy of a lawful document is never longer than the document.
pub fn fair_copy_is_never_longer() -> bool
    ensures { FairCopyNeverLonger }
{
    true
}

/// Two lawful documents, each under a set of its own, have equal fair copies exactly when their values are equal, and then equal cadenas.
pub fn fair_copy_tells_values() -> bool
    ensures { FairCopyTellsValues }
{
    true
}

/// The worked examples are lawful under the ruled set, and their fair copies have their values.
pub fn examples_pass() -> bool
    ensures { ExamplesPass }
{
    true
}
