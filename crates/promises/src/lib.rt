// What a register promises after every list of calls: one function for each promise, whose answer says only that it holds.
#![tactic(auto)]

ghost use Rattle.promises.specs.RegisterLaws.{History, TwoEntries, ReadingOutFits, PassedExactly};

/// After every list of calls on a new register, granted or refused, for every memory, set and sink, by the history of calls alone:
///
/// - The register is open until it is closed, and closed until it is read out.
/// - Every call that is not refused before running has exactly one answer and leaves one register.
/// - A lawful document is turned away as already entered exactly when an entry has the same values, and is told that entry's number.
/// - Any other lawful document is entered under the next number, unless there are 256 entries, or its fair copy and four bytes exceed what is free.
/// - An unlawful document is answered by its first fault.
/// - Only lawful documents are entered, and an entering that is refused changes nothing.
/// - The number that an entering answers is that of its document, and keeps meaning that document whatever calls follow.
/// - An entry gives every sink the cadena, or the fair copy, of the document entered, up to the first byte that the sink refuses.
/// - Where there is no such entry, that is answered and the sink is not asked.
/// - The count is the number of documents entered.
/// - Reading out gives every sink the cadenas of all entries, in the order entered, each with a line feed, up to the first byte that the sink refuses.
/// - Two entries, of one register or of two, have equal fair copies exactly when their values are equal, and then equal cadenas.
/// - An entry's fair copy, brought to a new register of enough memory under the set that passed the document, is entered as 1, and that entry gives the same texts.
/// - The memory holds the fair copies of the entries from its first byte, at most 256 and within its room, and its other bytes as they were.
/// - A register just opened has no entry, whatever its memory holds.
pub fn every_run_keeps_its_promises() -> bool
    ensures { History }
{
    true
}

/// Two invoices with one cadena, of which one has Serie "A" alone and the other Folio "A" alone, become entries 1 and 2 of a register of at least 4,096 bytes.
pub fn two_entries_with_one_cadena() -> bool
    ensures { TwoEntries }
{
    true
}

/// The cadenas of all entries with their line feeds are together no longer than the register's room, whatever calls were made.
pub fn what_is_read_out_fits() -> bool
    ensures { ReadingOutFits }
{
    true
}

/// How many bytes of a text a sink lets pass is the longest beginning that its rule allows byte by byte, and no other number is.
pub fn what_passes_is_longest() -> bool
    ensures { PassedExactly }
{
    true
}
