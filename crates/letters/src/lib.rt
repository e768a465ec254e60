// The letters of a document: at most 65,536 bytes of UTF-8, with characters that XML 1.0 allows.
#![tactic(auto)]

ghost use Rattle.std.specs.Prelude.{◌≡◌, ◌<◌, length, MatchResult};
ghost use Rattle.rules.specs.Faults.{Judgement, fault_of};
ghost use Rattle.rules.specs.Grounds.{LettersFault};
ghost use Rattle.rules.specs.Bytes.{all};
ghost use Rattle.rules.specs.Letters.{allowed, Spelled, SpelledUpTo};
ghost use Rattle.letters.specs.Plain.{plain_byte};

use rules::Fault;
use std::str::{from_utf8, from_utf8_unchecked};

/// The most bytes that a document may have.
pub const LIMIT: usize = 65_536;

fn is_allowed(c: char) -> bool
    ensures { result ≡ allowed c }
{
    matches!(c, '\t' | '\n' | '\r' | ' '..='\u{D7FF}' | '\u{E000}'..='\u{FFFD}' | '\u{10000}'..='\u{10FFFF}')
}

/// Whether only allowed characters begin with a byte.
fn is_plain(b: u8) -> bool
    ensures { result ≡ plain_byte b }
{
    matches!(b, b'\t' | b'\n' | b'\r' | b' '..=0xEE | 0xF0..)
}

/// Whether every byte is plain, without a stop at the first that is not, so that the compiler can take many at a time.
fn all_plain(bytes: &[u8]) -> bool
    ensures { result ≡ all plain_byte bytes.now }
{
    let mut plain = true;
    for b in bytes {
        plain &= is_plain(*b);
    }
    plain
}

/// Where the first character that is not allowed begins.
fn characters(text: &str) -> Result<(), usize>
    ensures { MatchResult result (λ _. Spelled text.now) (λ n. (n < length text.now) × SpelledUpTo text.now n) }
{
    if all_plain(text.as_bytes()) {
        return Ok(());
    }
    for (at, c) in text.char_indices() {
        if !is_allowed(c) {
            return Err(at);
        }
    }
    Ok(())
}

/// Where the whole allowed characters of the document end, if that is before its end.
fn spelled(document: &[u8]) -> Result<(), usize>
    ensures { MatchResult result (λ _. Spelled document.now) (λ n. (n < length document.now) × SpelledUpTo document.now n) }
{
    match from_utf8(document) {
        Ok(text) => characters(text),
        Err(e) => {
            let n = e.valid_up_to();
            let text = unsafe { from_utf8_unchecked(&document[..n]) };
            characters(text)?;
            Err(n)
        }
    }
}

/// Judges the letters of a document.
pub fn check(document: &[u8]) -> Result<(), Fault>
    ensures { Judgement (LettersFault document.now) (fault_of result) }
{
    if document.len() > LIMIT {
        return Err(Fault::TooLong);
    }
    spelled(document).map_err(|place| Fault::BadLetter { place })
}

#[cfg(test)]
mod tests;
