// The RFC of a taxpayer.
ghost use Rattle.std.specs.Prelude.{◌≡◌, ℕ, suc, ◌&&◌};
ghost use Rattle.rules.specs.Kept.{resolved, kept as kept_form};
ghost use Rattle.rules.specs.Kinds.{rfc_tail, rfc_after, admits};
ghost use Rattle.rules.specs.declared.schema.Kind.TheVariants.{Rfc};
ghost use Rattle.kinds.specs.Reading.{rest};

use crate::classes::{RfcMark, numeral_in};
use crate::kept::Kept;
use byte_classes::{Digit, all_of};

// A day as AAMMDD, two marks, and 0 to 9 or A.
fn is_tail(text: &[u8]) -> bool
    ensures { result ≡ rfc_tail text.now }
{
    text.len() == 9
        && all_of(Digit, &text[..2])
        && numeral_in(&text[2..4], 1, 12).is_some()
        && numeral_in(&text[4..6], 1, 31).is_some()
        && all_of(RfcMark, &text[6..8])
        && (text[8].is_ascii_digit() || text[8] == b'A')
}

// Whether what is left of a kept form is such nine characters.
fn is_tail_left(mut left: Kept) -> bool
    ensures { result ≡ rfc_tail (rest left.entry) }
{
    let mut bytes = [0; 9];
    for byte in &mut bytes {
        let Some(b) = left.next() else {
            return false;
        };
        *byte = b;
    }
    left.next().is_none() && is_tail(&bytes)
}

// Whether the next letter of an RFC is A to Z, & or Ñ, which is two bytes.
fn is_letter_next(left: &mut Kept) -> bool
    ensures { (n : ℕ) → rfc_after (suc n) (rest left.old) ≡ (result && rfc_after n (rest left.new)) }
{
    match left.next() {
        Some(b'&') => true,
        Some(0xC3) => left.next() == Some(0x91),
        Some(b) => b.is_ascii_uppercase(),
        None => false,
    }
}

// So many letters, and then the nine characters.
fn is_rfc_after(mut left: Kept, letters: usize) -> bool
    ensures { result ≡ rfc_after letters (rest left.entry) }
{
    for _ in 0..letters {
        if !is_letter_next(&mut left) {
            return false;
        }
    }
    is_tail_left(left)
}

// Three letters for a company or four for a person, and then the nine characters.
pub(crate) fn is_rfc(raw: &[u8]) -> bool
    ensures { result ≡ admits Rfc (kept_form (resolved raw.now)) }
{
    is_rfc_after(Kept::new(raw), 3) || is_rfc_after(Kept::new(raw), 4)
}
