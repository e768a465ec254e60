// Values of ASCII letters and digits: codes, marks, digits and seals.
ghost use Rattle.std.specs.Prelude.{◌≡◌, true, false, MatchOption};
ghost use Rattle.rules.specs.Kept.{resolved, kept as kept_form};
ghost use Rattle.rules.specs.Kinds.{code_ok, admits};
ghost use Rattle.rules.specs.declared.schema.Kind.TheVariants.{Digits, Mark, Seal};

use crate::classes::Base64;
use crate::pieces::piece;
use byte_classes::{Alphanumeric, Digit, all_of, is_code};

/// The code that a value is, as it stands in the value.
pub fn code(raw: &[u8]) -> Option<&[u8]>
    ensures { MatchOption result (code_ok (kept_form (resolved raw.now)) ≡ false) (λ s. (code_ok (kept_form (resolved raw.now)) ≡ true) × (s.now ≡ kept_form (resolved raw.now))) }
{
    let text = piece(raw);
    is_code(text).then_some(text)
}

// So many digits.
pub(crate) fn is_digits(text: &[u8], count: u8) -> bool
    ensures { result ≡ admits (Digits count) text.now }
{
    text.len() == count as usize && all_of(Digit, text)
}

// Five ASCII letters or digits.
pub(crate) fn is_mark(text: &[u8]) -> bool
    ensures { result ≡ admits Mark text.now }
{
    text.len() == 5 && all_of(Alphanumeric, text)
}

// Bytes of base 64, perhaps none.
pub(crate) fn is_seal(text: &[u8]) -> bool
    ensures { result ≡ admits Seal text.now }
{
    all_of(Base64, text)
}
