// Codes of the catalogues, and the bytes that they are made of.
ghost use Rattle.std.specs.Prelude.{◌≡◌};
ghost use Rattle.std.specs.Char.{is_ascii_digit};
ghost use Rattle.rules.specs.Kinds.{alphanumeric, code_ok};

use crate::classes::ByteClass;
use crate::runs::all_of;

/// The ASCII digits.
#[derive(Clone, Copy, Debug)]
pub struct Digit;

/// The ASCII letters and digits.
#[derive(Clone, Copy, Debug)]
pub struct Alphanumeric;

impl ByteClass for Digit {
    ghost holds = { λ _. is_ascii_digit };

    fn has(&self, b: u8) -> bool {
        b.is_ascii_digit()
    }
}

impl ByteClass for Alphanumeric {
    ghost holds = { λ _. alphanumeric };

    fn has(&self, b: u8) -> bool {
        b.is_ascii_alphanumeric()
    }
}

/// Whether a text is a code: 1 to 10 ASCII letters or digits.
pub fn is_code(text: &[u8]) -> bool
    ensures { result ≡ code_ok text.now }
{
    matches!(text.len(), 1..=10) && all_of(Alphanumeric, text)
}
