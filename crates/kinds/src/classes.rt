// The bytes that seals and RFCs are made of, and the numbers that digits write.
ghost use Rattle.std.specs.Prelude.{◌≡◌, ◌^◌, ◌<◌, ◌≤◌, true, false, length, MatchOption};
ghost use Rattle.std.specs.Char.{is_ascii_digit};
ghost use Rattle.rules.specs.Bytes.{all};
ghost use Rattle.rules.specs.Kinds.{base64, rfc_mark, number, numeral_in as numeral_in_of};

use byte_classes::ByteClass;

// The bytes of a seal or a certificate.
#[derive(Clone, Copy)]
pub(crate) struct Base64;

// The marks that close an RFC.
#[derive(Clone, Copy)]
pub(crate) struct RfcMark;

impl ByteClass for Base64 {
    ghost holds = { λ _. base64 };

    fn has(&self, b: u8) -> bool {
        b.is_ascii_alphanumeric() || matches!(b, b'+' | b'/' | b'=')
    }
}

impl ByteClass for RfcMark {
    ghost holds = { λ _. rfc_mark };

    fn has(&self, b: u8) -> bool {
        b.is_ascii_uppercase() || b.is_ascii_digit()
    }
}

// The number that a text of digits writes.
pub(crate) fn numeral(text: &[u8]) -> Option<u64>
    requires { length text.now ≤ 10 }
    ensures { MatchOption result (all is_ascii_digit text.now ≡ false) (λ n. (all is_ascii_digit text.now ≡ true) × (n ≡ number text.now) × (n < 10 ^ length text.now)) }
{
    let mut n: u64 = 0;
    for b in text {
        if !b.is_ascii_digit() {
            return None;
        }
        n = 10 * n + u64::from(*b - b'0');
    }
    Some(n)
}

// The number that a text of digits writes, if it is from `low` to `high`.
pub(crate) fn numeral_in(text: &[u8], low: u64, high: u64) -> Option<u64>
    requires { length text.now ≤ 10 }
    ensures { MatchOption result (numeral_in_of low high text.now ≡ false) (λ n. (numeral_in_of low high text.now ≡ true) × (n ≡ number text.now)) }
{
    numeral(text).filter(|n| (low..=high).contains(n))
}
