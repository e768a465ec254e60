// Runs of bytes of one class.
ghost use Rattle.std.specs.Prelude.{◌≡◌, ◌+◌, ◌≤◌, length, drop};
ghost use Rattle.rules.specs.Bytes.{all};
ghost use Rattle.std.specs.List.{prefix_len};

use crate::classes::ByteClass;

/// Where the bytes of a class end that stand from `at` on: `at` itself where none stands there, and past the end of the text.
pub fn skip<C: ByteClass + Copy>(class: C, text: &[u8], at: usize) -> usize
    ensures is { result ≡ at + prefix_len (C.holds class) (drop at text.now) }
    ensures within { at ≤ length text.now → result ≤ length text.now }
{
    let Some(rest) = text.get(at..) else {
        return at;
    };
    at + rest
        .iter()
        .position(|b| !class.has(*b))
        .unwrap_or(rest.len())
}

/// Whether every byte of a text is of a class.
pub fn all_of<C: ByteClass + Copy>(class: C, text: &[u8]) -> bool
    ensures { result ≡ all (C.holds class) text.now }
{
    text.iter().all(|b| class.has(*b))
}
