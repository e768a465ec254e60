// The ends of tags and of elements, from any place on.
ghost use Rattle.std.specs.Prelude.{◌≡◌, ◌+◌, ◌<◌, ◌≤◌, false, length, drop};
ghost use Rattle.tags.specs.Scan.{through, ended};

use byte_classes::{Other, skip};

/// The place after the next `>` from `at` on: the document's length where there is none, and `at` itself past that.
pub fn after(document: &[u8], at: usize) -> usize
    ensures is { result ≡ at + through 62 (drop at document.now) }
    ensures within { at ≤ length document.now → result ≤ length document.now }
{
    let i = skip(Other(b'>'), document, at);
    if i < document.len() { i + 1 } else { i }
}

/// Whether no element begins at `at`, where no blank stands: an end tag stands there, or fewer than two bytes are left.
pub fn closing(document: &[u8], at: usize) -> bool
    ensures is { result ≡ ended (drop at document.now) }
    ensures open { result ≡ false → at + 1 < length document.now }
{
    match document.get(at..) {
        Some([_, next, ..]) => *next == b'/',
        _ => true,
    }
}
