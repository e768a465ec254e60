// The fair copy of a document, compared with stored text and written into memory.
ghost use Rattle.std.specs.Prelude.{◌≡◌, ℕ, ◌+◌, ◌^◌, ◌<◌, ◌≤◌, List, ◌++◌, length, Decides};
ghost use Rattle.rules.specs.Register.{four_bytes};
ghost use Rattle.register.specs.Copied.{CopyOf};

use fair::send_fair_copy;
use sinks::{Buffer, Matcher};

/// The bytes that tell the length of an entry.
pub(crate) const LENGTH_BYTES: usize = 4;

/// Whether a matcher of a text takes the fair copy of a document, and is then matched.
fn matches(document: &[u8], text: &[u8]) -> bool
    ensures { (c : List ℕ) → CopyOf document.now c → Decides result (text.now ≡ c) }
{
    let mut matcher = Matcher::new(text);
    send_fair_copy(document, &mut matcher).is_ok() && matcher.matched()
}

/// Whether the fair copy of a document, which has a length, is this text; no byte is compared where the lengths differ, and none after the first difference.
pub(crate) fn is_copy(document: &[u8], copy_length: usize, text: &[u8]) -> bool
    ensures { (c : List ℕ) → CopyOf document.now c → length c ≡ copy_length → Decides result (text.now ≡ c) }
{
    text.len() == copy_length && matches(document, text)
}

/// Writes the fair copy of a document into memory of just its length.
fn write_copy(document: &[u8], room: &mut [u8])
    ensures { (c : List ℕ) → CopyOf document.now c → length c ≡ length room.old → room.new ≡ c }
{
    let mut buffer = Buffer::new(room);
    let _ = send_fair_copy(document, &mut buffer);
}

/// Stores the fair copy of a document in memory of just its length and four bytes: the four bytes of the length, then the copy.
pub(crate) fn store(document: &[u8], room: &mut [u8])
    requires head { 4 ≤ length room.old }
    requires short { length room.old < 2 ^ 32 }
    ensures { (c : List ℕ) → CopyOf document.now c → length c + 4 ≡ length room.old → room.new ≡ four_bytes (length c) ++ c }
{
    let (head, body) = room.split_at_mut(LENGTH_BYTES);
    head.copy_from_slice(&(body.len() as u32).to_be_bytes());
    write_copy(document, body);
}
