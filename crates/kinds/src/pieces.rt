// The piece of a value that lies between the blanks at its ends.
ghost use Rattle.std.specs.Prelude.{◌≡◌, ℕ, ◌-◌, ◌<◌, ◌≤◌, true, false, length, slice_index};
ghost use Rattle.rules.specs.Bytes.{blank, all};
ghost use Rattle.rules.specs.Kept.{resolved, kept as kept_form};
ghost use Rattle.kinds.specs.Pieces.{trimmed, solid};

use byte_classes::{Blank, is_blank, skip};

// Where the blanks that a text ends with begin.
fn blanks_after(text: &[u8]) -> usize
    ensures within { result ≤ length text.now }
    ensures blanks { (k : ℕ) → result ≤ k → k < length text.now → blank (slice_index text.now k) ≡ true }
    ensures ended { 0 < result → blank (slice_index text.now (result - 1)) ≡ false }
{
    text.iter()
        .rposition(|b| !is_blank(*b))
        .map_or(0, |last| last + 1)
}

/// The value without the blanks at its ends: its kept form, where that has no blank and none of & < > " '.
pub fn piece(raw: &[u8]) -> &[u8]
    ensures part { result.now ≡ trimmed raw.now }
    ensures kept { all solid (kept_form (resolved raw.now)) ≡ true → result.now ≡ kept_form (resolved raw.now) }
{
    let rest = &raw[skip(Blank, raw, 0)..];
    &rest[..blanks_after(rest)]
}
