// Which values each kind admits.
ghost use Rattle.std.specs.Prelude.{◌≡◌};
ghost use Rattle.rules.specs.Kept.{resolved};
ghost use Rattle.rules.specs.Kinds.{admitted, KindLaw};
ghost use Rattle.rules.specs.declared.schema.Kind.TheVariants.{Positive};

use crate::amounts::amount;
use crate::codes::{is_digits, is_mark, is_seal};
use crate::dates::is_date_time;
use crate::kept::Kept;
use crate::pieces::piece;
use crate::rfcs::is_rfc;
use crate::texts::{is_same, is_text};
use byte_classes::is_code;
use rules::Kind;

// Whether a value is an amount above zero.
fn is_positive(raw: &[u8]) -> bool
    ensures { result ≡ admitted Positive (resolved raw.now) }
{
    amount(raw).is_some_and(|a| a.millionths() > 0)
}

/// Whether a kind admits the value that stands between the quotes of an attribute.
pub fn admits(kind: Kind, raw: &[u8]) -> bool
    ensures value { result ≡ admitted kind (resolved raw.now) }
    ensures law { KindLaw kind (resolved raw.now) }
{
    match kind {
        Kind::Fixed(text) => is_same(Kept::new(raw), text.text()),
        Kind::Text(most) => is_text(Kept::new(raw), most),
        Kind::Amount => amount(raw).is_some(),
        Kind::Positive => is_positive(raw),
        Kind::DateTime => is_date_time(piece(raw)),
        Kind::Digits(count) => is_digits(piece(raw), count),
        Kind::Mark => is_mark(piece(raw)),
        Kind::Rfc => is_rfc(raw),
        Kind::Seal => is_seal(piece(raw)),
        Kind::Code(_) => is_code(piece(raw)),
    }
}
