// Values that are fixed to the letter, and texts of so many characters.
ghost use Rattle.std.specs.Prelude.{◌≡◌};
ghost use Rattle.rules.specs.Bytes.{same};
ghost use Rattle.rules.specs.Kinds.{admits};
ghost use Rattle.rules.specs.declared.schema.Kind.TheVariants.{Text};
ghost use Rattle.kinds.specs.Characters.{to_come as to_come_of};
ghost use Rattle.kinds.specs.Reading.{rest};

use crate::kept::Kept;

// Whether what is left of a kept form is just a text.
pub(crate) fn is_same(left: Kept, text: &[u8]) -> bool
    ensures { result ≡ same (rest left.entry) text.now }
{
    left.eq(text.iter().copied())
}

// How many bytes of a character follow `b`, where `more` were to come before it.
fn to_come(more: u8, b: u8) -> u8
    ensures { result ≡ to_come_of more b }
{
    if more > 0 {
        more - 1
    } else if b < 0x80 {
        0
    } else if b < 0xE0 {
        1
    } else if b < 0xF0 {
        2
    } else {
        3
    }
}

// One to so many characters, none of them '|'.
pub(crate) fn is_text(left: Kept, most: u16) -> bool
    ensures { result ≡ admits (Text most) (rest left.entry) }
{
    let mut count: u16 = 0;
    let mut more = 0;
    for b in left {
        if b == b'|' {
            return false;
        }
        more = to_come(more, b);
        if more == 0 {
            if count >= most {
                return false;
            }
            count += 1;
        }
    }
    count > 0
}
