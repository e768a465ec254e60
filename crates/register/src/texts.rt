// The texts of entries, one after another in memory, and their cadenas as one text.
ghost use Rattle.std.specs.Prelude.{◌≡◌, length, take};
ghost use Rattle.std.specs.Iterator.{YieldsFirstRef, item_count};
ghost use Rattle.rules.specs.Register.{packed};
ghost use Rattle.promises.specs.Stored.{decoded, AllCopies};
ghost use Rattle.register.specs.Cadenas.{CadenasOf};

use crate::copying::LENGTH_BYTES;
use sinks::{Refused, Text, Writer};

/// The texts of the entries that are left, of which the memory begins with the first.
#[derive(Clone, Copy)]
pub(crate) struct Texts<'m> {
    pub(crate) rest: &'m [u8],
    pub(crate) left: u16,
    ghost laid: { packed (decoded left rest.now) ≡ take (length (packed (decoded left rest.now))) rest.now },
    ghost copies: { ∥ AllCopies (decoded left rest.now) ∥₁ },
}

impl<'m> Iterator for Texts<'m> {
    type Item = &'m [u8];

    ghost next_gives = { YieldsFirstRef (λ s. decoded s.left s.rest.now) };

    ghost remaining = { item_count (λ s. decoded s.left s.rest.now) };

    fn next(&mut self) -> Option<&'m [u8]> {
        let left = self.left.checked_sub(1)?;
        let (length, after) = self.rest.split_first_chunk::<LENGTH_BYTES>()?;
        let (text, rest) = after.split_at(u32::from_be_bytes(*length) as usize);
        *self = Texts { rest, left };
        Some(text)
    }
}

impl<'m> Text for Texts<'m> {
    // the cadenas of the texts, in order, each with a line feed
    ghost reads = { λ s text. CadenasOf (decoded s.left s.rest.now) text };

    fn write<W: Writer>(&self, to: &mut W) -> Result<(), Refused> {
        for text in *self {
            original::write(text, to)?;
            to.write(b'\n')?;
        }
        Ok(())
    }
}
