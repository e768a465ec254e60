// The entries of a register, by their numbers.
ghost use Rattle.std.specs.Prelude.{◌≡◌, ℕ, List, length, Some, None, MatchOption};
ghost use Rattle.rules.specs.Register.{nth, Absent};
ghost use Rattle.promises.specs.Stored.{decoded};
ghost use Rattle.register.specs.Copied.{CopyOf};
ghost use Rattle.register.specs.States.{texts};

use crate::Register;
use crate::copying::is_copy;
use crate::texts::Texts;

impl<P> Register<'_, P> {
    /// The texts of the entries in the order entered.
    pub(crate) fn texts(&self) -> Texts<'_>
        ensures { decoded result.left result.rest.now ≡ texts self.now }
    {
        Texts {
            rest: self.memory,
            left: self.count,
        }
    }

    /// The text of an entry, if there is one with this number; none is gone through where the number is past the count.
    pub(crate) fn text(&self, number: u16) -> Option<&[u8]>
        ensures { MatchOption result (nth (texts self.now) number ≡ None) (λ t. nth (texts self.now) number ≡ Some t.now) }
    {
        if number > self.count {
            return None;
        }
        let before = number.checked_sub(1)?;
        self.texts().nth(before as usize)
    }

    /// The number of the entry that is the fair copy of a document, if there is one; the lengths are compared before any byte.
    pub(crate) fn find(&self, document: &[u8], copy_length: usize) -> Option<u16>
        ensures { (c : List ℕ) → CopyOf document.now c → length c ≡ copy_length → MatchOption result (Absent c (texts self.now)) (λ n. nth (texts self.now) n ≡ Some c) }
    {
        let before = self
            .texts()
            .position(|text| is_copy(document, copy_length, text))?;
        Some(before as u16 + 1)
    }
}
