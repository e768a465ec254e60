// The slots of a node together with the document that they stand in, so that they lend its raw values.
ghost use Rattle.std.specs.Prelude.{◌≡◌, ℕ, ◌<◌, ◌≤◌, true, List, ◌++◌, drop, IfOk, None, slice_index_or};
ghost use Rattle.rules.specs.Bytes.{blank, all};
ghost use Rattle.rules.specs.Faults.{Judgement, fault_of};
ghost use Rattle.rules.specs.Grounds.{rows as rows_of, NamesFault};
ghost use Rattle.rules.specs.Located.{givens};
ghost use Rattle.rules.specs.Markup.{Attribute, attribute_ok};
ghost use Rattle.theory.specs.On.{attributes_on, closes};
ghost use Rattle.reader.specs.Slots.{standing_of, raw_in, lent, Filled};

use crate::names::attributes;
use rules::Fault;
use tags::Span;
use walk::Opened;

/// Where the raw values of a node's attributes stand in a document, one slot for each row of the node's table.
#[derive(Clone, Copy)]
pub struct LentSlots<'a> {
    pub document: &'a [u8],
    pub spans: [Option<Span>; 22],
}

impl<'a> LentSlots<'a> {
    /// The span in the slot of a row; none where the slot is empty, and past the slots.
    pub fn span(&self, row: usize) -> Option<Span>
        ensures slot { result ≡ slice_index_or self.now.spans row None }
        ensures past { 22 ≤ row → result ≡ None }
    {
        *self.spans.get(row)?
    }

    /// The raw value whose span is in the slot of a row.
    pub fn raw(&self, row: usize) -> Option<&'a [u8]>
        ensures { lent result ≡ raw_in self.now.document.now (slice_index_or self.now.spans row None) }
    {
        Some(self.span(row)?.of(self.document))
    }
}

/// Judges the names of the attributes of a node that is opened, as `attributes` does, and gives, where they are lawful, slots that lend their raw values.
pub fn lent_slots<'a>(document: &'a [u8], opened: &Opened) -> Result<LentSlots<'a>, Fault>
    ensures judges { (l : List Attribute) (g z : List ℕ) → all attribute_ok l ≡ true → all blank g ≡ true → closes z ≡ true → drop opened.now.attributes document.now ≡ attributes_on l (g ++ z) → opened.now.place < opened.now.attributes → Judgement (NamesFault (standing_of opened.now.node opened.now.place (givens opened.now.attributes l))) (fault_of result) }
    ensures holds { (l : List Attribute) (g z : List ℕ) → all attribute_ok l ≡ true → all blank g ≡ true → closes z ≡ true → drop opened.now.attributes document.now ≡ attributes_on l (g ++ z) → IfOk result (λ s. Filled document.now (rows_of opened.now.node) (givens opened.now.attributes l) s.spans) }
    ensures document { IfOk result (λ s. s.document.now ≡ document.now) }
{
    let slots = attributes(document, opened.place, opened.attributes, opened.node)?;
    let spans = slots.spans;
    Ok(LentSlots { document, spans })
}
