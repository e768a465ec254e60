// The names layer: the attributes of one tag.
ghost use Rattle.std.specs.Prelude.{◌≡◌, ℕ, ◌<◌, ◌≤◌, Bool, true, List, ◌++◌, length, drop, replicate, IfSome, IfOk, if◌then◌else◌, Some, None, slice_index_or};
ghost use Rattle.rules.specs.Bytes.{blank, all};
ghost use Rattle.rules.specs.Faults.{Judgement, fault_of};
ghost use Rattle.rules.specs.declared.grounds.Fault.TheVariants.{AttributeMissing, AttributeRefused};
ghost use Rattle.rules.specs.Grounds.{rows as rows_of, NamesFault};
ghost use Rattle.rules.specs.Located.{givens};
ghost use Rattle.rules.specs.Markup.{Attribute, attribute_ok};
ghost use Rattle.theory.specs.On.{attributes_on, closes};
ghost use Rattle.reader.specs.Names.{row_at, taken, with_span, filled, refusal, lacks, refusing};
ghost use Rattle.reader.specs.Slots.{standing_of, Filled};

use rules::{Fault, Node};
use schema::rows;
use tags::{AttributeSpan, Attributes, Span};

/// Where the raw values of a node's attributes stand, one slot for each row of the node's table.
#[derive(Clone, Copy)]
pub struct Slots {
    pub spans: [Option<Span>; 22],
}

impl Slots {
    /// The span in the slot of a row; none where the slot is empty, and past the slots.
    pub fn get(&self, row: usize) -> Option<Span>
        ensures slot { row < 22 → result ≡ slice_index_or self.now.spans row None }
        ensures past { 22 ≤ row → result ≡ None }
    {
        if row < 22 { self.spans[row] } else { None }
    }

    /// Puts the value of an attribute into the slot of its row; it is refused where there is no row, or its slot is full.
    fn put(&mut self, row: Option<usize>, attribute: AttributeSpan) -> Result<(), Fault>
        requires { IfSome row (λ j. j < 22) }
        ensures after { self.new.spans ≡ with_span row self.old.spans attribute.value }
        ensures refused { fault_of result ≡ (if taken row self.old.spans then Some (AttributeRefused attribute.name.start) else None) }
    {
        match row {
            Some(row) if self.spans[row].is_none() => {
                self.spans[row] = Some(attribute.value);
                Ok(())
            }
            _ => Err(Fault::AttributeRefused {
                place: attribute.name.start,
            }),
        }
    }
}

/// The row of a node that has this name.
fn row_of(node: Node, name: &[u8]) -> Option<usize>
    ensures is { result ≡ row_at (rows_of node) 0 name.now }
    ensures within { IfSome result (λ j. j < 22) }
{
    rows(node).iter().position(|row| row.name == name)
}

/// The slots that one pass over a tag fills, and the first attribute that no row names or that was given before.
#[derive(Clone, Copy)]
pub struct Collected {
    pub slots: Slots,
    pub refused: Result<(), Fault>,
}

/// Goes through the attributes of the tag of a node, which begin at `at`.
fn collect(document: &[u8], at: usize, node: Node) -> Collected
    ensures { (l : List Attribute) (g z : List ℕ) → all attribute_ok l ≡ true → all blank g ≡ true → closes z ≡ true → drop at document.now ≡ attributes_on l (g ++ z) → (result.slots.spans ≡ filled (rows_of node) (replicate 22 None) at l) × (fault_of result.refused ≡ refusing (refusal (rows_of node) (replicate 22 None) at l)) }
{
    let mut slots = Slots { spans: [None; 22] };
    let mut refused = Ok(());
    for a in Attributes::new(document, at) {
        let row = row_of(node, a.name.of(document));
        refused = refused.and(slots.put(row, a));
    }
    Collected { slots, refused }
}

/// Whether a required row has an empty slot.
fn missing(node: Node, slots: &Slots) -> bool
    ensures { result ≡ lacks (rows_of node) 0 slots.now.spans }
{
    rows(node)
        .iter()
        .zip(&slots.spans)
        .any(|(row, slot)| row.required && slot.is_none())
}

/// The first fault in the names of one tag: a missing attribute stands at the node's own place, before any that is refused.
fn first_fault(lacking: bool, refused: Result<(), Fault>, node_at: usize) -> Result<(), Fault>
    ensures { fault_of result ≡ (if lacking then Some (AttributeMissing node_at) else fault_of refused) }
{
    if lacking {
        return Err(Fault::AttributeMissing { place: node_at });
    }
    refused
}

/// Judges the names of the attributes of one tag, which begin at `at`, for a node whose `<` stands at `node_at`; and gives, where they are lawful, a slot for each row.
pub fn attributes(document: &[u8], node_at: usize, at: usize, node: Node) -> Result<Slots, Fault>
    ensures judges { (l : List Attribute) (g z : List ℕ) → all attribute_ok l ≡ true → all blank g ≡ true → closes z ≡ true → drop at document.now ≡ attributes_on l (g ++ z) → node_at < at → Judgement (NamesFault (standing_of node node_at (givens at l))) (fault_of result) }
    ensures holds { (l : List Attribute) (g z : List ℕ) → all attribute_ok l ≡ true → all blank g ≡ true → closes z ≡ true → drop at document.now ≡ attributes_on l (g ++ z) → IfOk result (λ s. Filled document.now (rows_of node) (givens at l) s.spans) }
{
    let collected = collect(document, at, node);
    let lacking = missing(node, &collected.slots);
    first_fault(lacking, collected.refused, node_at)?;
    Ok(collected.slots)
}
