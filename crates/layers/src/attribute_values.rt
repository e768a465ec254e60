// The values of the attributes of a document.
ghost use Rattle.std.specs.Prelude.{◌≡◌, List, IfOk};
ghost use Rattle.rules.specs.Faults.{Judgement, fault_of};
ghost use Rattle.rules.specs.Grounds.{rows as rows_of, ValuesFault, decimals as decimals_of_moneda};
ghost use Rattle.rules.specs.Located.{Given, elements_of};
ghost use Rattle.rules.specs.Markup.{Document, Marks};
ghost use Rattle.rules.specs.Values.{values_of};
ghost use Rattle.theory.specs.Grounds.{Some_of};
ghost use Rattle.walk.specs.Events.{Occurrence, told, Found, Tagged};
ghost use Rattle.walk.specs.Coming.{InOrder};
ghost use Rattle.layers.specs.Found.{kind_named, given_in, fault_at, ValueFinds, NamesFound, ValuesFound};
ghost use Rattle.layers.specs.Meeting.{Met, Starts};

use crate::currency::moneda_decimals;
use catalogues::CatalogueSet;
use rules::{Fault, Kind, Node};
use schema::rows;
use tags::{AttributeSpan, Attributes};
use values::{ValueFault, judge};
use walk::{Event, Walk};

/// The kind of the attribute of a node that has this name.
fn kind_of(node: Node, name: &[u8]) -> Option<Kind>
    ensures { result ≡ kind_named (rows_of node) name.now }
{
    rows(node)
        .iter()
        .find(|row| row.name == name)
        .map(|row| row.kind)
}

/// The fault of a value that begins at a place.
fn at_place(fault: ValueFault, place: usize) -> Fault
    ensures { result ≡ fault_at fault place }
{
    match fault {
        ValueFault::NotAdmitted => Fault::NotAdmitted { place },
        ValueFault::NotInCatalogue(_) => Fault::NotInCatalogue { place },
    }
}

/// Judges the value of one attribute of a node; one that no row names has no fault of values.
fn value<C: CatalogueSet>(
    document: &[u8],
    a: AttributeSpan,
    node: Node,
    set: &C,
) -> Result<(), Fault>
    ensures { Judgement (ValueFinds (C.CatalogueSet.facts set.now) node (given_in document.now a)) (fault_of result) }
{
    let name = a.name.of(document);
    let raw = a.value.of(document);
    let Some(kind) = kind_of(node, name) else {
        return Ok(());
    };
    judge(set, kind, raw).map_err(|fault| at_place(fault, a.value.start))?;
    Ok(())
}

/// Judges the values of the attributes of one tag, which begin at `at`, in document order.
fn tag_values<C: CatalogueSet>(document: &[u8], at: usize, node: Node, set: &C) -> Result<(), Fault>
    ensures { (gs : List Given) → Tagged document.now at gs → Judgement (Some_of (ValueFinds (C.CatalogueSet.facts set.now) node) gs) (fault_of result) }
{
    for a in Attributes::new(document, at) {
        value(document, a, node, set)?;
    }
    Ok(())
}

/// Judges the values of the attributes of the node that an event opens.
fn node_values<C: CatalogueSet>(document: &[u8], event: Event, set: &C) -> Result<(), Fault>
    ensures { (o : Occurrence) → event ≡ told o → Found document.now o → Starts o → Judgement (Met (ValuesFault (C.CatalogueSet.facts set.now)) o) (fault_of result) }
{
    match event.opened() {
        Some(opened) => tag_values(document, opened.attributes, opened.node, set),
        None => Ok(()),
    }
}

/// Judges the values of the attributes of a document, where its tree is in order: the first that its kind does not admit or its catalogue does not have.
fn all_values<C: CatalogueSet>(document: &[u8], set: &C) -> Result<(), Fault>
    ensures { (m : Document) → Marks document.now m → InOrder document.now m → Judgement (ValuesFound (C.CatalogueSet.facts set.now) m) (fault_of result) }
{
    for event in Walk::new(document) {
        node_values(document, event, set)?;
    }
    Ok(())
}

/// Judges the values of a document as above; where they and the names are lawful, gives the decimals that the set has for its Moneda.
pub fn values<C: CatalogueSet>(document: &[u8], set: &C) -> Result<u8, Fault>
    ensures judges { (m : Document) → Marks document.now m → InOrder document.now m → Judgement (ValuesFound (C.CatalogueSet.facts set.now) m) (fault_of result) }
    ensures gives { (m : Document) → Marks document.now m → InOrder document.now m → ((f : Fault) → NamesFound m f → ⊥) → IfOk result (λ d. d ≡ decimals_of_moneda (C.CatalogueSet.facts set.now) (values_of (elements_of m))) }
{
    all_values(document, set)?;
    Ok(moneda_decimals(document, set))
}
