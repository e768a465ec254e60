use crate::lent::lent_slots;
use rules::Node;
use std::test::Fail;
use tags::Span;
use walk::Opened;

#[test]
fn slots_hold_the_attributes_of_a_tag(rt: HostRuntime) -> Result<(), Fail> {
    let document = b"<cfdi:Impuestos TotalImpuestosTrasladados=\"16.00\"/>";
    let opened = Opened {
        node: Node::Impuestos,
        place: 0,
        attributes: 15,
        childless: true,
    };
    let slots = lent_slots(document, &opened).ok().ok_or("refused")?;
    assert!(rt; slots.raw(0).is_none());
    assert!(rt; slots.raw(1) == Some(b"16.00"));
    assert!(rt; slots.span(1) == Some(Span { start: 43, end: 48 }));
    assert!(rt; slots.span(usize::MAX).is_none());
    assert!(rt; lent_slots(&document[..42], &opened).is_ok());
    Ok(())
}
