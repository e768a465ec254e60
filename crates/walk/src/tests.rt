// What a walk meets in a small document.
use crate::{Event, Opened, Walk};
use rules::Node;

#[test]
fn only_a_node_that_is_opened_is_given(rt: HostRuntime) {
    let opened = Opened {
        node: Node::Emisor,
        place: 3,
        attributes: 15,
        childless: true,
    };
    assert!(rt; matches!(Event::Opened(opened).opened(), Some(_)));
    assert!(rt; matches!(Event::Closed(Node::Emisor).opened(), None));
}

#[test]
fn a_walk_ends_after_each_node_is_closed(rt: HostRuntime) {
    assert_eq!(rt; Walk::new(b"<cfdi:Comprobante/>").count(), 2);
    assert_eq!(rt;
        Walk::new(b"<cfdi:Comprobante><cfdi:Emisor/></cfdi:Comprobante>").count(),
        4
    );
}
