use crate::attributes::*;
use crate::scan::*;
use std::test::Fail;

#[test]
fn a_tag_is_gone_through(rt: HostRuntime) -> Result<(), Fail> {
    let document = b"<a Rfc = 'x&amp;y' B=\"\" />";
    let first = attribute(document, 2).ok_or("no attribute")?;
    assert_eq!(rt; first.name, Span { start: 3, end: 6 });
    assert_eq!(rt; first.value, Span { start: 10, end: 17 });
    assert_eq!(rt; tag_end(document, 2), 24);
    assert_eq!(rt; attribute(document, 23), None);
    assert_eq!(rt; after(document, 24), 26);
    assert_eq!(rt; attribute(document, usize::MAX), None);
    Ok(())
}

#[test]
fn attributes_come_in_order(rt: HostRuntime) -> Result<(), Fail> {
    let document = b"<a Rfc = 'x&amp;y' B=\"\" />";
    let mut attributes = Attributes::new(document, 2);
    let first = attributes.next().ok_or("no first attribute")?;
    assert_eq!(rt; Some(first), attribute(document, 2));
    let second = attributes.next().ok_or("no second attribute")?;
    assert_eq!(rt; second.name, Span { start: 19, end: 20 });
    assert_eq!(rt; second.value, Span { start: 22, end: 22 });
    assert_eq!(rt; attributes.next(), None);
    Ok(())
}
