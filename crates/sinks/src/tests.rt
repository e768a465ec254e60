// Examples of what sinks take.
use crate::buffer::Buffer;
use crate::matcher::Matcher;
use crate::text::{Bytes, text_length};
use crate::through::{send_text, send_to};
use std::test::Fail;

#[test]
fn a_buffer_fills(rt: HostRuntime) -> Result<(), Fail> {
    let mut room = [7u8; 4];
    let mut buffer = Buffer::new(&mut room);
    assert!(rt; send_to(&mut buffer, b"abc").is_ok());
    assert!(rt; buffer.count() == 3);
    match send_to(&mut buffer, b"de") {
        Err(fault) => assert!(rt; fault.number() == 15 && fault.place() == 1),
        Ok(()) => return Err(Fail::new("a full buffer took a byte")),
    }
    assert!(rt; buffer.bytes() == b"abcd".as_slice());
    Ok(())
}

#[test]
fn a_matcher_stops(rt: HostRuntime) -> Result<(), Fail> {
    let mut matcher = Matcher::new(b"abc");
    assert!(rt; send_to(&mut matcher, b"ab").is_ok() && !matcher.matched());
    match send_to(&mut matcher, b"ca") {
        Err(fault) => assert!(rt; fault.place() == 1 && matcher.matched()),
        Ok(()) => return Err(Fail::new("a matched matcher took a byte")),
    }
    assert!(rt; matcher.count() == 3);
    Ok(())
}

#[test]
fn a_text_is_sent_and_counted(rt: HostRuntime) -> Result<(), Fail> {
    let text = Bytes(b"abc");
    assert!(rt; text_length(&text) == 3);
    let mut matcher = Matcher::new(b"abc");
    assert!(rt; send_text(&text, &mut matcher).is_ok() && matcher.matched());
    match send_text(&text, &mut matcher) {
        Err(fault) => assert!(rt; fault.number() == 15 && fault.place() == 0),
        Ok(()) => return Err(Fail::new("a matched matcher took a byte")),
    }
    Ok(())
}
