// What registers send to sinks.
use crate::answers::{enter_written, told};
use crate::invoices::cadena;
use register::{Phase, Register};
use sinks::{Buffer, Matcher, send_to};
use std::alloc::{AllocError, Global};
use std::test::Fail;

/// The two invoices of these registers.
const TWO: [(&[u8], u8, u16); 2] = [(b" Serie=\"Q\"", 0, 1), (b" Folio=\"002\"", 0, 2)];

/// Some bytes, and then what reading out those two sends.
fn two_lines(heap: Global, before: &[u8]) -> Result<Vec<u8>, AllocError> {
    let mut lines = Vec::new(heap);
    lines.extend_from_slice(before)?;
    lines.extend_from_slice(&cadena(heap, b"Q")?)?;
    lines.push(b'\n')?;
    lines.extend_from_slice(&cadena(heap, b"002")?)?;
    lines.push(b'\n')?;
    Ok(lines)
}

#[test]
fn a_matcher_that_stops(rt: HostRuntime) -> Result<(), Fail> {
    let mut memory = [0u8; 4_096];
    let mut register = Register::open(&mut memory);
    enter_written(&rt, rt.alloc(), &mut register, &TWO)?;
    let mut matcher = Matcher::new(b"||4.0|q");
    assert_eq!(rt; told(register.cadena(1, &mut matcher)), (15, 6));
    assert_eq!(rt; told(register.cadena(1, &mut matcher)), (15, 0));
    assert_eq!(rt; matcher.count(), 6);
    Ok(())
}

#[test]
fn a_buffer_that_stops(rt: HostRuntime) -> Result<(), Fail> {
    let mut memory = [0u8; 4_096];
    let mut register = Register::open(&mut memory);
    enter_written(&rt, rt.alloc(), &mut register, &TWO)?;
    let mut room = [7u8; 10];
    let mut buffer = Buffer::new(&mut room);
    assert!(rt; send_to(&mut buffer, b"abc").is_ok());
    assert_eq!(rt; told(register.fair_copy(2, &mut buffer)), (15, 7));
    assert!(rt; buffer.bytes() == b"abc<cfdi:C".as_slice());
    Ok(())
}

/// The faults that a register in either phase tells for the numbers 0 to 3, of which the texts go to a buffer.
fn ask<P: Phase>(register: &Register<'_, P>, to: &mut Buffer<'_>) -> [(u8, u8); 4] {
    let mut answers = [(0, 0); 4];
    for n in 0..4 {
        let cadena = told(register.cadena(n, to));
        let copy = told(register.fair_copy(n, to));
        answers[n as usize] = (cadena.0, copy.0);
    }
    answers
}

#[test]
fn closed_as_open(rt: HostRuntime) -> Result<(), Fail> {
    let mut memory = [0u8; 4_096];
    let mut register = Register::open(&mut memory);
    enter_written(&rt, rt.alloc(), &mut register, &TWO)?;
    let wanted = [(14, 14), (0, 0), (0, 0), (14, 14)];
    let mut open_room = [0u8; 4_096];
    let mut from_open = Buffer::new(&mut open_room);
    assert_eq!(rt; ask(&register, &mut from_open), wanted);
    let closed = register.close();
    let mut closed_room = [0u8; 4_096];
    let mut from_closed = Buffer::new(&mut closed_room);
    assert_eq!(rt; ask(&closed, &mut from_closed), wanted);
    assert!(rt; closed.count() == 2 && from_open.bytes() == from_closed.bytes());
    Ok(())
}

#[test]
fn all_cadenas_are_read_out(rt: HostRuntime) -> Result<(), Fail> {
    let lines = two_lines(rt.alloc(), b"")?;
    let mut memory = [0u8; 4_096];
    let mut register = Register::open(&mut memory);
    enter_written(&rt, rt.alloc(), &mut register, &TWO)?;
    let mut matcher = Matcher::new(&lines);
    let (answer, _) = register.close().read_out(&mut matcher);
    assert!(rt; answer.is_ok() && matcher.matched());
    Ok(())
}

#[test]
fn reading_out_stops(rt: HostRuntime) -> Result<(), Fail> {
    let expected = two_lines(rt.alloc(), b"abc")?;
    let mut memory = [0u8; 4_096];
    let mut register = Register::open(&mut memory);
    enter_written(&rt, rt.alloc(), &mut register, &TWO)?;
    let mut room = [0u8; 200];
    let mut buffer = Buffer::new(&mut room);
    assert!(rt; send_to(&mut buffer, b"abc").is_ok());
    let (answer, _) = register.close().read_out(&mut buffer);
    assert_eq!(rt; told(answer), (15, 197));
    assert!(rt; buffer.count() == 200 && expected.starts_with(buffer.bytes()));
    Ok(())
}
