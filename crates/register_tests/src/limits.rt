// The room of a register: what entries take of its memory, and where it ends.
use crate::answers::{all_are, enter_numbered, entered, has_cadena, has_none};
use crate::invoices::{cadena, digits, long_invoice, numbered};
use catalogues::Ruled;
use register::Register;
use sinks::Buffer;
use std::alloc::Global;
use std::process::Abort;
use std::test::Fail;

/// The most bytes of its memory that a register uses.
const ROOM: usize = 1_048_576;

/// The length of a numbered invoice, which is its own fair copy, as a register stores it.
const STORED_LENGTH: [u8; 4] = [0, 0, 3, 59];

/// The bytes that a numbered invoice takes in a register.
const TAKEN: usize = 831;

/// The letters that make a long invoice a sixteenth of the room, with the four bytes of its length.
const LETTERS: usize = 185;

#[test]
fn an_empty_memory_takes_nothing(rt: HostRuntime) -> Result<(), Fail> {
    let mut register = Register::open(&mut []);
    enter_numbered(&rt, rt.alloc(), &mut register, &[(1, 13, 0)])?;
    assert_eq!(rt; register.count(), 0);
    let mut room = [0u8; 16];
    let mut buffer = Buffer::new(&mut room);
    let (answer, memory) = register.close().read_out(&mut buffer);
    assert!(rt; memory.is_empty());
    assert!(rt; answer.is_ok() && buffer.count() == 0);
    Ok(())
}

#[test]
fn a_byte_too_few(rt: HostRuntime) -> Result<(), Fail> {
    let mut memory = [7u8; TAKEN - 1];
    let mut register = Register::open(&mut memory);
    enter_numbered(&rt, rt.alloc(), &mut register, &[(1, 13, 0)])?;
    assert_eq!(rt; register.count(), 0);
    assert!(rt; all_are(&memory, 7));
    Ok(())
}

#[test]
fn just_enough_bytes(rt: HostRuntime) -> Result<(), Fail> {
    let document = numbered(rt.alloc(), 1)?;
    let mut memory = [7u8; TAKEN];
    let mut register = Register::open(&mut memory);
    enter_numbered(&rt, rt.alloc(), &mut register, &[(1, 0, 1)])?;
    assert_eq!(rt; document.len(), TAKEN - 4);
    assert!(rt; memory.starts_with(&STORED_LENGTH) && memory.ends_with(&document));
    Ok(())
}

#[test]
fn old_entries_are_none(rt: HostRuntime) -> Result<(), Fail> {
    let mut memory = [7u8; 4_096];
    let mut old = Register::open(&mut memory);
    enter_numbered(&rt, rt.alloc(), &mut old, &[(1, 0, 1), (2, 0, 2)])?;
    let mut register = Register::open(&mut memory);
    assert!(rt; register.count() == 0 && has_none(&register, &[1, 2]));
    enter_numbered(&rt, rt.alloc(), &mut register, &[(2, 0, 1), (1, 0, 2)])
}

#[test]
fn only_entries_are_written(rt: HostRuntime) -> Result<(), Fail> {
    let second = numbered(rt.alloc(), 2)?;
    let mut memory = [7u8; 2_000];
    let mut register = Register::open(&mut memory);
    enter_numbered(
        &rt,
        rt.alloc(),
        &mut register,
        &[(1, 0, 1), (2, 0, 2), (3, 13, 0)],
    )?;
    assert!(rt; memory[TAKEN..TAKEN * 2].starts_with(&STORED_LENGTH));
    assert!(rt; memory[TAKEN..TAKEN * 2].ends_with(&second));
    assert!(rt; all_are(&memory[TAKEN * 2..2_000], 7));
    Ok(())
}

/// Enters the numbered invoices up to a number.
fn enter_up_to(
    rt: &impl Abort,
    heap: Global,
    register: &mut Register<'_>,
    last: u16,
) -> Result<(), Fail> {
    for n in 1..=last {
        enter_numbered(rt, heap, register, &[(n, 0, n)])?;
    }
    Ok(())
}

/// Checks that the cadenas of numbered invoices, which stand at their own numbers, tell their Folio.
fn check_folios(
    rt: &impl Abort,
    heap: Global,
    register: &Register<'_>,
    numbers: &[u16],
) -> Result<(), Fail> {
    for n in numbers {
        let text = cadena(heap, &digits(*n))?;
        assert!(rt; has_cadena(register, *n, &text));
    }
    Ok(())
}

#[test]
fn the_most_entries(rt: HostRuntime) -> Result<(), Fail> {
    let heap = rt.alloc();
    let mut memory = vec![in heap; 7; ROOM]?;
    let mut register = Register::open(&mut memory);
    enter_up_to(&rt, heap, &mut register, 256)?;
    enter_numbered(&rt, heap, &mut register, &[(257, 12, 0), (128, 11, 128)])?;
    check_folios(&rt, heap, &register, &[1, 128, 256])?;
    assert!(rt; register.count() == 256 && has_none(&register, &[0, 257]));
    Ok(())
}

/// Enters a long invoice, and checks the fault and the entry that are told.
fn enter_long(
    rt: &impl Abort,
    heap: Global,
    register: &mut Register<'_>,
    n: u16,
    letters: usize,
    wanted: (u8, u16),
) -> Result<(), Fail> {
    let document = long_invoice(heap, n, letters)?;
    assert_eq!(rt; entered(register.enter(&document, &Ruled)), wanted);
    Ok(())
}

#[test]
fn the_room_ends_before_the_memory(rt: HostRuntime) -> Result<(), Fail> {
    let heap = rt.alloc();
    let mut memory = vec![in heap; 7; 1_048_600]?;
    let mut register = Register::open(&mut memory);
    for n in 1..16 {
        enter_long(&rt, heap, &mut register, n, LETTERS, (0, n))?;
    }
    enter_long(&rt, heap, &mut register, 16, LETTERS + 1, (13, 0))?;
    enter_long(&rt, heap, &mut register, 16, LETTERS, (0, 16))?;
    enter_numbered(&rt, heap, &mut register, &[(17, 13, 0)])?;
    assert!(rt; memory.len() == 1_048_600);
    assert!(rt; memory[0..ROOM].ends_with(b"</cfdi:Comprobante>"));
    assert!(rt; all_are(&memory[ROOM..1_048_600], 7));
    Ok(())
}
