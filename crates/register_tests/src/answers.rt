// What registers answer, in numbers that can be compared.
use crate::invoices::{invoice, numbered};
use catalogues::Ruled;
use register::Register;
use rules::Fault;
use sinks::{Buffer, Matcher};
use std::alloc::Global;
use std::process::Abort;
use std::test::Fail;

/// The number and the place of a fault, or 0 and 0.
pub fn told(answer: Result<(), Fault>) -> (u8, usize) {
    match answer {
        Ok(()) => (0, 0),
        Err(fault) => (fault.number(), fault.place()),
    }
}

/// The number of a fault, or 0, and the entry that the answer tells, or 0.
pub fn entered(answer: Result<u16, Fault>) -> (u8, u16) {
    match answer {
        Ok(entry) => (0, entry),
        Err(Fault::AlreadyEntered { entry }) => (11, entry),
        Err(fault) => (fault.number(), 0),
    }
}

/// Enters invoices by the attributes that number them, and checks the fault and the entry that are told of each.
pub fn enter_written(
    rt: &impl Abort,
    heap: Global,
    register: &mut Register<'_>,
    wanted: &[(&[u8], u8, u16)],
) -> Result<(), Fail> {
    for (numbering, fault, entry) in wanted {
        let document = invoice(heap, numbering)?;
        assert_eq!(rt;
            entered(register.enter(&document, &Ruled)),
            (*fault, *entry)
        );
    }
    Ok(())
}

/// Enters numbered invoices, and checks the fault and the entry that are told of each.
pub fn enter_numbered(
    rt: &impl Abort,
    heap: Global,
    register: &mut Register<'_>,
    wanted: &[(u16, u8, u16)],
) -> Result<(), Fail> {
    for (n, fault, entry) in wanted {
        let document = numbered(heap, *n)?;
        assert_eq!(rt;
            entered(register.enter(&document, &Ruled)),
            (*fault, *entry)
        );
    }
    Ok(())
}

/// Whether an entry has just this cadena.
pub fn has_cadena(register: &Register<'_>, number: u16, text: &[u8]) -> bool {
    let mut matcher = Matcher::new(text);
    let sent = register.cadena(number, &mut matcher);
    sent.is_ok() && matcher.matched()
}

/// Whether an entry has just this fair copy.
pub fn has_copy(register: &Register<'_>, number: u16, text: &[u8]) -> bool {
    let mut matcher = Matcher::new(text);
    let sent = register.fair_copy(number, &mut matcher);
    sent.is_ok() && matcher.matched()
}

/// Whether a register says of each number, for both texts, that it has no such entry.
pub fn has_none(register: &Register<'_>, numbers: &[u16]) -> bool {
    let mut buffer = Buffer::new(&mut []);
    for n in numbers {
        let cadena = told(register.cadena(*n, &mut buffer));
        let copy = told(register.fair_copy(*n, &mut buffer));
        if cadena != (14, 0) || copy != (14, 0) {
            return false;
        }
    }
    true
}

/// Whether all bytes are this one.
pub fn all_are(bytes: &[u8], byte: u8) -> bool {
    for b in bytes {
        if *b != byte {
            return false;
        }
    }
    true
}
