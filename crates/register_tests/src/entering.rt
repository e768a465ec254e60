// Which invoices a register takes, and which it refuses.
use crate::answers::{
    all_are, enter_numbered, enter_written, entered, has_cadena, has_copy, has_none,
};
use crate::invoices::{CATALOGUES, cadena, invoice, numbered};
use catalogues::CatalogueText;
use register::Register;
use std::test::Fail;

/// Ways to write one numbering, with what is told of each after another invoice.
const WRITTEN: [(&[u8], u8, u16); 4] = [
    (b" Serie=\"TORNO\" Folio=\"1 &amp; 2\"", 0, 2),
    (b"\n\tSerie = 'TORNO'\r\n\tFolio = '1 &amp; 2'", 11, 2),
    (b" Folio=\"1 &amp; 2\" Serie=\"TORNO\"", 11, 2),
    (b" Folio=' 1\n&amp;\t 2 ' Serie=' TORNO '", 11, 2),
];

#[test]
fn one_invoice_is_entered_once(rt: HostRuntime) -> Result<(), Fail> {
    let heap = rt.alloc();
    let mut memory = [0u8; 4_096];
    let mut register = Register::open(&mut memory);
    enter_numbered(&rt, heap, &mut register, &[(7, 0, 1)])?;
    enter_written(&rt, heap, &mut register, &WRITTEN)?;
    let copy = invoice(heap, b" Serie=\"TORNO\" Folio=\"1 &amp; 2\"")?;
    assert!(rt; has_copy(&register, 2, &copy) && register.count() == 2);
    Ok(())
}

#[test]
fn one_cadena_of_two_entries(rt: HostRuntime) -> Result<(), Fail> {
    let heap = rt.alloc();
    let mut memory = [0u8; 4_096];
    let mut register = Register::open(&mut memory);
    enter_written(
        &rt,
        heap,
        &mut register,
        &[(b" Serie=\"A\"", 0, 1), (b" Folio=\"A\"", 0, 2)],
    )?;
    let text = cadena(heap, b"A")?;
    assert!(rt; has_cadena(&register, 1, &text) && has_cadena(&register, 2, &text));
    Ok(())
}

#[test]
fn an_unknown_code_changes_nothing(rt: HostRuntime) -> Result<(), Fail> {
    let document = numbered(rt.alloc(), 1)?;
    let set = CatalogueText::new(CATALOGUES);
    let mut memory = [7u8; 4_096];
    let mut register = Register::open(&mut memory);
    assert_eq!(rt; entered(register.enter(&document, &set)), (9, 0));
    assert!(rt; register.count() == 0 && has_none(&register, &[0, 1]));
    assert!(rt; all_are(&memory, 7));
    Ok(())
}

#[test]
fn an_entry_stays_whatever_set_is_named(rt: HostRuntime) -> Result<(), Fail> {
    let heap = rt.alloc();
    let document = numbered(heap, 1)?;
    let set = CatalogueText::new(CATALOGUES);
    let mut memory = [7u8; 4_096];
    let mut register = Register::open(&mut memory);
    enter_numbered(&rt, heap, &mut register, &[(1, 0, 1)])?;
    assert_eq!(rt; entered(register.enter(&document, &set)), (9, 0));
    enter_numbered(&rt, heap, &mut register, &[(1, 11, 1)])?;
    assert!(rt; has_copy(&register, 1, &document));
    Ok(())
}
