// Runs of bytes in some texts.
use crate::classes::{Blank, NameByte, Other};
use crate::codes::{Alphanumeric, Digit, is_code};
use crate::runs::{all_of, skip};

#[test]
fn runs_end_where_their_class_does(rt: HostRuntime) {
    let text = b"  Rfc = 'x'";
    assert_eq!(rt; skip(Blank, text, 0), 2);
    assert_eq!(rt; skip(NameByte, text, 2), 5);
    assert_eq!(rt; skip(NameByte, text, 5), 5);
    assert_eq!(rt; skip(Other(b'\''), text, 5), 8);
    assert_eq!(rt; skip(Other(b'"'), text, 5), text.len());
    assert_eq!(rt; skip(Blank, text, 40), 40);
    assert!(rt; all_of(Other(b'"'), text) && !all_of(NameByte, text));
}

#[test]
fn codes_are_short_texts_of_letters_and_digits(rt: HostRuntime) {
    assert!(rt; is_code(b"01") && is_code(b"H87") && is_code(b"5020150000"));
    assert!(rt; !is_code(b"") && !is_code(b"50201500001") && !is_code(b"H-7"));
    assert!(rt; all_of(Alphanumeric, b"") && !all_of(Alphanumeric, b"a b"));
    assert!(rt; all_of(Digit, b"0189") && !all_of(Digit, b"01a"));
}
