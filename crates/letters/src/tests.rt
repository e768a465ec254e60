// What the check says of the letters of some documents.
use crate::{LIMIT, check};

/// The number and the place of the refusal, if there is one.
fn refusal(document: &[u8]) -> Option<(u8, usize)> {
    match check(document) {
        Ok(()) => None,
        Err(fault) => Some((fault.number(), fault.place())),
    }
}

#[test]
fn good_letters(rt: HostRuntime) {
    let good: [&[u8]; 8] = [
        b"",
        b"\t\r\n",
        b"Taza & plato",
        b"\xC3\x91\xC3\xB1",
        b"\xEF\xBB\xBFa",
        b"\xED\x9F\xBF\xEE\x80\x80\xEF\xBF\xBD",
        b"\xF0\x90\x80\x80\xF4\x8F\xBF\xBF",
        b"\x7F\xC2\x80",
    ];
    for document in good {
        assert_eq!(rt; refusal(document), None);
    }
}

#[test]
fn bad_letters(rt: HostRuntime) {
    let bad: [(&[u8], usize); 14] = [
        (b"\x00", 0),
        (b"ab\x0B", 2),
        (b"a\xC3", 1),
        (b"\xE2\x82", 0),
        (b"ab\xF0\x9F\x98", 2),
        (b"\xC0\x80", 0),
        (b"a\xE0\x80\x80", 1),
        (b"\xF0\x80\x80\x80", 0),
        (b"\xED\xA0\x80", 0),
        (b"\xC3\x91\xEF\xBF\xBE", 2),
        (b"\xEF\xBF\xBF", 0),
        (b"\xF4\x90\x80\x80", 0),
        (b"a\x80", 1),
        (b"a\x1Fb\xFF", 1),
    ];
    for (document, place) in bad {
        assert_eq!(rt; refusal(document), Some((2, place)));
    }
}

#[test]
fn too_long(rt: HostRuntime) {
    let full = [b' '; LIMIT];
    assert_eq!(rt; refusal(&full), None);
    let longer = [b' '; 65_537];
    assert_eq!(rt; refusal(&longer), Some((1, 65_536)));
    let longer_and_bad = [0; 65_537];
    assert_eq!(rt; refusal(&longer_and_bad), Some((1, 65_536)));
    let full_and_bad = [0; LIMIT];
    assert_eq!(rt; refusal(&full_and_bad), Some((2, 0)));
}
