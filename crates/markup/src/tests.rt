// What the check says of some documents.
use crate::document::check as verdict;
use rules::Fault;

/// Documents that are well marked.
const MARKED: [&[u8]; 6] = [
    b"<a/>",
    b" <a></a >\n",
    b"<a b = \"1\" c\t='&amp;&lt;&gt;&quot;&apos;'/>",
    b"<a><a><a><a><a><a/><a></a></a></a></a></a></a>",
    b"<?xml version=\"1.0\" encoding=\"UTF-8\"?><a/>",
    b"<?xml version=\"1.0\" encoding=\"UTF-8\"?>\n<a b = 'x&amp;y' >\n<c:d/> </a >\n",
];

/// Documents that are not, each with the place at which it is refused.
const REFUSED: [(&[u8], usize); 22] = [
    (b"", 0),
    (b"x", 0),
    (b" <?xml version=\"1.0\" encoding=\"UTF-8\"?><a/>", 2),
    (b"<?xml version='1.0'?><a/>", 14),
    (b"< a/>", 1),
    (b"<a b='1'c='2'/>", 8),
    (b"<a b=\"1'\"/>", 7),
    (b"<a b='>'/>", 6),
    (b"<a b='<'/>", 6),
    (b"<a b='&am;'/>", 9),
    (b"<a b='&ampx'/>", 10),
    (b"<a b/>", 4),
    (b"<a>", 3),
    (b"<a>x</a>", 3),
    (b"<a></ a>", 5),
    (b"<a></a b>", 7),
    (b"<a></ab>", 6),
    (b"<abc></abd>", 9),
    (b"<\xC3\x91></\xC3\x92>", 7),
    (b"<a><a><a><a><a><a><a/></a></a></a></a></a></a>", 19),
    (b"<a/><b/>", 4),
    (b"<a/> x", 5),
];

/// The place at which a document is refused for its markup.
fn refusal(document: &[u8]) -> Option<usize> {
    match verdict(document) {
        Err(Fault::NotWellMarked { place }) => Some(place),
        _ => None,
    }
}

#[test]
fn well_marked(rt: HostRuntime) {
    for document in MARKED {
        assert!(rt; verdict(document).is_ok());
    }
}

#[test]
fn refused_at_their_places(rt: HostRuntime) {
    for (document, place) in REFUSED {
        assert!(rt; refusal(document) == Some(place));
    }
}

#[test]
fn beginnings_are_refused_at_their_lengths(rt: HostRuntime) {
    let whole =
        b"<?xml version=\"1.0\" encoding=\"UTF-8\"?>\n<a b='&quot;' >\n<c:d e\t= \"1\"/> </a >";
    assert!(rt; verdict(whole).is_ok());
    for n in 0..whole.len() {
        assert!(rt; refusal(&whole[..n]) == Some(n));
    }
}
