// A place in a document, and the scans from it on.
ghost use Rattle.std.specs.Prelude.{◌≡◌, ◌+◌, ◌≤◌, ◌==◌, length, drop};
ghost use Rattle.std.specs.List.{prefix_len, common_prefix_len};

use byte_classes::{ByteClass, skip};

/// A document, and how much of it has been read.
#[derive(Drop)]
pub(crate) struct Reader<'a> {
    pub(crate) doc: &'a [u8],
    pub(crate) at: usize,
    ghost inside: { at ≤ length doc.now },
}

impl<'a> Reader<'a> {
    /// At the start of a document.
    pub(crate) fn new(doc: &'a [u8]) -> Reader<'a>
        ensures doc { result.doc.now ≡ doc.now }
        ensures start { result.at ≡ 0 }
    {
        Reader { doc, at: 0 }
    }

    /// Reads the bytes of a class that come next.
    pub(crate) fn skip<C: ByteClass + Copy>(&mut self, class: C)
        ensures same { self.new.doc.now ≡ self.old.doc.now }
        ensures is { self.new.at ≡ self.old.at + prefix_len (C.holds class) (drop self.old.at self.old.doc.now) }
    {
        self.at = skip(class, self.doc, self.at);
    }

    /// Reads the bytes that come next as far as they are those of `text`, and tells how many they are.
    pub(crate) fn shared(&mut self, text: &[u8]) -> usize
        ensures same { self.new.doc.now ≡ self.old.doc.now }
        ensures is { result ≡ common_prefix_len (λ x y. x == y) (drop self.old.at self.old.doc.now) text.now }
        ensures to { self.new.at ≡ self.old.at + result }
    {
        let count = self.doc[self.at..]
            .iter()
            .zip(text)
            .take_while(|(x, y)| x == y)
            .count();
        self.at += count;
        count
    }
}
