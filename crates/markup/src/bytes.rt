// A class of bytes in the values of attributes.
ghost use Rattle.rules.specs.Markup.{plain_byte};

use byte_classes::ByteClass;

/// The bytes that stand for themselves in a value.
#[derive(Clone, Copy)]
pub(crate) struct PlainByte;

impl ByteClass for PlainByte {
    ghost holds = { λ _. plain_byte };

    fn has(&self, b: u8) -> bool {
        !matches!(b, b'&' | b'<' | b'>' | b'"' | b'\'')
    }
}
