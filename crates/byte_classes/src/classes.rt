// Classes of bytes.
ghost use Rattle.std.specs.Prelude.{◌≡◌, ℕ, Bool};
ghost use Rattle.rules.specs.Bytes.{blank, name_byte};
ghost use Rattle.byte_classes.specs.Runs.{other};

/// A class of bytes.
pub trait ByteClass {
    // which bytes are of the class
    ghost holds: { Self → ℕ → Bool };

    /// Whether a byte is of the class.
    fn has(&self, b: u8) -> bool
        ensures { result ≡ holds self.now b };
}

/// The blanks: a space, a tab, a line feed and a carriage return.
#[derive(Clone, Copy, Debug)]
pub struct Blank;

/// The bytes that may stand in a name.
#[derive(Clone, Copy, Debug)]
pub struct NameByte;

/// Every byte but this one.
#[derive(Clone, Copy, Debug)]
pub struct Other(pub u8);

/// Whether a byte is a blank: a space, a tab, a line feed or a carriage return.
pub fn is_blank(b: u8) -> bool
    ensures { result ≡ blank b }
{
    matches!(b, b' ' | b'\t' | b'\n' | b'\r')
}

/// Whether a byte may stand in a name; letters are asked first, since most are.
pub fn is_name_byte(b: u8) -> bool
    ensures { result ≡ name_byte b }
{
    b.is_ascii_alphabetic() || matches!(b, b'0'..=b'9' | b':' | b'_' | b'-' | b'.' | 128..)
}

impl ByteClass for Blank {
    ghost holds = { λ _. blank };

    fn has(&self, b: u8) -> bool {
        is_blank(b)
    }
}

impl ByteClass for NameByte {
    ghost holds = { λ _. name_byte };

    fn has(&self, b: u8) -> bool {
        is_name_byte(b)
    }
}

impl ByteClass for Other {
    ghost holds = { λ c. other c.0 };

    fn has(&self, b: u8) -> bool {
        b != self.0
    }
}
