// Where the elements of a document begin.
ghost use Rattle.std.specs.Prelude.{◌≡◌, ◌≤◌, length};
ghost use Rattle.rules.specs.Markup.{Document, Marks, head};

/// The one declaration that a document may begin with.
const DECLARATION: &[u8] = b"<?xml version=\"1.0\" encoding=\"UTF-8\"?>";

/// Where the elements of a document begin: after the declaration, if it begins with that.
pub fn content_start(document: &[u8]) -> usize
    ensures within { result ≤ length document.now }
    ensures is { (m : Document) → Marks document.now m → result ≡ length (head m) }
{
    if document.starts_with(DECLARATION) {
        DECLARATION.len()
    } else {
        0
    }
}
