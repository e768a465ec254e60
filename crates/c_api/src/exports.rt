// The functions that C calls.
ghost use Rattle.rules.specs.Catalogues.{ruled};
ghost use Rattle.rules.specs.Texts.{cadena, fair_copy};
ghost use Rattle.c_api.specs.Told.{Told, Put};

use catalogues::Ruled;
use sinks::Buffer;

/// The number of the first fault of a document under the ruled set, or 0 where it is lawful.
#[unsafe(no_mangle)]
pub extern "C" fn dunshebi_check(document: &[u8]) -> u8
    ensures { Told ruled document.now result }
{
    match invoice::check(document, &Ruled) {
        Ok(_) => 0,
        Err(fault) => fault.number(),
    }
}

/// Puts the cadena of a document at the front of the room, as far as it fits, and gives the bytes put; none where the document has a fault.
#[unsafe(no_mangle)]
pub extern "C" fn dunshebi_cadena(document: &[u8], room: &mut [u8]) -> usize
    ensures { Put ruled document.now cadena room.old result room.new }
{
    let mut buffer = Buffer::new(room);
    let _ = texts::cadena(document, &Ruled, &mut buffer);
    buffer.count()
}

/// Puts the fair copy of a document at the front of the room, in the same way.
#[unsafe(no_mangle)]
pub extern "C" fn dunshebi_fair_copy(document: &[u8], room: &mut [u8]) -> usize
    ensures { Put ruled document.now fair_copy room.old result room.new }
{
    let mut buffer = Buffer::new(room);
    let _ = texts::fair_copy(document, &Ruled, &mut buffer);
    buffer.count()
}
