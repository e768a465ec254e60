// A document that was read for its shape.
ghost use Rattle.std.specs.Prelude.{◌≡◌, None};
ghost use Rattle.rules.specs.Faults.{fault_of};
ghost use Rattle.rules.specs.Grounds.{Shaped};

use rules::Fault;

/// A document with what reading its shape found: names and kinds, without any catalogue.
#[derive(Drop)]
pub struct Shape<'a> {
    pub(crate) document: &'a [u8],
    pub(crate) found: Result<(), Fault>,
    ghost ok: { fault_of found ≡ None → Shaped document.now },
}
