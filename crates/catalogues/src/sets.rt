// What a catalogue set is.
ghost use Rattle.std.specs.Prelude.{◌≡◌};
ghost use Rattle.rules.specs.Catalogues.{Facts, Bounded};

use rules::Catalogue;

/// A set of catalogues, each with its codes and their decimals.
pub trait CatalogueSet {
    ghost facts: { Self → Facts };

    ghost small: { (s : Self) → Bounded (facts s) };

    /// The decimals of a code, where the catalogue has it.
    fn decimals(&self, catalogue: Catalogue, code: &[u8]) -> Option<u8>
        ensures { result ≡ facts self.now catalogue code.now };
}
