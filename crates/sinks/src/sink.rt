// What a sink is.
ghost use Rattle.std.specs.Prelude.{◌≡◌, ℕ, Bool, List, [], ◌∷◌, ◌++◌, if◌then◌else◌};
ghost use Rattle.sinks.specs.Staying.{Staying};

/// What takes bytes one after another, as far as its rule allows.
pub trait Sink {
    // the bytes that it has taken
    ghost taken: { Self → List ℕ };

    // its rule, fixed for its life: which byte may follow the bytes taken
    ghost allows: { Self → List ℕ → ℕ → Bool };

    // what else of it stays as it was while it takes bytes
    ghost stays: { Staying Self };

    /// Takes a byte, and says so, exactly when the rule allows it; else the sink is unchanged.
    fn put(&mut self, byte: u8) -> bool
        ensures answer { result ≡ allows self.old (taken self.old) byte }
        ensures grows { taken self.new ≡ (if result then taken self.old ++ byte ∷ [] else taken self.old) }
        ensures rule { allows self.new ≡ allows self.old }
        ensures keeps { stays.since self.old self.new };
}
