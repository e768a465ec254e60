// What only counts a text.
ghost use Rattle.std.specs.Prelude.{◌≡◌, ℕ};
ghost use Rattle.sinks.specs.Counts.{counting};

use crate::writer::{Refused, Writer};

/// Counts the bytes of a text, and refuses none.
#[derive(Drop)]
pub struct Counter {
    count: usize,
}

impl Counter {
    /// A counter that has counted nothing.
    pub fn new() -> Counter
        ensures { result.count ≡ 0 }
    {
        Counter { count: 0 }
    }

    /// How many bytes were written, or the largest number where they were more.
    pub fn count(&self) -> usize
        ensures { result ≡ self.now.count }
    {
        self.count
    }
}

impl Writer for Counter {
    ghost writing = { counting };

    fn write(&mut self, _byte: u8) -> Result<(), Refused> {
        self.count = self.count.saturating_add(1);
        Ok(())
    }
}
