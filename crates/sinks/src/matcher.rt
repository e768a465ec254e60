// A matcher of expected bytes.
ghost use Rattle.std.specs.Prelude.{◌≡◌, ℕ, ◌≤◌, [], length, take, Decides};
ghost use Rattle.rules.specs.Sinks.{matcher_rule};
ghost use Rattle.sinks.specs.Staying.{same_stays};

use crate::sink::Sink;

/// A sink that takes only the next expected byte.
#[derive(Drop)]
pub struct Matcher<'a> {
    expected: &'a [u8],
    count: usize,
    ghost ok: { count ≤ length expected.now },
}

impl<'a> Matcher<'a> {
    /// A matcher that has taken nothing.
    pub fn new(expected: &'a [u8]) -> Matcher<'a>
        ensures taken { take result.count result.expected.now ≡ [] }
        ensures expected { result.expected.now ≡ expected.now }
    {
        Matcher { expected, count: 0 }
    }

    /// How many bytes were taken.
    pub fn count(&self) -> usize
        ensures count { result ≡ self.now.count }
        ensures taken { result ≡ length (take self.now.count self.now.expected.now) }
    {
        self.count
    }

    /// Whether the whole expected text was taken.
    pub fn matched(&self) -> bool
        ensures { Decides result (take self.now.count self.now.expected.now ≡ self.now.expected.now) }
    {
        self.count == self.expected.len()
    }
}

impl<'a> Sink for Matcher<'a> {
    ghost taken = { λ s. take s.count s.expected.now };

    ghost allows = { λ s. matcher_rule s.expected.now };

    ghost stays = { same_stays (λ s. s.expected.now) };

    fn put(&mut self, byte: u8) -> bool {
        if self.expected.get(self.count).copied() != Some(byte) {
            return false;
        }
        self.count += 1;
        true
    }
}
