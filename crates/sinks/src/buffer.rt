// A buffer over lent memory.
ghost use Rattle.std.specs.Prelude.{◌≡◌, ℕ, ◌≤◌, [], length, take};
ghost use Rattle.rules.specs.Sinks.{buffer_rule};
ghost use Rattle.sinks.specs.Staying.{both_stay, room_stays, same_stays};

use crate::sink::Sink;

/// A sink that keeps the bytes it takes in lent memory, until that is full.
#[derive(Drop)]
pub struct Buffer<'a> {
    room: &'a mut [u8],
    count: usize,
    ghost ok: { count ≤ length room.now },
}

impl<'a> Buffer<'a> {
    /// A buffer that has taken nothing, with room for as many bytes as the memory has.
    pub fn new(room: &'a mut [u8]) -> Buffer<'a>
        ensures taken { take result.count result.room.now ≡ [] }
        ensures room { result.room.now ≡ room.old }
        ensures lent { result.room.ghost_name ≡ room.entry.ghost_name }
    {
        Buffer { room, count: 0 }
    }

    /// How many bytes were taken.
    pub fn count(&self) -> usize
        ensures count { result ≡ self.now.count }
        ensures taken { result ≡ length (take self.now.count self.now.room.now) }
    {
        self.count
    }

    /// The bytes taken.
    pub fn bytes(&self) -> &[u8]
        ensures { result.now ≡ take self.now.count self.now.room.now }
    {
        &self.room[0..self.count]
    }

    /// The lent memory: the bytes taken are its first, and every other is as it was.
    pub fn into_inner(self) -> &'a mut [u8]
        ensures room { result.now ≡ self.entry.room.now }
        ensures lent { result.ghost_name ≡ self.entry.room.ghost_name }
    {
        let room = self.room;
        room
    }
}

impl<'a> Sink for Buffer<'a> {
    ghost taken = { λ s. take s.count s.room.now };

    ghost allows = { λ s. buffer_rule (length s.room.now) };

    ghost stays = { both_stay (room_stays (λ s. s.count) (λ s. s.room.now)) (same_stays (λ s. s.room.ghost_name)) };

    fn put(&mut self, byte: u8) -> bool {
        if self.count < self.room.len() {
            self.room[self.count] = byte;
            self.count += 1;
            true
        } else {
            false
        }
    }
}
