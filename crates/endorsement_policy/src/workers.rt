//! How many threads share work.

ghost use Rattle.std.specs.Prelude.{◌≡◌, ◌≤◌, max, min};

use std::thread::Threads;

/// 1 to 16 workers at once, and the runtime that starts their threads. The caller is one of them.
#[derive(Drop)]
pub struct Workers<'a, T> {
    rt: &'a T,
    count: usize,
    ghost in_range: { (1 ≤ count) × (count ≤ 16) },
}

impl<'a, T: Threads> Workers<'a, T> {
    /// So many workers: 1 where 0 are asked for, and 16 where more are.
    pub fn new(rt: &'a T, count: usize) -> Workers<'a, T>
        ensures { result.count ≡ max 1 (min count 16) }
    {
        Workers {
            rt,
            count: count.clamp(1, 16),
        }
    }

    /// The runtime that starts their threads.
    pub fn rt(&self) -> &'a T {
        self.rt
    }

    /// How many they are, 1 to 16.
    pub fn count(&self) -> usize
        ensures value { result ≡ self.now.count }
        ensures least { 1 ≤ result }
        ensures greatest { result ≤ 16 }
    {
        self.count
    }
}
