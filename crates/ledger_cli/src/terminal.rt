//! How far a replay is, on a terminal.

use std::cell::Cell;
use std::io::IsTerminal;
use std::time::Instant;
use store_replay::Watch;

/// A line is written once in so many seconds at most.
const TURN: u64 = 1;

/// Behind a pause of so many seconds another replay begins, unless `STRETCH` blocks were checked in
/// it.
const PAUSE: u64 = 2;

/// Several workers check at least so many blocks at once, where so many are at hand, however long
/// they take.
const STRETCH: usize = 16;

/// Tells on the standard error how far a replay is, where that is a terminal and the replay takes
/// more than a second: on one line, which is written again where it stands, and wiped at the end.
pub struct Terminal<'a> {
    machine: &'a HostRuntime,
    times: Cell<Option<Times>>,
}

/// When something was written last, or a replay began, and when it was told last, of how many
/// blocks.
#[derive(Clone, Copy)]
struct Times {
    written: Instant,
    told: Instant,
    blocks: usize,
}

impl<'a> Terminal<'a> {
    /// The terminal of a machine, if it has one.
    pub fn new(machine: &'a HostRuntime) -> Terminal<'a> {
        Terminal {
            machine,
            times: Cell::new(None),
        }
    }

    fn is_there(&self) -> bool {
        self.machine.stderr().is_terminal()
    }
}

impl Watch for Terminal<'_> {
    fn reached(&self, blocks: usize) {
        if !self.is_there() {
            return;
        }
        let Ok(now) = Instant::now(self.machine) else {
            return;
        };
        let mut written = now;
        if let Some(times) = self.times.get() {
            let is_soon = now.duration_since(times.told).as_secs() < PAUSE;
            if is_soon || blocks.saturating_sub(times.blocks) >= STRETCH {
                written = times.written;
            }
        }
        if now.duration_since(written).as_secs() >= TURN {
            let _ = eprint!(self.machine; "\x1b[Kledger: {blocks} blocks are checked\r");
            written = now;
        }
        self.times.set(Some(Times {
            written,
            told: now,
            blocks,
        }));
    }
}

impl Drop for Terminal<'_> {
    fn drop(self) {
        let is_there = self.is_there();
        let Self { machine, times } = self;
        if is_there && times.get().is_some() {
            let _ = eprint!(machine; "\x1b[K");
        }
    }
}
