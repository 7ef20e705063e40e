//! Turns that the host and its threads take, so that the output is the same for every schedule.

use std::sync::{Condvar, Mutex, Wait};

// The turns, in this order: both threads have run the code; it is patched; both are inside; it is deleted; the first thread has
// checked in; the second may exit; it has left; other code is loaded.
pub const BOTH_RAN: u32 = 2;

pub const PATCHED: u32 = 3;

pub const BOTH_INSIDE: u32 = 5;

pub const DELETED: u32 = 6;

pub const ONE_CHECKED_IN: u32 = 7;

pub const OTHER_MAY_GO: u32 = 8;

pub const OTHER_LEFT: u32 = 9;

pub const RELOADED: u32 = 10;

/// The number of the current turn, for which threads wait. It only grows.
#[derive(Drop)]
pub struct Turns {
    now: Mutex<u32>,
    changed: Condvar,
}

impl Turns {
    pub fn new() -> Turns {
        Turns {
            now: Mutex::new(0),
            changed: Condvar::new(),
        }
    }

    /// Whether a turn has been reached.
    pub fn has_come(&self, rt: &impl Wait, turn: u32) -> bool {
        *self.now.lock(rt) >= turn
    }

    /// Waits until a turn has been reached.
    pub fn wait_for(&self, rt: &impl Wait, turn: u32) {
        let _now = self
            .changed
            .wait_while(rt, self.now.lock(rt), |now| *now < turn);
    }

    /// Moves on to the next turn.
    pub fn pass_on(&self, rt: &impl Wait) {
        let mut now = self.now.lock(rt);
        *now = now.saturating_add(1);
        self.changed.notify_all();
    }

    /// Moves past every turn, so that nobody waits for a thread that has failed.
    pub fn give_up(&self, rt: &impl Wait) {
        *self.now.lock(rt) = u32::MAX;
        self.changed.notify_all();
    }
}
