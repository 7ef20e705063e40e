//! Taking times, and printing them.

use std::io;
use std::time::{Clock, Duration, Instant};

/// The present moment, if the clock can be read.
pub fn now<R: Clock>(rt: &R) -> Option<Instant> {
    Instant::now(rt).ok()
}

/// The time since a moment, or the maximum if the clock couldn't be read.
pub fn since<R: Clock>(rt: &R, start: Option<Instant>) -> Duration {
    match (start, now(rt)) {
        (Some(start), Some(end)) => end.duration_since(start),
        _ => Duration::MAX,
    }
}

/// Prints the time of the best round, for this number of things of this name.
pub fn report<R: Print>(rt: &R, count: u32, what: &str, best: Duration) -> io::Result<()> {
    let nanos = best.as_nanos();
    println!(rt; "{count} {what}: {nanos} ns")
}

/// A number of things that were done, and the time that they took.
#[derive(Clone, Copy, Drop)]
pub struct Timed {
    pub done: u32,
    pub took: Duration,
}

impl Timed {
    /// A time that is worse than any other, for nothing.
    pub fn worst() -> Timed {
        Timed {
            done: 0,
            took: Duration::MAX,
        }
    }

    /// The better time, and the number of the later round, which has the worst time if there was no memory for it.
    pub fn best(self, later: Option<Timed>) -> Timed {
        let later = later.unwrap_or(Timed::worst());
        Timed {
            done: later.done,
            took: self.took.min(later.took),
        }
    }

    /// Prints the time for things of this name, and the time for each, rounded down to a tenth of a nanosecond.
    pub fn report<R: Print>(self, rt: &R, what: &str) -> io::Result<()> {
        let done = self.done;
        let nanos = u64::try_from(self.took.as_nanos()).unwrap_or(u64::MAX);
        let tenths = nanos.saturating_mul(10) / u64::from(done.max(1));
        println!(rt;
            "{done} {what}: {nanos} ns, {}.{} ns each",
            tenths / 10,
            tenths % 10
        )
    }
}

/// The time between two readings of the clock with nothing between them, this many times.
pub fn bare_clockings<R: Clock>(rt: &R, times: u32) -> Timed {
    let mut took = Duration::ZERO;
    for _ in 0..times {
        let start = now(rt);
        took = took.saturating_add(since(rt, start));
    }
    Timed { done: times, took }
}
