//! The acts of a region, with a look at the whole text after each of them.

ghost use Rattle.std.specs.Prelude.{◌≡◌};

use crate::life::judge::Copied;
use nc_decode::{Mark, START, STOP};
use nc_gens::{GensFull, Pass};
use nc_region::Acts;
use nc_text::TextFault;

/// What was found after the acts so far.
#[derive(Clone, Copy, Debug, PartialEq, Eq)]
pub(crate) struct Findings {
    /// The number of acts.
    pub(crate) acts: u32,
    /// The number of times at which a place was wrong.
    pub(crate) faults: u32,
    /// After this number of acts, before the first unmarking, the mark at 00010003 was `After(0)`.
    pub(crate) held: u32,
    /// After this number of them, once it had been that, it was another.
    pub(crate) lost: u32,
    /// After this number of acts, from a bump to the next put, the bundle at 00010000 had only stops.
    pub(crate) stopped: u32,
    /// After this number of them it hadn't.
    pub(crate) running: u32,
}

/// Other acts, watched. Their text has four bundles.
#[derive(Drop)]
pub(crate) struct Watcher<A: Acts + Drop> {
    acts: A,
    findings: Findings,
    is_unmarked: bool,
    is_retired: bool,
}

impl<A: Acts + Drop> Watcher<A> {
    /// Watches from the next act on.
    pub(crate) fn new(acts: A) -> Watcher<A>
        ensures { result.acts ≡ acts }
    {
        Watcher {
            acts,
            findings: Findings {
                acts: 0,
                faults: 0,
                held: 0,
                lost: 0,
                stopped: 0,
                running: 0,
            },
            is_unmarked: false,
            is_retired: false,
        }
    }

    /// What was found so far.
    pub(crate) fn findings(&self) -> Findings {
        self.findings
    }

    /// The acts that are watched.
    pub(crate) fn acts(&self) -> &A {
        &self.acts
    }

    /// Looks at the text after an act.
    fn look_round(&mut self)
        ensures { self.new.acts ≡ self.old.acts }
    {
        let text = copied(&self.acts);
        self.findings.acts = self.findings.acts.saturating_add(1);
        self.findings.faults = self.findings.faults.saturating_add(text.faults());
        if !self.is_unmarked {
            self.look_at_pair(text.marks[3]);
        }
        if self.is_retired {
            self.look_at_stops(text.bytes[..32].iter().all(|byte| *byte == STOP));
        }
    }

    /// Counts whether the second half of the pair is still marked.
    fn look_at_pair(&mut self, mark: Mark)
        ensures { self.new.acts ≡ self.old.acts }
    {
        if mark == Mark::After(0) {
            self.findings.held = self.findings.held.saturating_add(1);
        } else if self.findings.held > 0 {
            self.findings.lost = self.findings.lost.saturating_add(1);
        }
    }

    /// Counts whether the retired span has only stops.
    fn look_at_stops(&mut self, stops: bool)
        ensures { self.new.acts ≡ self.old.acts }
    {
        if stops {
            self.findings.stopped = self.findings.stopped.saturating_add(1);
        } else {
            self.findings.running = self.findings.running.saturating_add(1);
        }
    }
}

/// The first 128 places of a text.
fn copied<A: Acts>(acts: &A) -> Copied {
    let mut text = Copied {
        bytes: [0; 128],
        marks: [Mark::Unmarked; 128],
    };
    let limit = acts.limit();
    for index in 0..128u32 {
        let at = START.wrapping_add(index);
        if at < limit {
            text.bytes[index as usize] = acts.byte(at);
            text.marks[index as usize] = acts.mark(at);
        }
    }
    text
}

impl<A: Acts + Drop> Acts for Watcher<A> {
    ghost marked = { λ w. A.marked w.acts };

    ghost made = { λ w. A.made w.acts };

    ghost keeper = { λ w. A.keeper w.acts };

    ghost logged = { λ w. A.logged w.acts };

    fn ready(&mut self, at: u32, len: u32) -> Result<(), TextFault> {
        self.acts.ready(at, len)
    }

    fn is_ready(&self, at: u32, len: u32) -> bool {
        self.acts.is_ready(at, len)
    }

    fn put(&mut self, at: u32, byte: u8) {
        self.acts.put(at, byte);
        self.is_retired = false;
        self.look_round();
    }

    fn serialize(&mut self) {
        self.acts.serialize();
    }

    fn mark_span(&mut self, at: u32, marks: &[Mark]) {
        self.acts.mark_span(at, marks);
        self.look_round();
    }

    fn unmark_span(&mut self, at: u32, len: u32) {
        self.acts.unmark_span(at, len);
        self.is_unmarked = true;
        self.look_round();
    }

    fn byte(&self, at: u32) -> u8 {
        self.acts.byte(at)
    }

    fn limit(&self) -> u32 {
        self.acts.limit()
    }

    fn mark(&self, at: u32) -> Mark {
        self.acts.mark(at)
    }

    fn bump(&mut self) -> Result<u64, GensFull> {
        let answer = self.acts.bump();
        if answer.is_ok() {
            self.is_retired = true;
            self.look_round();
        }
        answer
    }

    fn look(&mut self) -> u64 {
        let least = self.acts.look();
        self.look_round();
        least
    }

    fn meet(&mut self, pass: &mut Pass) {
        self.acts.meet(pass);
    }

    fn generation(&self) -> u64 {
        self.acts.generation()
    }
}
