//! Two workers at once, and numbers of workers that are refused.

use crate::lower::rows::right;
use nc_vet::VetFault;
use nc_work::{Gate, Job, Open, Verdict, WorkFault, vet_all};
use std::alloc::Global;
use std::sync::Wait;
use std::sync::atomic::{AtomicBool, Ordering};
use std::test::Fail;
use std::thread::{Threads, yield_now};

/// The most turns for which a gate waits.
const TURNS: u64 = 10_000_000;

const BASE: u32 = 0x10000;

const LIMIT: u32 = 0x10080;

/// Holds one job until the other one is done, for a limited number of turns.
#[derive(Drop)]
struct Until {
    held: usize,
    other: usize,
    done: AtomicBool,
    late: AtomicBool,
}

impl Gate for Until {
    fn before(&self, job: usize) {
        if job != self.held {
            return;
        }
        for _ in 0..TURNS {
            if self.done.load(Ordering::SeqCst) {
                return;
            }
            yield_now();
        }
        self.late.store(true, Ordering::SeqCst);
    }

    fn after(&self, job: usize) {
        if job == self.other {
            self.done.store(true, Ordering::SeqCst);
        }
    }
}

/// A job of 32 times this byte. Where there is no memory for it, it is empty, and the test fails by the verdict.
fn job(alloc: Global, byte: u8) -> Job {
    let mut code = Vec::new(alloc);
    let _is_whole = code.resize(32, byte);
    Job {
        base: BASE,
        limit: LIMIT,
        code,
    }
}

/// Jobs of returns, which aren't permitted, and of nops.
fn bad_and_good(alloc: Global) -> Vec<Job> {
    let mut jobs = Vec::new(alloc);
    let _is_bad = jobs.push(job(alloc, 0xC3));
    let _is_good = jobs.push(job(alloc, 0x90));
    jobs
}

/// The first chunk is refused at its base, and the second one is valid.
fn are_due(verdicts: &[Verdict]) -> bool {
    match verdicts {
        [Err((_, VetFault::NotPermitted { at })), Ok(_)] => *at == BASE,
        _ => false,
    }
}

/// Whether two workers return the expected verdicts. The function has no clause, so that proofs of its callers don't deal with
/// the contract of `vet_all`.
fn judge<G: Gate, R: Threads + Wait + Sync>(rt: &R, jobs: Vec<Job>, gate: &G) -> bool {
    match vet_all(rt, jobs, 2, gate) {
        Ok(verdicts) => are_due(verdicts.as_slice()),
        Err(_) => false,
    }
}

/// Holds one of two jobs until the other is done: whether it wasn't held too long, and both jobs get the expected verdicts.
fn are_at_once<R: Threads + Wait + Sync>(rt: &R, alloc: Global, held: usize) -> bool {
    let gate = Until {
        held,
        other: 1usize.saturating_sub(held),
        done: AtomicBool::new(false),
        late: AtomicBool::new(false),
    };
    judge(rt, bad_and_good(alloc), &gate) && !gate.late.load(Ordering::SeqCst)
}

#[test]
fn two_at_once(rt: HostRuntime) -> Result<(), Fail> {
    let alloc = rt.alloc();
    right(are_at_once(&rt, alloc, 0) && are_at_once(&rt, alloc, 1), 1)
}

/// This number of workers is refused, and both jobs are given back.
fn are_given_back<R: Threads + Wait + Sync>(rt: &R, alloc: Global, workers: u32) -> bool {
    match vet_all(rt, bad_and_good(alloc), workers, &Open) {
        Ok(_) => false,
        Err((jobs, fault)) => fault == WorkFault::BadWorkers && jobs.len() == 2,
    }
}

#[test]
fn bad_workers(rt: HostRuntime) -> Result<(), Fail> {
    for workers in [0, 17, u32::MAX] {
        right(are_given_back(&rt, rt.alloc(), workers), workers)?;
    }
    Ok(())
}
