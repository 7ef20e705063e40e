//! `vet_all`, while it is refused an allocation.

use crate::growths::marks::{begin, end};
use crate::lower::rows::right;
use nc_vet::VetFault;
use nc_work::{Job, Open, Verdict, WorkFault, vet_all};
use std::alloc::{AllocError, Global};
use std::sync::Wait;
use std::test::Fail;
use std::thread::Threads;

const BASE: u32 = 0x10000;

/// A job of a bundle that begins with this byte; nops follow.
fn job(alloc: Global, byte: u8) -> Result<Job, AllocError> {
    let mut code = Vec::new(alloc);
    code.push(byte)?;
    code.resize(32, 0x90)?;
    Ok(Job {
        base: BASE,
        limit: 0x10080,
        code,
    })
}

/// Jobs of a return, which isn't permitted, and of nops.
fn jobs(alloc: Global) -> Result<Vec<Job>, AllocError> {
    let mut jobs = Vec::new(alloc);
    jobs.push(job(alloc, 0xC3)?)?;
    jobs.push(job(alloc, 0x90)?)?;
    Ok(jobs)
}

/// Whether a verdict is lack of memory, with the code, which begins with this byte.
fn is_refused(verdict: &Verdict, byte: u8) -> bool {
    match verdict {
        Err((code, VetFault::OutOfMemory)) => code.len() == 32 && code.first() == Some(&byte),
        _ => false,
    }
}

/// Whether a verdict names the return.
fn is_bad(verdict: &Verdict) -> bool {
    match verdict {
        Err((_, VetFault::NotPermitted { at })) => *at == BASE,
        _ => false,
    }
}

/// Whether each verdict is the one that is due, or lack of memory.
fn are_due(verdicts: &[Verdict]) -> bool {
    match verdicts {
        [first, second] => {
            (is_bad(first) || is_refused(first, 0xC3))
                && (second.is_ok() || is_refused(second, 0x90))
        }
        _ => false,
    }
}

/// The result of `vet_all`, without its contract.
fn vetted<R: Threads + Wait + Sync>(
    rt: &R,
    jobs: Vec<Job>,
    workers: u32,
) -> Result<Vec<Verdict>, (Vec<Job>, WorkFault)> {
    vet_all(rt, jobs, workers, &Open)
}

/// Whether the jobs have their verdicts.
fn are_vetted<R: Threads + Wait + Sync>(rt: &R, jobs: Vec<Job>, workers: u32) -> bool {
    match vetted(rt, jobs, workers) {
        Ok(verdicts) => are_due(verdicts.as_slice()),
        Err(_) => false,
    }
}

/// Whether the jobs have their verdicts, or are given back for lack of memory, and then have them.
fn are_vetted_at_last<R: Threads + Wait + Sync>(rt: &R, jobs: Vec<Job>, workers: u32) -> bool {
    match vetted(rt, jobs, workers) {
        Ok(verdicts) => are_due(verdicts.as_slice()),
        Err((jobs, WorkFault::OutOfMemory)) => jobs.len() == 2 && are_vetted(rt, jobs, workers),
        Err(_) => false,
    }
}

/// `vet_all` refuses for lack of memory and gives the jobs back, or returns the verdicts, of which each may be lack of memory.
#[test]
fn each_growth_refused(rt: HostRuntime) -> Result<(), Fail> {
    let (first, second) = (jobs(rt.alloc())?, jobs(rt.alloc())?);
    begin(&rt)?;
    let is_first = are_vetted_at_last(&rt, first, 1);
    let is_second = are_vetted_at_last(&rt, second, 2);
    end(&rt)?;
    right(is_first, 1)?;
    right(is_second, 2)
}
