//! The time of vetting by several workers.

use crate::code::LIMIT;
use crate::ordinary::ordinary_code;
use crate::timing::{now, since};
use crate::vetting::count_accepted;
use nc_decode::START;
use nc_work::{Job, Open, vet_all};
use std::alloc::Global;
use std::io;
use std::sync::Wait;
use std::thread::Threads;
use std::time::{Clock, Duration};

/// The numbers of workers that are timed if none is given.
const WORKERS: [u32; 6] = [1, 2, 3, 4, 8, 16];

/// The number of jobs, and the largest number of bundles of a job.
#[derive(Clone, Copy, Drop)]
pub struct Jobs {
    pub count: u32,
    pub bundles: u32,
}

/// Jobs of pseudo-random sizes, as many of them as there is memory for.
fn draw_jobs(alloc: Global, jobs: Jobs) -> Vec<Job> {
    let mut all = Vec::new(alloc);
    let mut drawn = 12345u64;
    for _ in 0..jobs.count {
        drawn = drawn
            .wrapping_mul(6_364_136_223_846_793_005)
            .wrapping_add(1_442_695_040_888_963_407);
        let bundles = ((drawn >> 33) as u32 % jobs.bundles.max(1)).saturating_add(1);
        if let Ok(code) = ordinary_code(alloc, bundles) {
            let _pushed = all.push(Job {
                base: START,
                limit: LIMIT,
                code,
            });
        }
    }
    all
}

/// The time of one call, and the number of valid chunks.
fn vet_once<R: Threads + Wait + Sync + Clock>(
    rt: &R,
    jobs: Vec<Job>,
    workers: u32,
) -> (Duration, usize) {
    let start = now(rt);
    let verdicts = vet_all(rt, jobs, workers, &Open);
    let took = since(rt, start);
    match verdicts {
        Ok(verdicts) => (took, count_accepted(&verdicts)),
        Err(_refused) => (took, 0),
    }
}

/// Times one number of workers in rounds, and prints the best time.
fn measure_number<R: Threads + Wait + Sync + Clock + Print + AllocGlobal>(
    rt: &R,
    jobs: Jobs,
    rounds: u32,
    workers: u32,
) -> io::Result<()> {
    let mut best = Duration::MAX;
    let mut good = 0;
    for _ in 0..rounds {
        let (took, valid) = vet_once(rt, draw_jobs(rt.alloc(), jobs), workers);
        best = best.min(took);
        good = valid;
    }
    println!(rt; "{workers} workers: {} us, {good} valid", best.as_micros())
}

/// Times one number of workers, or several in turn.
pub fn measure_workers<R: Threads + Wait + Sync + Clock + Print + AllocGlobal>(
    rt: &R,
    jobs: Jobs,
    rounds: u32,
    workers: Option<u32>,
) -> io::Result<()> {
    if let Some(workers) = workers {
        return measure_number(rt, jobs, rounds, workers);
    }
    for workers in WORKERS {
        measure_number(rt, jobs, rounds, workers)?;
    }
    Ok(())
}
