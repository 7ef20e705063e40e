//! Vets all jobs.

ghost use Rattle.std.specs.Prelude.{◌≡◌, ◌<◌, ◌↔◌, [], length, vec_len, vec_capacity, IfOk, IfErr, Err};
ghost use Rattle.std.specs.List.{AllZip};
ghost use Rattle.std.specs.Option.{ForSome};
ghost use Rattle.nc_work.specs.Verdicts.{IsVerdictOn, AreWorkers};
ghost use Rattle.nc_work.specs.Outcomes.{IsOutcomeOf, FitsJob, AreOutcomes};

use crate::fault::WorkFault;
use crate::gate::Gate;
use crate::job::{Job, Verdict};
use crate::pool::for_places;
use nc_vet::{Marks, VetFault, Vetted, judge};
use std::alloc::{AllocError, Global};
use std::sync::Wait;
use std::thread::Threads;

/// The largest number of workers.
const MOST: u32 = 16;

/// The marks of a valid chunk, or a chunk's fault.
type Outcome = Result<Marks, VetFault>;

/// What workers have found, and room for the verdicts.
#[derive(Drop)]
struct Judged {
    outcomes: Vec<Option<Outcome>>,
    verdicts: Vec<Verdict>,
}

/// Judges a job's chunk in place, between the gate's two calls.
fn judge_job<G: Gate>(number: usize, job: &Job, gate: &G) -> Outcome
    ensures { IsOutcomeOf job.now result }
{
    gate.before(number);
    let outcome = judge(*job.code.allocator(), job.base, job.limit, &job.code);
    gate.after(number);
    outcome
}

/// Judges jobs by workers. Returns their outcomes, in the jobs' order, where a worker has judged them, and room for the verdicts.
fn judge_all<G: Gate, T: Threads + Sync>(
    rt: &T,
    alloc: Global,
    jobs: &[Job],
    workers: usize,
    gate: &G,
) -> Result<Judged, AllocError>
    ensures len { IfOk result (λ judged. vec_len judged.outcomes ≡ length jobs.now) }
    ensures outcomes { IfOk result (λ judged. AreOutcomes jobs.now judged.outcomes.items) }
    ensures verdicts { IfOk result (λ judged. (judged.verdicts.items ≡ []) × (vec_capacity judged.verdicts ≡ length jobs.now)) }
{
    let verdicts = Vec::with_capacity(alloc, jobs.len())?;
    let outcomes = for_places(
        rt,
        alloc,
        jobs.len(),
        workers,
        (),
        &|number: usize, _state: &mut ()|
            requires { number < length jobs.now }
            ensures { FitsJob jobs.entry.now number result }
        { Some(judge_job(number, &jobs[number], gate)) },
    )?;
    Ok(Judged { outcomes, verdicts })
}

/// The verdict on a job, by the outcome of its chunk.
fn verdict(job: Job, outcome: Outcome) -> Verdict
    requires { IsOutcomeOf job outcome }
    ensures { IsVerdictOn job result }
{
    match outcome {
        Ok(marks) => Ok(Vetted::new(job.base, job.limit, job.code, marks)),
        Err(fault) => Err((job.code, fault)),
    }
}

/// The outcome that was found; if there is none, judges the job.
fn outcome_of<G: Gate>(number: usize, job: &Job, found: Option<Outcome>, gate: &G) -> Outcome
    requires { ForSome found (IsOutcomeOf job.now) }
    ensures { IsOutcomeOf job.now result }
{
    match found {
        Some(outcome) => outcome,
        None => judge_job(number, job, gate),
    }
}

/// The verdicts on all jobs. A job that no worker has judged is judged here.
fn conclude<G: Gate>(
    jobs: Vec<Job>,
    outcomes: &mut [Option<Outcome>],
    mut verdicts: Vec<Verdict>,
    gate: &G,
) -> Vec<Verdict>
    requires len { length outcomes.old ≡ vec_len jobs }
    requires outcomes { AreOutcomes jobs.items outcomes.old }
    requires room { (verdicts.items ≡ []) × (vec_capacity verdicts ≡ vec_len jobs) }
    ensures { AllZip IsVerdictOn jobs.items result.items }
{
    for job in jobs {
        let number = verdicts.len();
        let outcome = outcome_of(number, &job, outcomes[number].take(), gate);
        verdicts.push_reserved(verdict(job, outcome));
    }
    verdicts
}

/// Vets all jobs with several workers, one of which is the caller.
///
/// Each verdict is one that `vet` may return for that job. The verdicts are in the jobs' order, whatever the number of workers.
/// A worker takes the next job when it has finished one, so a long job doesn't hold up others; with at least as many workers as
/// jobs, each job has a worker of its own. If a worker can't be started, another one vets its job.
///
/// All memory is allocated before a worker starts, except for the marks of each chunk; if there is none for those, that
/// job's verdict says so.
///
/// Refusals, which give the jobs back unchanged: `BadWorkers` exactly if `workers` isn't in 1 to 16, before anything is
/// allocated; `OutOfMemory` if that memory was refused.
pub fn vet_all<G: Gate, T: Threads + Wait + Sync>(
    rt: &T,
    jobs: Vec<Job>,
    workers: u32,
    gate: &G,
) -> Result<Vec<Verdict>, (Vec<Job>, WorkFault)>
    ensures verdicts { IfOk result (λ v. AllZip IsVerdictOn jobs.items v.items) }
    ensures given_back { IfErr result (λ e. e.0 ≡ jobs) }
    ensures bad_workers { (result ≡ Err (jobs, WorkFault.BadWorkers)) ↔ ¬ AreWorkers workers }
{
    if workers < 1 || MOST < workers {
        return Err((jobs, WorkFault::BadWorkers));
    }
    let Ok(judged) = judge_all(rt, *jobs.allocator(), &jobs, workers as usize, gate) else {
        return Err((jobs, WorkFault::OutOfMemory));
    };
    let Judged {
        mut outcomes,
        verdicts,
    } = judged;
    Ok(conclude(jobs, &mut outcomes, verdicts, gate))
}
