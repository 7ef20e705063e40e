//! Gates, which workers call before and after each job.

/// Called by a worker before and after each job, with the job's number. The calls must return.
pub trait Gate: Sync {
    /// Called by the worker that vets the job, before anything else is done for it.
    fn before(&self, job: usize);

    /// Called by the same worker when the job has been vetted.
    fn after(&self, job: usize);
}

/// A gate that does nothing.
#[derive(Clone, Copy, Debug, Drop)]
pub struct Open;

impl Gate for Open {
    fn before(&self, _job: usize) {}

    fn after(&self, _job: usize) {}
}
