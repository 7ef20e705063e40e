//! Lines gathered to be vetted.

ghost use Rattle.std.specs.Prelude.{◌≡◌, [], IfOk};
ghost use Rattle.nc_lines.specs.machinery.Batch.{Gathers};

use crate::stream::Responder;
use crate::words::placed_in_line;
use nc_work::Job;
use std::alloc::{AllocError, Global};

/// Lines gathered to be vetted: for each whether it names a chunk, and a job for each chunk, in the lines' order.
#[derive(Drop)]
pub(crate) struct Batch {
    pub alloc: Global,
    limit: u32,
    pub named: Vec<bool>,
    pub jobs: Vec<Job>,
}

impl Batch {
    /// An empty batch, whose chunks are to be vetted for this limit.
    pub fn new(alloc: Global, limit: u32) -> Batch
        ensures limit { result.limit ≡ limit }
        ensures empty { (result.named.items ≡ []) × (result.jobs.items ≡ []) }
    {
        Batch {
            alloc,
            limit,
            named: Vec::new(alloc),
            jobs: Vec::new(alloc),
        }
    }
}

/// A line is only gathered: its reply is written once all lines have been read.
impl Responder for Batch {
    ghost replies = { Gathers };

    fn reply(&mut self, kept: &[u8], _out: &mut Vec<u8>) -> Result<(), AllocError> {
        match placed_in_line(self.alloc, kept)? {
            Some((base, code)) => {
                self.jobs.push(Job {
                    base,
                    limit: self.limit,
                    code,
                })?;
                self.named.push(true)?;
            }
            None => self.named.push(false)?,
        }
        Ok(())
    }
}
