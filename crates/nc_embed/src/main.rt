//! An example of a host in Rattle, with a walk through the region in place of the switch to untrusted code. `docs/EMBEDDING.md` lists the
//! duties of a host.
//!
//! `making` makes the seats, and a region over the host's own acts (`image`), and `loading` vets code and creates it. `host` takes this
//! region behind its lock through a whole life: code vetted before the lock is taken, two threads that run code while it is patched and
//! deleted, reclaiming, and the same span used again. `guest` is one of these threads, and `turns` makes the output the same for every
//! schedule. `code` is the code that the threads run, `fault` says why it isn't loaded and why the host gives up, and `printing` prints.
//!
//! - Vet first, then take the lock (`load` in `host`). `vet` takes the bytes by value, so nobody can change them between the verdict and
//!   the puts.
//! - Each thread leaves with its pass, whatever has happened (`guest`). A real host has assembly for `run_inside`, whose walk, under the
//!   lock, never meets a transient stop.
//! - No call of `SharedOf` lends the `Acts` under the lock, and no clause can say what a call did to a value there. If you need either, put
//!   the region behind a `Mutex` of your own, check in by `Gens::check_in`, and state clauses on functions that borrow the region (`load`
//!   in `loading`).
#![tactic(auto)]

mod code;
mod fault;
mod guest;
mod host;
mod image;
mod loading;
mod making;
mod printing;
mod turns;

use fault::HostFault;

fn main(rt: HostRuntime) -> Result<(), HostFault> {
    making::run(&rt, rt.alloc())
}
