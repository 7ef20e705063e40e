//! The host: it loads, patches and deletes code while two threads run it.

ghost use Rattle.std.specs.Prelude.{◌≡◌};

use crate::code::{BARE, BASE, LIMIT, MASKED, SWITCHED};
use crate::fault::{HostFault, LoadFault};
use crate::guest::live;
use crate::loading::admit;
use crate::printing::print_outcome;
use crate::turns::{BOTH_INSIDE, BOTH_RAN, ONE_CHECKED_IN, OTHER_LEFT, Turns};
use nc_gens::Pass;
use nc_region::{Acts, CreateFault, SharedOf, WalkFault};
use std::alloc::Global;
use std::sync::Wait;
use std::thread;
use std::thread::{JoinHandle, Threads};

/// Vets a copy of code first, however long that takes, and takes the lock only for a valid chunk.
fn load<A: Acts + Drop>(
    rt: &impl Wait,
    alloc: Global,
    shared: &SharedOf<'_, A>,
    code: &[u8],
) -> Result<(), LoadFault> {
    let Ok(code) = code.to_vec(alloc) else {
        return Err(LoadFault::NotCreated(CreateFault::OutOfMemory));
    };
    let vetted = match admit(BASE, LIMIT, code) {
        Ok(vetted) => vetted,
        Err(fault) => return Err(LoadFault::NotAdmitted(fault)),
    };
    match shared.create(rt, vetted) {
        Ok(()) => Ok(()),
        Err((_vetted, fault)) => Err(LoadFault::NotCreated(fault)),
    }
}

/// Tries to load code, and prints whether it was loaded.
fn try_load<R: Wait + Print, A: Acts + Drop>(
    rt: &R,
    alloc: Global,
    shared: &SharedOf<'_, A>,
    what: &str,
    code: &[u8],
) -> Result<(), HostFault> {
    match load(rt, alloc, shared, code) {
        Ok(()) => print_outcome(rt, what, "loaded"),
        Err(fault) => print_outcome(rt, what, fault),
    }
}

/// Reclaims, and prints how many chunks were freed.
fn reclaim<R: Wait + Print, A: Acts + Drop>(
    rt: &R,
    shared: &SharedOf<'_, A>,
    when: &str,
) -> Result<(), HostFault> {
    print_outcome(rt, when, shared.reclaim(rt))
}

/// While both threads run the code: tries code that is refused before the lock is taken, and patches the code. No thread is
/// stopped for it.
fn patch<R: Wait + Print, A: Acts + Drop>(
    rt: &R,
    alloc: Global,
    shared: &SharedOf<'_, A>,
    turns: &Turns,
) -> Result<(), HostFault> {
    turns.wait_for(rt, BOTH_RAN);
    try_load(rt, alloc, shared, "a bare jump", &BARE)?;
    shared.modify(rt, BASE, &SWITCHED)?;
    turns.pass_on(rt);
    print_outcome(rt, "while both ran", "patched")
}

/// While both threads stand inside: deletes the code, which nothing can free yet.
fn delete<R: Wait + Print, A: Acts + Drop>(
    rt: &R,
    shared: &SharedOf<'_, A>,
    turns: &Turns,
) -> Result<(), HostFault> {
    turns.wait_for(rt, BOTH_INSIDE);
    let stamp = shared.delete(rt, BASE)?;
    print_outcome(rt, "while both stood inside, deleted with stamp", stamp)?;
    reclaim(rt, shared, "freed")?;
    turns.pass_on(rt);
    Ok(())
}

/// Once a turn has come: reclaims, and tries to load other code into the span. That is refused until each seat has checked in
/// since the deletion, or has left.
fn reuse<R: Wait + Print, A: Acts + Drop>(
    rt: &R,
    alloc: Global,
    shared: &SharedOf<'_, A>,
    turns: &Turns,
    turn: u32,
    when: &str,
) -> Result<(), HostFault> {
    turns.wait_for(rt, turn);
    reclaim(rt, shared, when)?;
    try_load(rt, alloc, shared, "other code there", &MASKED)?;
    turns.pass_on(rt);
    Ok(())
}

/// The host's work while the threads run.
fn work<R: Wait + Print, A: Acts + Drop>(
    rt: &R,
    alloc: Global,
    shared: &SharedOf<'_, A>,
    turns: &Turns,
) -> Result<(), HostFault> {
    patch(rt, alloc, shared, turns)?;
    delete(rt, shared, turns)?;
    let (one, other) = (ONE_CHECKED_IN, OTHER_LEFT);
    reuse(
        rt,
        alloc,
        shared,
        turns,
        one,
        "freed once one had checked in",
    )?;
    reuse(
        rt,
        alloc,
        shared,
        turns,
        other,
        "freed once the other had left",
    )
}

/// A thread that counts, if it could be started.
type Started = Option<JoinHandle<Result<u64, WalkFault>>>;

/// What a thread counted, once it has ended.
fn counted<R: Threads>(rt: &R, thread: Started) -> Result<u64, HostFault> {
    match thread {
        Some(thread) => match thread.join(rt) {
            Ok(astray) => Ok(astray),
            Err(fault) => Err(HostFault::Walk(fault)),
        },
        None => Err(HostFault::NoThread),
    }
}

/// The host's work beside the threads, if both were started, and what each of them counted. If the host fails, the threads
/// don't wait for it.
fn finish<R: Threads + Wait + Print, A: Acts + Drop>(
    rt: &R,
    alloc: Global,
    shared: &SharedOf<'_, A>,
    turns: &Turns,
    first: Started,
    second: Started,
) -> Result<(u64, u64), HostFault> {
    let worked = if first.is_some() && second.is_some() {
        work(rt, alloc, shared, turns)
    } else {
        Err(HostFault::NoThread)
    };
    if worked.is_err() {
        turns.give_up(rt);
    }
    let first = counted(rt, first);
    let second = counted(rt, second);
    worked?;
    Ok((first?, second?))
}

/// Runs two threads, each with a pass of its own, and the host beside them.
fn run_both<R: Threads + Wait + Print + Sync, A: Acts + Drop + Send>(
    rt: &R,
    alloc: Global,
    shared: &SharedOf<'_, A>,
    one: Pass,
    other: Pass,
) -> Result<(u64, u64), HostFault>
    requires { (one.table ≡ shared.now.table) × (other.table ≡ shared.now.table) }
{
    let turns = Turns::new();
    let turns = &turns;
    thread::scope(
        thread::scope_env(),
        rt,
        move |scope|
            requires { (one.table ≡ shared.now.table) × (other.table ≡ shared.now.table) }
        {
            let stays = move ||
                requires { one.table ≡ shared.now.table }
            { live(rt, shared, turns, one, true) };
            let goes = move ||
                requires { other.table ≡ shared.now.table }
            { live(rt, shared, turns, other, false) };
            let first = scope.spawn(stays).ok();
            let second = scope.spawn(goes).ok();
            finish(rt, alloc, shared, turns, first, second)
        },
    )
}

/// The life of the code in a region, until the last thread has left.
pub fn run<R: Threads + Wait + Print + Sync, A: Acts + Drop + Send>(
    rt: &R,
    alloc: Global,
    shared: &SharedOf<'_, A>,
    one: Pass,
    other: Pass,
) -> Result<(), HostFault>
    requires { (one.table ≡ shared.now.table) × (other.table ≡ shared.now.table) }
{
    let (first, second) = run_both(rt, alloc, shared, one, other)?;
    print_outcome(rt, "the first thread's runs that went astray", first)?;
    print_outcome(rt, "the second thread's runs that went astray", second)?;
    shared.delete(rt, BASE)?;
    reclaim(rt, shared, "freed once all had left")
}
