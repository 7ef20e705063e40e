//! A thread that runs untrusted code. A walk through the region takes the place of a real host's switch to that code.

ghost use Rattle.std.specs.Prelude.{◌≡◌};

use crate::code::{BASE, FIRST_SERVICE, SECOND_SERVICE};
use crate::turns::{DELETED, OTHER_MAY_GO, PATCHED, RELOADED, Turns};
use nc_gens::Pass;
use nc_region::{Acts, End, SharedOf, WalkFault};
use std::sync::Wait;

/// One run inside, from a bundle start of the region. It returns the last place of the thread, and how the run ended.
///
/// In place of the walk, a real host saves its own stack and registers, loads those of the untrusted code and jumps there,
/// without the lock. Control returns at a bundle start of the trampoline zone, or by the signal of a stop. The host then
/// first clears the direction flag and switches to its own stack, and trusts no register.
fn run_inside<A: Acts + Drop>(
    rt: &impl Wait,
    shared: &SharedOf<'_, A>,
    start: u32,
    choices: &[u32],
) -> Result<(u32, End), WalkFault> {
    let trace = shared.walk(rt, start, choices)?;
    let last = trace.places.last().copied().unwrap_or(start);
    Ok((last, trace.end))
}

/// Runs the code repeatedly until it is patched, and counts the runs that ended elsewhere than at a service. Between two runs
/// the thread is outside, and only there does it check in.
fn serve<A: Acts + Drop>(
    rt: &impl Wait,
    shared: &SharedOf<'_, A>,
    turns: &Turns,
    pass: &mut Pass,
) -> Result<u64, WalkFault>
    requires { pass.old.table ≡ shared.now.table }
    ensures { pass.new.table ≡ pass.old.table }
{
    let mut astray = 0u64;
    for times in 0..u64::MAX {
        let (last, end) = run_inside(rt, shared, BASE, &[0, 0])?;
        if end != End::Trampoline || (last != FIRST_SERVICE && last != SECOND_SERVICE) {
            astray = astray.saturating_add(1);
        }
        shared.check_in(pass);
        if times == 0 {
            turns.pass_on(rt);
        }
        if turns.has_come(rt, PATCHED) {
            break;
        }
    }
    Ok(astray)
}

/// Enters, stays inside at the start of the third bundle while the host deletes the code, and then continues from there. It
/// counts whether that ended elsewhere than at a stop.
fn stand_inside<A: Acts + Drop>(
    rt: &impl Wait,
    shared: &SharedOf<'_, A>,
    turns: &Turns,
    until: u32,
) -> Result<u64, WalkFault> {
    let (place, _) = run_inside(rt, shared, BASE, &[0])?;
    turns.pass_on(rt);
    turns.wait_for(rt, until);
    let (_, end) = run_inside(rt, shared, place, &[0])?;
    Ok(u64::from(end != End::Stop))
}

/// Once the thread is outside it checks in, so it may enter again when other code is loaded.
fn enter_again<A: Acts + Drop>(
    rt: &impl Wait,
    shared: &SharedOf<'_, A>,
    turns: &Turns,
    pass: &mut Pass,
) -> Result<u64, WalkFault>
    requires { pass.old.table ≡ shared.now.table }
    ensures { pass.new.table ≡ pass.old.table }
{
    shared.check_in(pass);
    turns.pass_on(rt);
    turns.wait_for(rt, RELOADED);
    let (_, end) = run_inside(rt, shared, BASE, &[0, FIRST_SERVICE])?;
    Ok(u64::from(end != End::Trampoline))
}

/// A thread's time with its pass. The one that stays is inside for a shorter time than the other, and enters again.
fn visit<A: Acts + Drop>(
    rt: &impl Wait,
    shared: &SharedOf<'_, A>,
    turns: &Turns,
    pass: &mut Pass,
    stays: bool,
) -> Result<u64, WalkFault>
    requires { pass.old.table ≡ shared.now.table }
    ensures { pass.new.table ≡ pass.old.table }
{
    let served = serve(rt, shared, turns, pass)?;
    let until = if stays { DELETED } else { OTHER_MAY_GO };
    let stood = stand_inside(rt, shared, turns, until)?;
    let entered = if stays {
        enter_again(rt, shared, turns, pass)?
    } else {
        0
    };
    Ok(served.saturating_add(stood).saturating_add(entered))
}

/// A thread's whole life: the number of its runs that ended where none may. Even if it failed, it leaves at the end, outside
/// and for good: a pass that is only dropped holds back every later stamp.
pub fn live<A: Acts + Drop>(
    rt: &impl Wait,
    shared: &SharedOf<'_, A>,
    turns: &Turns,
    pass: Pass,
    stays: bool,
) -> Result<u64, WalkFault>
    requires { pass.table ≡ shared.now.table }
{
    let mut pass = pass;
    let astray = visit(rt, shared, turns, &mut pass, stays);
    shared.leave(pass);
    if astray.is_ok() {
        turns.pass_on(rt);
    } else {
        turns.give_up(rt);
    }
    astray
}
