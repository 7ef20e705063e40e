//! Building blocks of the tests.
ghost use Rattle.std.specs.Prelude.{◌≡◌, IfOk, IfSome, IsTrue};

use nc_gens::{Gens, GensFault, Keeper, Pass};
use nc_region::{Acts, Region, RegionOf, Shared};
use nc_vet::{Vetted, vet};
use std::alloc::Global;

/// A table of one seat, with its keeper and its pass.
pub(crate) fn one_seat(alloc: Global) -> Result<(Gens, Keeper, Pass), GensFault>
    ensures { IfOk result (λ r. (r.1.table ≡ r.0) × (r.2.table ≡ r.0)) }
{
    let (gens, keeper, mut passes) = Gens::new(alloc, 1)?;
    let pass = passes.remove(0);
    Ok((gens, keeper, pass))
}

/// These bytes, filled up to this length with nops. Where there is no memory for them, it is shorter, and refused as a chunk.
fn filled(alloc: Global, len: usize, front: &[u8]) -> Vec<u8> {
    let mut code = Vec::new(alloc);
    let _is_begun = code.extend_from_slice(front);
    let _is_whole = code.resize(len, 0x90);
    code
}

/// A vetted chunk that begins with these bytes and is filled with nops; nothing if it is refused.
pub(crate) fn chunk(
    alloc: Global,
    base: u32,
    limit: u32,
    bundles: usize,
    front: &[u8],
) -> Option<Vetted> {
    let code = filled(alloc, bundles.saturating_mul(32), front);
    vet(base, limit, code).ok()
}

/// Creates a chunk, and returns whether that succeeded.
fn is_created<A: Acts + Drop>(region: &mut RegionOf<A>, vetted: Vetted) -> bool
    ensures { IsTrue result → region.new.keeper ≡ region.old.keeper }
{
    region.create(vetted).is_ok()
}

/// A region for threads to share, once this chunk is created in it.
fn share<'g>(region: Region<'g>, vetted: Vetted) -> Option<Shared<'g>>
    ensures { IfSome result (λ s. s.table ≡ region.entry.keeper.table) }
{
    let mut region = region;
    if is_created(&mut region, vetted) {
        return Some(Shared::new(region));
    }
    None
}

/// A region of this size for threads to share, without chunks.
pub(crate) fn shared_anew<'g>(
    alloc: Global,
    bundles: u32,
    gens: &'g Gens,
    keeper: Keeper,
) -> Option<Shared<'g>>
    requires { keeper.table ≡ gens.now }
    ensures { IfSome result (λ s. s.table ≡ gens.now) }
{
    match Region::new(alloc, bundles, gens, keeper) {
        Ok(region) => Some(Shared::new(region)),
        Err(_) => None,
    }
}

/// A region of this size for threads to share, in which a chunk of one bundle was created at this base before: a jump to itself,
/// and nops.
pub(crate) fn shared<'g>(
    alloc: Global,
    bundles: u32,
    base: u32,
    gens: &'g Gens,
    keeper: Keeper,
) -> Option<Shared<'g>>
    requires { keeper.table ≡ gens.now }
    ensures { IfSome result (λ s. s.table ≡ gens.now) }
{
    let limit = 0x10000u32.wrapping_add(bundles.wrapping_mul(32));
    let vetted = chunk(alloc, base, limit, 1, &[0xEB, 0xFE])?;
    match Region::new(alloc, bundles, gens, keeper) {
        Ok(region) => share(region, vetted),
        Err(_) => None,
    }
}
