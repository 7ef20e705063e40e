//! Verdicts as reply lines.

ghost use Rattle.std.specs.Prelude.{◌≡◌, ◌++◌, ◌∷◌, Bool, List, ℕ, OnOk};
ghost use Rattle.std.specs.Vec.Iter.{into_iter_items};
ghost use Rattle.nc_lines.specs.Vetting.{SaysVerdict, VetsLine, VetsLines};
ghost use Rattle.nc_lines.specs.machinery.Batch.{IsFound, AreFound};

use nc_output::push_fault;
use nc_work::Verdict;
use std::alloc::{AllocError, Global};
use std::vec::IntoIter;

/// Adds the reply to a line whose chunk has this verdict. Lack of memory is not a verdict: it is returned as an error.
fn push_verdict(out: &mut Vec<u8>, verdict: Verdict) -> Result<(), AllocError>
    ensures { OnOk result ((base limit : ℕ) (bytes : List ℕ) → IsFound limit (base, bytes) verdict → (reply : List ℕ)
        × (out.new.items ≡ out.old.items ++ reply) × SaysVerdict base limit bytes reply) }
{
    match verdict {
        Ok(_) => out.extend_from_slice(b"ok\n"),
        Err((_, fault)) => push_fault(out, fault),
    }
}

/// Adds the reply to the next line: the next verdict if it names a chunk, else `bad line`.
fn push_reply(
    out: &mut Vec<u8>,
    is_named: bool,
    left: &mut IntoIter<Verdict, Global>,
) -> Result<(), AllocError>
    ensures { OnOk result ((limit : ℕ) (line : List ℕ) (lines : List (List ℕ)) (rest : List Bool)
        → AreFound limit (line ∷ lines) (is_named ∷ rest) (into_iter_items left.old) → (reply : List ℕ)
        × (out.new.items ≡ out.old.items ++ reply) × VetsLine limit line reply × AreFound limit lines rest (into_iter_items left.new)) }
{
    if !is_named {
        return out.extend_from_slice(b"bad line\n");
    }
    match left.next() {
        Some(verdict) => push_verdict(out, verdict),
        // this can't happen: each chunk has its verdict
        None => Ok(()),
    }
}

/// Adds the replies to lines; `named` says which of them name a chunk.
pub(crate) fn push_verdicts(
    out: &mut Vec<u8>,
    named: Vec<bool>,
    verdicts: Vec<Verdict>,
) -> Result<(), AllocError>
    ensures { OnOk result ((limit : ℕ) (lines : List (List ℕ)) → AreFound limit lines named.items verdicts.items → (replies : List ℕ)
        × (out.new.items ≡ out.old.items ++ replies) × VetsLines limit lines replies) }
{
    let mut left = verdicts.into_iter();
    for is_named in named {
        push_reply(out, is_named, &mut left)?;
    }
    Ok(())
}
