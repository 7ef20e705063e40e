//! Turning a chunk into stops while threads run in its text.

ghost use Rattle.std.specs.Prelude.{◌≡◌, ◌+◌, ◌-◌, ◌<◌, ◌^◌, replicate};
ghost use Rattle.nc_text.specs.Places.{limit_of};
ghost use Rattle.nc_text.specs.Ready.{AreReady};
ghost use Rattle.nc_text.specs.MarkedText.{IsText, with_span};
ghost use Rattle.nc_gens.specs.Seen.{HasRaised};
ghost use Rattle.nc_acts.specs.Log.{Logs, log_of_delete};
ghost use Rattle.nc_acts.specs.Chunks.{HasGoodSpan};

use nc_acts::Acts;

/// Puts stops at all places of a chunk, and draws the stamp.
pub(crate) fn put_stops<A: Acts>(acts: &mut A, base: u32, len: u32) -> u64
    requires whole { IsText (A.marked acts.old) }
    requires placed { HasGoodSpan base (limit_of (A.marked acts.old).bytes) len }
    requires ready { AreReady (A.made acts.old) base len }
    requires room { (A.keeper acts.old).numbers.generation < 2 ^ 62 }
    ensures bytes { (A.marked acts.new).bytes ≡ with_span (A.marked acts.old).bytes (base - 0x10000) (replicate len 0xF4) }
    ensures marks { (A.marked acts.new).marks ≡ (A.marked acts.old).marks }
    ensures whole { IsText (A.marked acts.new) }
    ensures stamp { result ≡ (A.keeper acts.old).numbers.generation + 1 }
    ensures made { A.made acts.new ≡ A.made acts.old }
    ensures keeper { HasRaised (A.keeper acts.old) (A.keeper acts.new) }
    ensures log { Logs (A.logged acts.old) (A.logged acts.new) (log_of_delete (A.marked acts.old).marks base len) }
{
    acts.stop_span(base, len);
    match acts.bump() {
        Ok(stamp) => stamp,
        Err(_) => unreachable!(),
    }
}
