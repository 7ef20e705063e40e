//! One entry of a list of acts, as a host reads it, and how to append one to a buffer.

ghost use Rattle.std.specs.Prelude.{◌≡◌, ◌+◌, ◌<◌, length, slice_set};
ghost use Rattle.nc_acts.specs.declared.acts.Act.{Act};
ghost use Rattle.nc_acts.specs.declared.acts.Entry.{Entry};
ghost use Rattle.nc_host_acts.specs.Shown.{act_of, entry_of};

/// One act on a text, a serialization between two acts, or a run of puts in a bundle.
#[repr(C)]
#[derive(Clone, Copy)]
pub struct NcAct {
    /// The number of its kind, by `specs/Shown` and `specs/Runs`.
    pub kind: u32,
    /// The address of its first place, or 0 for an act that has none.
    pub at: u32,
    /// The byte that is put, the number of places that are marked, or the bits of a run's places; else 0.
    pub value: u32,
}

/// A put of this byte at this address.
pub(crate) fn put(at: u32, byte: u8) -> NcAct
    ensures { result ≡ act_of (Act.Put at byte) }
{
    NcAct {
        kind: 1,
        at,
        value: u32::from(byte),
    }
}

/// The marking of this many places, from this address on.
pub(crate) fn mark_span(at: u32, len: u32) -> NcAct
    ensures { result ≡ act_of (Act.MarkSpan at len) }
{
    NcAct {
        kind: 2,
        at,
        value: len,
    }
}

/// The drawing of a stamp.
pub(crate) fn bump() -> NcAct
    ensures { result ≡ act_of Act.Bump }
{
    NcAct {
        kind: 3,
        at: 0,
        value: 0,
    }
}

/// A serialization of the host.
pub(crate) fn serialize() -> NcAct
    ensures { result ≡ entry_of Entry.Serialized }
{
    NcAct {
        kind: 6,
        at: 0,
        value: 0,
    }
}

/// Writes one more act. Returns the new number of acts.
pub(crate) fn write(acts: &mut [NcAct], count: usize, act: NcAct) -> usize
    requires { count < length acts.old }
    ensures acts { acts.new ≡ slice_set acts.old count act }
    ensures count { result ≡ count + 1 }
{
    acts[count] = act;
    count + 1
}
