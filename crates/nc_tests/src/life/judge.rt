//! A copy of a text, and the number of its places that are wrong.

use nc_decode::{BUNDLE, Flow, Instr, Mark, START, decode};

/// The bytes and marks of four bundles, from 00010000 on.
#[derive(Drop)]
pub(crate) struct Copied {
    pub(crate) bytes: [u8; 128],
    pub(crate) marks: [Mark; 128],
}

impl Copied {
    /// The mark at an address, where the text has one.
    fn mark_at(&self, at: u32) -> Option<Mark> {
        let index = at.checked_sub(START)?;
        self.marks.get(index as usize).copied()
    }

    /// Whether some mark stands for being at this address with this register masked, or with none; or the address is a bundle start
    /// below the region.
    fn admits(&self, at: u32, masked: Option<u8>) -> bool {
        if at < START {
            return at % BUNDLE == 0;
        }
        match self.mark_at(at) {
            Some(Mark::Plain) => true,
            Some(Mark::After(register)) => masked == Some(register),
            Some(Mark::Unmarked) | None => false,
        }
    }

    /// Whether each step of an instruction at this address leads to a state for which a mark stands, or to a bundle start below
    /// the region. An indirect transfer goes to a bundle start, each of which has to be plain.
    fn leads_well(&self, at: u32, instr: Instr) -> bool {
        let next = at.wrapping_add(u32::from(instr.len));
        let target = next.wrapping_add_signed(instr.rel);
        match instr.flow {
            Flow::Next => self.admits(next, instr.masks),
            Flow::Branch => self.admits(next, None) && self.admits(target, None),
            Flow::Jump | Flow::Call => self.admits(target, None),
            Flow::IndirectJump | Flow::IndirectCall | Flow::Stop => true,
        }
    }

    /// The instruction at an index, read up to its bundle's end.
    fn instruction(&self, index: usize) -> Option<Instr> {
        let end = index.saturating_sub(index % 32).saturating_add(32);
        let bytes = self.bytes.get(index..end)?;
        decode(bytes).ok()
    }

    /// Whether each state for which a mark at this index stands is safe, and leads only to states for which marks stand.
    fn is_good(&self, index: u32, mark: Mark) -> bool {
        let masked = match mark {
            Mark::Unmarked => return true,
            Mark::Plain => None,
            Mark::After(register) => Some(register),
        };
        let Some(instr) = self.instruction(index as usize) else {
            return false;
        };
        let allowed = !instr.flow.is_indirect() || masked == Some(instr.reg);
        allowed && self.leads_well(START.wrapping_add(index), instr)
    }

    /// Whether each bundle start is plain.
    fn starts_are_plain(&self) -> bool {
        self.marks[0] == Mark::Plain
            && self.marks[32] == Mark::Plain
            && self.marks[64] == Mark::Plain
            && self.marks[96] == Mark::Plain
    }

    /// Walks all marks once, and returns the number of wrong places. Bundle starts that aren't plain count as one more.
    pub(crate) fn faults(&self) -> u32 {
        let mut faults = u32::from(!self.starts_are_plain());
        for index in 0..128u32 {
            if !self.is_good(index, self.marks[index as usize]) {
                faults = faults.saturating_add(1);
            }
        }
        faults
    }
}
