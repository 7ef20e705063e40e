//! The results of the calls on lent bytes: structs with the layout that C reads.

/// The instruction with which some bytes begin.
#[repr(C)]
#[derive(Clone, Copy)]
pub struct NcInstruction {
    /// 0 if the bytes begin with a permitted instruction, else the reason why not; then all other fields are 0.
    pub fault: u32,
    /// Its length in bytes.
    pub length: u32,
    /// The number of its flow: where control goes after it.
    pub flow: u32,
    /// The displacement in bytes of a direct transfer, else 0.
    pub rel: i32,
    /// The number of the register of an indirect transfer, else 0.
    pub register: u32,
    /// 16 plus the number of the register that it masks, or 0 if it masks none.
    pub masks: u32,
}

/// A verdict on a chunk.
#[repr(C)]
#[derive(Clone, Copy)]
pub struct NcVerdict {
    /// 0, or the number of the fault.
    pub fault: u32,
    /// The address of the fault, for a fault that has one, else 0.
    pub at: u32,
}

/// The number of a file's loaded segments.
#[repr(C)]
#[derive(Clone, Copy)]
pub struct NcSegments {
    /// The number of segments written. If the buffer has no room, the number of all segments. Otherwise 0.
    pub count: usize,
    /// 0, or the number of the fault.
    pub fault: u32,
    /// The number of the program header, counted from 0, whose segment has the fault; else 0.
    pub header: u32,
}
