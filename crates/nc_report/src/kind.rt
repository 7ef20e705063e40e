//! The kinds of refused instructions, and the words about each.

use crate::words::*;

/// A kind of instruction that isn't permitted.
#[derive(Clone, Copy)]
pub(crate) enum Kind {
    /// Nothing more is known.
    General,
    /// RET, also with a prefix.
    Return,
    /// A far transfer: to another segment, or IRET.
    Far,
    /// A call whose address is in memory.
    CallThroughMemory,
    /// A jump whose address is in memory.
    JumpThroughMemory,
    /// x87 floating point, and the instructions that move its flags: SAHF and LAHF.
    FloatingPoint,
    /// SSE, SSE2, SSE3, MMX or 3DNow.
    Vector,
    /// AVX, AVX-512 or XOP.
    Avx,
    /// FXSAVE, FXRSTOR, LDMXCSR, STMXCSR, XSAVE and related instructions, CLFLUSH.
    State,
    /// A prefetch.
    Prefetch,
    /// LFENCE, MFENCE or SFENCE.
    Fence,
    /// INT, INTO, BOUND, SYSCALL, SYSENTER and the returns from them.
    SystemCall,
    /// INT3, INT1, UD0 or UD1.
    Trap,
    /// RDTSC, RDTSCP, RDPMC, RDRAND, RDSEED.
    Clock,
    /// IN, OUT, and instructions that only the operating system may execute or has a use for.
    Privileged,
    /// ENDBR32 or ENDBR64, or an indirect transfer with the prefix NOTRACK.
    EntryMark,
    /// PAUSE.
    Pause,
    /// TZCNT or LZCNT.
    TrailingZeros,
    /// POPCNT.
    Population,
    /// MOVBE, CRC32, SSSE3, SSE4 and the like: the opcodes of three bytes.
    Later,
    /// A long nop, or LEA as one, in a form that isn't permitted.
    Padding,
    /// A segment prefix.
    Segment,
    /// A segment register moved, pushed, popped or loaded with a pointer.
    SegmentRegister,
    /// The prefix 67.
    AddressSize,
    /// POP into memory.
    PopMemory,
    /// ENTER.
    Frame,
    /// PUSHF or POPF.
    Flags,
    /// PUSHA or POPA.
    AllRegisters,
    /// XLAT.
    TableByte,
    /// The prefix F0 where it isn't permitted.
    Lock,
    /// The prefixes F2 and F3 where they aren't permitted.
    Repeat,
    /// The prefix 66 where it isn't permitted.
    OperandSize,
}

impl Kind {
    /// The words about this kind: what it is, and how to build code without it.
    pub fn words(self) -> &'static [u8] {
        match self {
            Kind::General => GENERAL,
            Kind::Return => RETURN,
            Kind::Far => FAR,
            Kind::CallThroughMemory => CALL_THROUGH_MEMORY,
            Kind::JumpThroughMemory => JUMP_THROUGH_MEMORY,
            Kind::FloatingPoint => FLOATING_POINT,
            Kind::Vector => VECTOR,
            Kind::Avx => AVX,
            Kind::State => STATE,
            Kind::Prefetch => PREFETCH,
            Kind::Fence => FENCE,
            Kind::SystemCall => SYSTEM_CALL,
            Kind::Trap => TRAP,
            Kind::Clock => CLOCK,
            Kind::Privileged => PRIVILEGED,
            Kind::EntryMark => ENTRY_MARK,
            Kind::Pause => PAUSE,
            Kind::TrailingZeros => TRAILING_ZEROS,
            Kind::Population => POPULATION,
            Kind::Later => LATER,
            Kind::Padding => PADDING,
            Kind::Segment => SEGMENT,
            Kind::SegmentRegister => SEGMENT_REGISTER,
            Kind::AddressSize => ADDRESS_SIZE,
            Kind::PopMemory => POP_MEMORY,
            Kind::Frame => FRAME,
            Kind::Flags => FLAGS,
            Kind::AllRegisters => ALL_REGISTERS,
            Kind::TableByte => TABLE_BYTE,
            Kind::Lock => LOCK,
            Kind::Repeat => REPEAT,
            Kind::OperandSize => OPERAND_SIZE,
        }
    }
}
