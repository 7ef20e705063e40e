//! What each refusal means, in plain words, and how to build code without it. `docs/GUIDE.md` says more about each.

/// Bytes that are not a permitted instruction, and not in the table of advice either.
pub(crate) const GENERAL: &[u8] =
    b"no permitted instruction begins here: see the table in docs/GUIDE.md; if these bytes are data, keep them out of the code";

/// The code begins as an ELF file does.
pub(crate) const ELF_FILE: &[u8] =
    b"this is an ELF file, not raw code: judge it without --raw, or take its code with objcopy -O binary -j .text";
/// The code begins as an archive does.
pub(crate) const ARCHIVE: &[u8] =
    b"this is an archive, not code: link it with nc-cc, and judge the linked file";
/// The code begins as a text does.
pub(crate) const TEXT: &[u8] =
    b"this is text, not code: compile or assemble it with nc-cc, and judge the linked file";
/// The code begins as a module of WebAssembly does.
pub(crate) const WEB_ASSEMBLY: &[u8] =
    b"this is WebAssembly, not x86 code: compile its source with nc-cc";
/// The code begins as a file compressed by gzip does.
pub(crate) const GZIP: &[u8] =
    b"this is compressed, not code: decompress it with gzip -d, and judge what comes out";
/// The code begins as a Mach-O file does.
pub(crate) const MACH_O: &[u8] = b"this is a Mach-O file, for macOS: compile its source with nc-cc";
/// The code is a PE file.
pub(crate) const WINDOWS: &[u8] = b"this is a PE file, for Windows: compile its source with nc-cc";
/// The code is hexadecimal text.
pub(crate) const HEXADECIMAL: &[u8] =
    b"this is hexadecimal text, not code: turn it into bytes with xxd -r -p, and judge these";
/// There is no code.
pub(crate) const EMPTY_FILE: &[u8] =
    b"the file is empty: a chunk has at least one bundle of 32 bytes";
/// The base is refused.
pub(crate) const BAD_BASE: &[u8] =
    b"the code must begin at a multiple of 32, at 00010000 or above: link it there (nc-cc --base); for raw code give the address with --base";
/// The length is refused.
pub(crate) const BAD_LENGTH: &[u8] =
    b"the code is not whole bundles of 32 bytes: link it with nc-cc or chunk.ld, or fill the last bundle with 90 (nop)";
/// The code doesn't fit into the region.
pub(crate) const OUT_OF_RANGE: &[u8] =
    b"the code reaches the region's last bundle, the guard, or beyond: link it lower (nc-cc --base)";
/// An instruction is cut by the end of its bundle.
pub(crate) const CROSSES: &[u8] =
    b"an instruction crosses the end of its bundle: put the code in bundles with nc-cc or .bundle_align_mode 5, or add nops before it";
/// The end of a bundle cuts a prefix off its instruction.
pub(crate) const CUT_PREFIX: &[u8] =
    b"a prefix is the last byte of its bundle: compile with nc-cc, or write rep movsl, not rep; movsl, and assemble with .bundle_align_mode 5";
/// An indirect transfer without its mask.
pub(crate) const BARE: &[u8] =
    b"an indirect jump or call without its mask: compile with nc-cc, or put andl $-32 on its register directly before it, in its bundle; see docs/GUIDE.md";
/// A direct transfer whose target is not allowed.
pub(crate) const BAD_TARGET: &[u8] =
    b"a direct jump or call must go to the start of an instruction that is no second half of a pair, or out of the code to a bundle start below the region's end; a wrong --base shows as this fault too";
/// A target at the end of the region or beyond it.
pub(crate) const BEYOND_REGION: &[u8] = b"beyond the end of the region";
/// A target in the trampoline zone, below the region, that is not a bundle start.
pub(crate) const IN_ZONE: &[u8] = b"in the trampoline zone, not at a bundle start";
/// A target in the region and outside the code that is not a bundle start.
pub(crate) const OUTSIDE_CODE: &[u8] = b"outside the code, not at a bundle start";
/// A target that is a later byte of an instruction, whose address follows these words.
pub(crate) const INSIDE: &[u8] = b"inside the instruction at ";
/// A target that is a masked transfer. The address of its mask follows these words.
pub(crate) const SECOND_HALF: &[u8] = b"the second half of the pair whose mask begins at ";
/// There was no memory.
pub(crate) const NO_MEMORY: &[u8] = b"there was no memory for vetting";

pub(crate) const RETURN: &[u8] =
    b"a return (ret): compile with nc-cc, or pop the address into a register, mask it, and jump through it; see docs/GUIDE.md";

pub(crate) const FAR: &[u8] =
    b"a far transfer (lcall, ljmp, lret, iret): use near calls and jumps, and a masked jump in place of a return";

pub(crate) const CALL_THROUGH_MEMORY: &[u8] =
    b"a call through memory: compile with nc-cc, or load the address into a register, mask it, and call through it; see docs/GUIDE.md";

pub(crate) const JUMP_THROUGH_MEMORY: &[u8] =
    b"a jump through memory: compile with nc-cc, or load the address into a register, mask it, and jump through it; see docs/GUIDE.md";

pub(crate) const FLOATING_POINT: &[u8] =
    b"x87 floating point, or sahf or lahf: compile with nc-cc, or with -mno-80387 -msoft-float";

pub(crate) const VECTOR: &[u8] =
    b"a vector instruction (SSE, MMX): compile with nc-cc, or with -mno-sse -mno-mmx";

pub(crate) const AVX: &[u8] = b"an AVX or XOP instruction: compile with -march=i686 -mno-sse";

pub(crate) const STATE: &[u8] =
    b"a save or load of floating-point or vector state, or a cache flush (fxsave, ldmxcsr, xsave, clflush): compile with -mno-sse, or call the host";

pub(crate) const PREFETCH: &[u8] = b"a prefetch: it is only a hint, so remove __builtin_prefetch";

pub(crate) const FENCE: &[u8] =
    b"a fence (mfence, lfence, sfence): use a locked instruction, as gcc does with -march=i686";

pub(crate) const SYSTEM_CALL: &[u8] =
    b"a system call or a software interrupt (int, into, bound, syscall, sysenter): call the host through a trampoline";

pub(crate) const TRAP: &[u8] =
    b"a breakpoint or an undefined instruction (int3, int1, ud0, ud1): use ud2 or hlt, which trap too";

pub(crate) const CLOCK: &[u8] =
    b"a read of a clock, a counter or a random number (rdtsc, rdpmc, rdrand): call the host through a trampoline";

pub(crate) const PRIVILEGED: &[u8] =
    b"an instruction for devices or for the operating system (in, out, cli, rdmsr): call the host through a trampoline";

pub(crate) const ENTRY_MARK: &[u8] =
    b"a mark of control-flow enforcement (endbr32, notrack): compile with nc-cc, or with -fcf-protection=none";

pub(crate) const PAUSE: &[u8] =
    b"pause (rep; nop): it is only a hint, so use nop; if rep belongs to a later instruction, write both as one statement (rep movsl)";

pub(crate) const TRAILING_ZEROS: &[u8] =
    b"tzcnt or lzcnt (rep bsf, rep bsr): use bsf or bsr; compile with -march=i686";

pub(crate) const POPULATION: &[u8] = b"popcnt: compile with -march=i686";

pub(crate) const LATER: &[u8] =
    b"an instruction of later processors (movbe, crc32, SSSE3, SSE4): compile with -march=i686 -mno-sse";

pub(crate) const PADDING: &[u8] =
    b"padding in a form that is not permitted: compile with nc-cc, or assemble with as -n, and name the byte that fills: .p2align 5, 0x90";

pub(crate) const SEGMENT: &[u8] =
    b"a segment prefix (stack protector, thread-local variable, call *%gs:16, branch hint): compile with nc-cc or -fno-stack-protector, without thread-local variables, and call the host through a trampoline";

pub(crate) const SEGMENT_REGISTER: &[u8] =
    b"a segment register is loaded, stored, pushed or popped: remove it, since segments are the host's";

pub(crate) const ADDRESS_SIZE: &[u8] =
    b"16-bit addressing (prefix 67): use 32-bit addresses, and jecxz in place of jcxz";

pub(crate) const POP_MEMORY: &[u8] = b"a pop into memory: pop into a register, then store it";

pub(crate) const FRAME: &[u8] = b"enter: use push, mov and sub";

pub(crate) const FLAGS: &[u8] = b"pushf or popf: keep a flag with setcc";

pub(crate) const ALL_REGISTERS: &[u8] = b"pusha or popa: push and pop single registers";

pub(crate) const TABLE_BYTE: &[u8] = b"xlat: use movzbl";

pub(crate) const LOCK: &[u8] =
    b"lock, where it is not permitted: write prefix and instruction as one statement (lock cmpxchgl, not lock; cmpxchgl), with an operand in memory of 8 or 32 bits and no other prefix";

pub(crate) const REPEAT: &[u8] =
    b"rep or repne, where it is not permitted: write prefix and instruction as one statement (rep movsl, not rep; movsl), with no other prefix";

pub(crate) const OPERAND_SIZE: &[u8] =
    b"an operand-size prefix (66), where it is not permitted: use the form with 32-bit operands";
