//! The permitted instructions as an automaton that reads one byte at a time.
//!
//! Its states are those of `states`. A state from `END` on says what has just been read: a mask and its register, a direct
//! transfer and the size of its displacement, an indirect transfer with its mask, or none of these. `law_of_automaton` says
//! what a run of it means.
//!
//! The macros generate its table at compile time from the opcode maps of `table`. Nobody need trust them: the table is
//! proved equal, entry by entry, to what each state expects, in the terms of the decoder.

ghost use Rattle.std.specs.Prelude.{◌≡◌, ◌<◌};
ghost use Rattle.nc_decode.specs.Automaton.{next_state};

use crate::states::State;
use crate::states::State::*;
use crate::table::{one_byte, two_byte};
use std::marker::Model;

/// The length of a row of the table.
const ROW: usize = 257;

/// The number of states.
pub const STATES: usize = AFTER_PAIR as usize + 1;
/// No permitted instruction begins with these bytes.
pub const DEAD: u8 = State::Dead as u8;
/// After an instruction, and at the start of a bundle. All states from here on are after an instruction.
pub const END: u8 = State::End as u8;
/// After the mask of register 0; the masks of 1, 2, 3, 5, 6 and 7 follow.
pub const AFTER_MASK: u8 = State::AfterMask0 as u8;
/// After a direct transfer with a displacement of one byte.
pub const AFTER_SHORT: u8 = State::AfterShort as u8;
/// After a direct transfer with a displacement of four bytes.
pub const AFTER_NEAR: u8 = State::AfterNear as u8;
/// After an indirect transfer with its mask.
pub const AFTER_PAIR: u8 = State::AfterPair as u8;

/// The place of a state's row.
macro_rules! row {
    ($state:expr) => { 257 * ($state as u16) };
}

/// The state after an opcode with this entry, with no prefix (0) or after 66 (1), F3 (2), F2 (3) or F0 (4).
#[rattlefmt::skip]
macro_rules! kind {
    //                                     none         66           F3    F2    F0
    // No opcode, and opcodes with nothing after them.
    (NO $prefix:tt)   => { column!($prefix Dead,        Dead,        Dead, Dead, Dead) };
    (OP $prefix:tt)   => { column!($prefix End,         Dead,        Dead, Dead, Dead) };
    (TRAP $prefix:tt) => { column!($prefix End,         Dead,        Dead, Dead, Dead) };
    (OPV $prefix:tt)  => { column!($prefix End,         End,         Dead, Dead, Dead) };
    (STR $prefix:tt)  => { column!($prefix End,         Dead,        End,  Dead, Dead) };
    (STRV $prefix:tt) => { column!($prefix End,         End,         End,  Dead, Dead) };
    (SCN $prefix:tt)  => { column!($prefix End,         Dead,        End,  End,  Dead) };
    (SCNV $prefix:tt) => { column!($prefix End,         End,         End,  End,  Dead) };
    // Prefixes, and 0F.
    (P66 $prefix:tt)  => { column!($prefix After66,     Dead,        Dead, Dead, Dead) };
    (PF3 $prefix:tt)  => { column!($prefix AfterF3,     Dead,        Dead, Dead, Dead) };
    (PF2 $prefix:tt)  => { column!($prefix AfterF2,     Dead,        Dead, Dead, Dead) };
    (PF0 $prefix:tt)  => { column!($prefix AfterF0,     Dead,        Dead, Dead, Dead) };
    (ESC $prefix:tt)  => { column!($prefix After0F,     After66_0F,  Dead, Dead, AfterF0_0F) };
    // A number directly after the opcode.
    (IB $prefix:tt)   => { column!($prefix Left1,       Dead,        Dead, Dead, Dead) };
    (IBV $prefix:tt)  => { column!($prefix Left1,       Left1,       Dead, Dead, Dead) };
    (IZV $prefix:tt)  => { column!($prefix Left4,       Left2,       Dead, Dead, Dead) };
    (OFF $prefix:tt)  => { column!($prefix Left4,       Dead,        Dead, Dead, Dead) };
    (OFFV $prefix:tt) => { column!($prefix Left4,       Left4,       Dead, Dead, Dead) };
    (JCCB $prefix:tt) => { column!($prefix Short,       Dead,        Dead, Dead, Dead) };
    (JMPB $prefix:tt) => { column!($prefix Short,       Dead,        Dead, Dead, Dead) };
    (JCCZ $prefix:tt) => { column!($prefix Near4,       Dead,        Dead, Dead, Dead) };
    (JMPZ $prefix:tt) => { column!($prefix Near4,       Dead,        Dead, Dead, Dead) };
    (CALL $prefix:tt) => { column!($prefix Near4,       Dead,        Dead, Dead, Dead) };
    // ModRM.
    (M $prefix:tt)    => { column!($prefix Any,         Dead,        Dead, Dead, Dead) };
    (MV $prefix:tt)   => { column!($prefix Any,         Any,         Dead, Dead, Dead) };
    (ML $prefix:tt)   => { column!($prefix Any,         Dead,        Dead, Dead, Memory) };
    (MVL $prefix:tt)  => { column!($prefix Any,         Any,         Dead, Dead, Memory) };
    (MIBV $prefix:tt) => { column!($prefix AnyByte,     AnyByte,     Dead, Dead, Dead) };
    (MIZV $prefix:tt) => { column!($prefix AnyLong,     AnyWord,     Dead, Dead, Dead) };
    (LEA $prefix:tt)  => { column!($prefix Memory,      Memory,      Dead, Dead, Dead) };
    (NOPV $prefix:tt) => { column!($prefix Nop,         Nop,         Dead, Dead, Dead) };
    (G1 $prefix:tt)   => { column!($prefix AnyByte,     Dead,        Dead, Dead, Group1LockedByte) };
    (G1Z $prefix:tt)  => { column!($prefix AnyLong,     AnyWord,     Dead, Dead, Group1LockedLong) };
    (G1V $prefix:tt)  => { column!($prefix After83,     AnyByte,     Dead, Dead, Group1LockedByte) };
    (G2 $prefix:tt)   => { column!($prefix Group2,      Dead,        Dead, Dead, Dead) };
    (G2V $prefix:tt)  => { column!($prefix Group2,      Group2,      Dead, Dead, Dead) };
    (G2I $prefix:tt)  => { column!($prefix Group2Byte,  Dead,        Dead, Dead, Dead) };
    (G2IV $prefix:tt) => { column!($prefix Group2Byte,  Group2Byte,  Dead, Dead, Dead) };
    (G3 $prefix:tt)   => { column!($prefix Group3Byte,  Dead,        Dead, Dead, Group3LockedByte) };
    (G3V $prefix:tt)  => { column!($prefix Group3Long,  Group3Word,  Dead, Dead, Group3LockedLong) };
    (G4 $prefix:tt)   => { column!($prefix Group4,      Dead,        Dead, Dead, Group4Locked) };
    (G5 $prefix:tt)   => { column!($prefix Group5,      Group5,      Dead, Dead, Group4Locked) };
    (G8 $prefix:tt)   => { column!($prefix Group8Byte,  Group8Byte,  Dead, Dead, Group8LockedByte) };
    (G9 $prefix:tt)   => { column!($prefix Group9,      Dead,        Dead, Dead, Group9) };
    (G11 $prefix:tt)  => { column!($prefix Group11Byte, Dead,        Dead, Dead, Dead) };
    (G11V $prefix:tt) => { column!($prefix Group11Long, Group11Word, Dead, Dead, Dead) };
}

/// The state in the column of this number.
#[rattlefmt::skip]
macro_rules! column {
    (0 $state:ident, $b:ident, $c:ident, $d:ident, $e:ident) => { row!($state) };
    (1 $a:ident, $state:ident, $c:ident, $d:ident, $e:ident) => { row!($state) };
    (2 $a:ident, $b:ident, $state:ident, $d:ident, $e:ident) => { row!($state) };
    (3 $a:ident, $b:ident, $c:ident, $state:ident, $e:ident) => { row!($state) };
    (4 $a:ident, $b:ident, $c:ident, $d:ident, $state:ident) => { row!($state) };
}

/// The states after each opcode of a map, with the prefix of this number.
macro_rules! opcodes {
    (($prefix:tt) $($entry:ident,)*) => { [$(kind!($entry $prefix),)* 0] };
}

/// The states after each opcode of a map with no prefix, except that FF leads to this state.
macro_rules! after_mask {
    (($transfer:tt) $($entry:ident,)*) => { [$(after_mask!($entry $transfer),)* 0] };
    (G5 $transfer:tt) => { row!($transfer) };
    ($entry:ident $transfer:tt) => { kind!($entry 0) };
}

/// The state by the form of ModRM: not permitted (O), permitted (X), permitted with no number (N), or by rm.
#[rattlefmt::skip]
macro_rules! form {
    (O $rm:tt $state:tt $none:tt) => { row!(Dead) };
    (X $rm:tt $state:tt $none:tt) => { row!($state) };
    (N $rm:tt $state:tt $none:tt) => { row!($none) };
    ([$($by_rm:tt)*] $rm:tt $state:tt $none:tt) => { row!([$($by_rm),*][$rm]) };
}

/// The states after ModRM, by the length of the number at the end, and by reg with an operand in memory and in a register.
#[rattlefmt::skip]
macro_rules! modrm {
    (none $m:tt $r:tt) => { modrm!(End   Left1 Left2 Left4 Left5 Sib     $m $r) };
    (byte $m:tt $r:tt) => { modrm!(Left1 Left2 Left3 Left5 Left6 SibByte $m $r) };
    (word $m:tt $r:tt) => { modrm!(Left2 Left3 Left4 Left6 Left7 SibWord $m $r) };
    (long $m:tt $r:tt) => { modrm!(Left4 Left5 Left6 Left8 Left9 SibLong $m $r) };
    // The states with 0, 1, 2, 4 and 5 bytes still before the number, and with SIB still before it and mod 0.
    ($a:tt $b:tt $c:tt $d:tt $e:tt $s:tt [$($m:tt)*] [$($r:tt)*]) => { [
        $(form!($m 0 $a End), form!($m 0 $a End), form!($m 0 $a End), form!($m 0 $a End),
          form!($m 0 $s Sib), form!($m 0 $d Left4), form!($m 0 $a End), form!($m 0 $a End),)*
        $(form!($m 0 $b Left1), form!($m 0 $b Left1), form!($m 0 $b Left1), form!($m 0 $b Left1),
          form!($m 0 $c Left2), form!($m 0 $b Left1), form!($m 0 $b Left1), form!($m 0 $b Left1),)*
        $(form!($m 0 $d Left4), form!($m 0 $d Left4), form!($m 0 $d Left4), form!($m 0 $d Left4),
          form!($m 0 $e Left5), form!($m 0 $d Left4), form!($m 0 $d Left4), form!($m 0 $d Left4),)*
        $(form!($r 0 $a End), form!($r 1 $a End), form!($r 2 $a End), form!($r 3 $a End),
          form!($r 4 $a End), form!($r 5 $a End), form!($r 6 $a End), form!($r 7 $a End),)* 0
    ] };
}

/// The states after ModRM of FF; for an indirect transfer they depend on rm.
macro_rules! transfer {
    ($($by_rm:tt)*) => { modrm!(none [X X O O O O X O] [X X [$($by_rm)*] O [$($by_rm)*] O X O]) };
}

/// The states after the immediate byte of a possible mask: masked if it is E0.
#[rattlefmt::skip]
macro_rules! mask_number {
    ($masked:tt) => { modrm!(End End End End End End [X X X X X X X X] [X X X X [$masked End End End End End End End] X X X]) };
}

/// The states after SIB with mod 0: the base 5 takes four more bytes.
#[rattlefmt::skip]
macro_rules! sib {
    ($n:tt $four:tt) => { sib!($n $four X X X X X X X X X X X X X X X X X X X X X X X X X X X X X X X X) };
    ($n:tt $four:tt $($x:tt)*) => { [$(form!($x 0 $n Dead), form!($x 1 $n Dead), form!($x 2 $n Dead), form!($x 3 $n Dead),
        form!($x 4 $n Dead), form!($x 5 $four Dead), form!($x 6 $n Dead), form!($x 7 $n Dead),)* 0] };
}

/// The places of the rows of the next states, by state and byte. Each row ends with a 0 that is never read: so the low byte of a
/// place is the number of the state.
#[rattlefmt::skip]
pub(crate) static ROWS: [[u16; ROW]; STATES] = [
    /* Dead             */ [row!(Dead); ROW],
    // An opcode is next.
    /* After66          */ one_byte!(opcodes 1),
    /* AfterF3          */ one_byte!(opcodes 2),
    /* AfterF2          */ one_byte!(opcodes 3),
    /* AfterF0          */ one_byte!(opcodes 4),
    /* After0F          */ two_byte!(opcodes 0),
    /* After66_0F       */ two_byte!(opcodes 1),
    /* AfterF0_0F       */ two_byte!(opcodes 4),
    // ModRM is next.
    /* Group4Locked     */ modrm!(none [X X O O O O O O] [O O O O O O O O]),
    /* Group3LockedByte */ modrm!(byte [O O N N O O O O] [O O O O O O O O]),
    /* Group3LockedLong */ modrm!(long [O O N N O O O O] [O O O O O O O O]),
    /* Group1LockedByte */ modrm!(byte [X X X X X X X O] [O O O O O O O O]),
    /* Group1LockedLong */ modrm!(long [X X X X X X X O] [O O O O O O O O]),
    /* Group8LockedByte */ modrm!(byte [O O O O O X X X] [O O O O O O O O]),
    /* Memory           */ modrm!(none [X X X X X X X X] [O O O O O O O O]),
    /* Nop              */ modrm!(none [X O O O O O O O] [X O O O O O O O]),
    /* Group11Byte      */ modrm!(byte [X O O O O O O O] [X O O O O O O O]),
    /* Group11Word      */ modrm!(word [X O O O O O O O] [X O O O O O O O]),
    /* Group11Long      */ modrm!(long [X O O O O O O O] [X O O O O O O O]),
    /* Group4           */ modrm!(none [X X O O O O O O] [X X O O O O O O]),
    /* Group5           */ modrm!(none [X X O O O O X O] [X X O O O O X O]),
    /* Group2           */ modrm!(none [X X X X X X O X] [X X X X X X O X]),
    /* Group2Byte       */ modrm!(byte [X X X X X X O X] [X X X X X X O X]),
    /* Group8Byte       */ modrm!(byte [O O O O X X X X] [O O O O X X X X]),
    /* Group3Byte       */ modrm!(byte [X O N N N N N N] [X O N N N N N N]),
    /* Group3Word       */ modrm!(word [X O N N N N N N] [X O N N N N N N]),
    /* Group3Long       */ modrm!(long [X O N N N N N N] [X O N N N N N N]),
    /* Any              */ modrm!(none [X X X X X X X X] [X X X X X X X X]),
    /* AnyByte          */ modrm!(byte [X X X X X X X X] [X X X X X X X X]),
    /* AnyWord          */ modrm!(word [X X X X X X X X] [X X X X X X X X]),
    /* AnyLong          */ modrm!(long [X X X X X X X X] [X X X X X X X X]),
    /* After83          */ modrm!(byte [X X X X X X X X] [X X X X [Mask0 Mask1 Mask2 Mask3 Left1 Mask5 Mask6 Mask7] X X X]),
    // Inside a possible mask, and inside an indirect transfer directly after a mask.
    /* Mask0            */ mask_number!(AfterMask0),
    /* Mask1            */ mask_number!(AfterMask1),
    /* Mask2            */ mask_number!(AfterMask2),
    /* Mask3            */ mask_number!(AfterMask3),
    /* Mask5            */ mask_number!(AfterMask5),
    /* Mask6            */ mask_number!(AfterMask6),
    /* Mask7            */ mask_number!(AfterMask7),
    /* Pair0            */ transfer!(AfterPair Dead Dead Dead Dead Dead Dead Dead),
    /* Pair1            */ transfer!(Dead AfterPair Dead Dead Dead Dead Dead Dead),
    /* Pair2            */ transfer!(Dead Dead AfterPair Dead Dead Dead Dead Dead),
    /* Pair3            */ transfer!(Dead Dead Dead AfterPair Dead Dead Dead Dead),
    /* Pair5            */ transfer!(Dead Dead Dead Dead Dead AfterPair Dead Dead),
    /* Pair6            */ transfer!(Dead Dead Dead Dead Dead Dead AfterPair Dead),
    /* Pair7            */ transfer!(Dead Dead Dead Dead Dead Dead Dead AfterPair),
    // After ModRM.
    /* Sib              */ sib!(End Left4),
    /* SibByte          */ sib!(Left1 Left5),
    /* SibWord          */ sib!(Left2 Left6),
    /* SibLong          */ sib!(Left4 Left8),
    /* Left1            */ [row!(End); ROW],
    /* Left2            */ [row!(Left1); ROW],
    /* Left3            */ [row!(Left2); ROW],
    /* Left4            */ [row!(Left3); ROW],
    /* Left5            */ [row!(Left4); ROW],
    /* Left6            */ [row!(Left5); ROW],
    /* Left7            */ [row!(Left6); ROW],
    /* Left8            */ [row!(Left7); ROW],
    /* Left9            */ [row!(Left8); ROW],
    // A direct transfer's displacement.
    /* Short            */ [row!(AfterShort); ROW],
    /* Near1            */ [row!(AfterNear); ROW],
    /* Near2            */ [row!(Near1); ROW],
    /* Near3            */ [row!(Near2); ROW],
    /* Near4            */ [row!(Near3); ROW],
    // ModRM again.
    /* Group9           */ modrm!(none [O X O O O O O O] [O O O O O O O O]),
    // An instruction begins.
    /* End              */ one_byte!(opcodes 0),
    /* AfterMask0       */ one_byte!(after_mask Pair0),
    /* AfterMask1       */ one_byte!(after_mask Pair1),
    /* AfterMask2       */ one_byte!(after_mask Pair2),
    /* AfterMask3       */ one_byte!(after_mask Pair3),
    /* AfterMask5       */ one_byte!(after_mask Pair5),
    /* AfterMask6       */ one_byte!(after_mask Pair6),
    /* AfterMask7       */ one_byte!(after_mask Pair7),
    /* AfterShort       */ one_byte!(opcodes 0),
    /* AfterNear        */ one_byte!(opcodes 0),
    /* AfterPair        */ one_byte!(opcodes 0),
];

/// A state of the automaton. It is kept as the place of its row in the flattened table, so that reading a byte takes a sum and a
/// look-up, and no product.
#[derive(Drop)]
pub struct Row {
    place: usize,
}

impl Model for Row {
    ghost use Rattle.std.specs.Prelude.{ℕ, ◌≡◌, ◌<◌, ◌/◌, ◌%◌};
    ghost use Rattle.nc_decode.specs.declared.automaton.TheConstants.{STATES};

    ghost Value = { ℕ };

    ghost view = { λ r. r.place / 257 };

    ghost invariant = { λ r. (r.place % 257 ≡ 0) × (r.place / 257 < STATES) };
}

impl Row {
    /// The state in which each bundle begins. It is also the state after an instruction that masks nothing and isn't a transfer.
    #[inline(always)]
    pub fn start() -> Row
        ensures { result ≡ END }
    {
        Row {
            place: ROW * END as usize,
        }
    }

    /// The state after one more byte.
    ///
    /// The byte is added to the table's address first, so that from state to state there is only a look-up.
    #[inline(always)]
    pub fn next(&self, byte: u8) -> Row
        ensures { result ≡ next_state self.now byte }
    {
        let place = ROWS.as_flattened()[byte as usize..][self.place];
        Row {
            place: usize::from(place),
        }
    }

    /// The number of the state.
    #[inline(always)]
    pub fn state(&self) -> u8
        ensures { result ≡ self.now }
    {
        (self.place % 256) as u8
    }
}
