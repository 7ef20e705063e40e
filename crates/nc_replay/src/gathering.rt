//! Whether replies may be written together.

ghost use Rattle.std.specs.Prelude.{◌≤◌};

use std::fs;
use std::rt::Files;

/// The most bytes of replies that are held back and written together.
const MOST_HELD: usize = 65_536;

/// The flags of an open file for which it matters how bytes are divided into writes: `O_NONBLOCK` of Linux, with which writes don't
/// wait until there is room, and `O_DIRECT`, with which each write to a pipe is a packet of its own.
const DIVIDED: u32 = 0o4000 | 0o40000;

/// The flags of an open file, from what Linux says of it: a line with `flags:` and an octal number (`proc_pid_fdinfo(5)`).
fn flags_in(info: &str) -> Option<u32> {
    for line in info.lines() {
        if let Some(flags) = line.strip_prefix("flags:") {
            return u32::from_str_radix(flags.trim(), 8).ok();
        }
    }
    None
}

/// How many bytes of replies may be held back and written together.
///
/// A write to a pipe that waits until there is room loses nothing by being long: all of it goes out, or nobody reads any more. A
/// file takes as much of a write as it has room for. But a pipe that doesn't block takes a write of at most 4,096 bytes whole or
/// not at all, so replies written together would be lost if there is room for only some of them. So none are held back if
/// standard output doesn't block, if it is a pipe of packets, or if the system doesn't say.
pub fn most_held<R: Files + AllocGlobal>(rt: &R) -> usize
    ensures { result ≤ 65_536 }
{
    let Ok(info) = fs::read_to_string(rt, "/proc/self/fdinfo/1") else {
        return 0;
    };
    match flags_in(&info) {
        Some(flags) if flags & DIVIDED == 0 => MOST_HELD,
        _ => 0,
    }
}
