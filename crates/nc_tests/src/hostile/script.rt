//! A script of every request, with its replies, and lines of chunks with theirs.

/// A chunk is created, walked, deleted and reclaimed in a region of four bundles with one seat; other lines are refused. The last
/// line has no line end.
pub(crate) const SCRIPT: &[u8] =
    b"create 00010000 eb1e909090909090909090909090909090909090909090909090909090909090\n\
create 00010000 eb1e909090909090909090909090909090909090909090909090909090909090\n\
walk 00010000 00000000 00000000\n\
dump\n\
delete 00010000\n\
walk 00010000 00000000\n\
dump\n\
reclaim\n\
checkin 0\n\
reclaim\n\
dump\n\
checkin 1\n\
create 00010000 -\n\
create 00010000 9\n\
\n\
leave 0";

pub(crate) const REPLIES: &[u8] = b"ok\n\
refused Occupied\n\
walk 00010000 00010020 stop\n\
dump 00010000 live eb1e909090909090909090909090909090909090909090909090909090909090\n\
stamp 1\n\
walk 00010000 stop\n\
dump 00010000 retired 32 1\n\
freed 0\n\
ok\n\
freed 1\n\
dump\n\
refused NoSeat\n\
refused BadLength\n\
bad line\n\
bad line\n\
ok\n";

/// Two lines of chunks, of which the second has an address that is no bundle start, with their verdicts.
pub(crate) const CHUNKS: &[u8] =
    b"00010000 9090909090909090909090909090909090909090909090909090909090909090\n\
00010001 9090909090909090909090909090909090909090909090909090909090909090\n";

pub(crate) const VERDICTS: &[u8] = b"ok\nrefused BadBase\n";

/// The number of line ends.
pub(crate) fn line_ends(bytes: &[u8]) -> usize {
    let mut count = 0usize;
    for byte in bytes {
        if *byte == b'\n' {
            count = count.wrapping_add(1);
        }
    }
    count
}

/// The first lines, with their ends.
pub(crate) fn first_lines(bytes: &[u8], lines: usize) -> &[u8] {
    let mut left = lines;
    for i in 0..bytes.len() {
        if left == 0 {
            return &bytes[..i];
        }
        if bytes[i] == b'\n' {
            left = left.saturating_sub(1);
        }
    }
    bytes
}

/// The replies to the lines of the script that end in these first bytes of it.
pub(crate) fn replies_to(front: &[u8]) -> &'static [u8] {
    first_lines(REPLIES, line_ends(front))
}
