//! Why a request or a chunk is refused, by its reply.

/// A fault by its name in a reply, and the words before and after its address. The name of a fault with an address ends with a space.
struct Refusal {
    name: &'static [u8],
    before: &'static str,
    after: &'static str,
}

/// A fault without an address, before it has a name.
const PLAIN: Refusal = Refusal {
    name: b"",
    before: "",
    after: "",
};

/// All refusals.
#[rattlefmt::skip]
static REFUSALS: [Refusal; 18] = [
    Refusal { name: b"BadBase", before: "the address of a chunk is a multiple of 32, at least 00010000", ..PLAIN },
    Refusal { name: b"BadLength", before: "a chunk has whole bundles of 32 bytes, at least one", ..PLAIN },
    Refusal { name: b"OutOfRange", before: "the chunk extends into the region's last bundle, or beyond it", ..PLAIN },
    Refusal { name: b"NotPermitted ", before: "no permitted instruction begins at ", ..PLAIN },
    Refusal { name: b"Crosses ", before: "the instruction at ", after: " crosses the end of its bundle" },
    Refusal { name: b"Bare ", before: "the indirect jump or call at ", after: " doesn't directly follow the mask of its register in the same bundle" },
    Refusal { name: b"BadTarget ", before: "the target of the direct jump or call at ", after: " isn't permitted" },
    Refusal { name: b"Occupied", before: "the span overlaps another chunk, live or deleted", ..PLAIN },
    Refusal { name: b"BadSpan", before: "a patch has at least one byte, and lies in one bundle", ..PLAIN },
    Refusal { name: b"NotLive", before: "the address isn't in a live chunk", ..PLAIN },
    Refusal { name: b"NotPermitted", before: "the bytes aren't whole permitted instructions", ..PLAIN },
    Refusal { name: b"Boundaries", before: "the new instructions don't replace whole instructions of the same lengths", ..PLAIN },
    Refusal { name: b"PairTouched", before: "the mask of an indirect jump or call would change, or such a jump or call would come, go or change its register", ..PLAIN },
    Refusal { name: b"BadTarget", before: "a direct jump or call would have a target that isn't permitted", ..PLAIN },
    Refusal { name: b"NoChunk", before: "no live chunk begins at that address", ..PLAIN },
    Refusal { name: b"GensFull", before: "the last stamp has been drawn", ..PLAIN },
    Refusal { name: b"NoSeat", before: "there is no such seat, or its thread has left", ..PLAIN },
    Refusal { name: b"NotBundle", before: "a walk begins at a bundle start of the region", ..PLAIN },
];

impl Refusal {
    /// The address in a fault, or nothing in one that has none, if it is this one.
    fn address<'a>(&self, fault: &'a [u8]) -> Option<&'a [u8]> {
        let rest = fault.strip_prefix(self.name)?;
        if rest.is_empty() || self.name.ends_with(b" ") {
            Some(rest)
        } else {
            None
        }
    }
}

/// The words about a fault, before and after its address, and the address. There is none for a reply that is no refusal.
pub(crate) fn refusal_in(reply: &[u8]) -> Option<(&'static str, &str, &'static str)> {
    let fault = reply.strip_prefix(b"refused ".as_slice())?;
    for refusal in &REFUSALS {
        if let Some(address) = refusal.address(fault) {
            return Some((refusal.before, str::from_utf8(address).ok()?, refusal.after));
        }
    }
    None
}
