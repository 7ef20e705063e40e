//! An example of a host's own acts: each byte that a region puts is also stored in the host's memory.
//!
//! `Region` puts its bytes into a text that no processor runs. `RegionOf<A>` reaches its text only through a value that implements `Acts`,
//! so stores into executable memory belong there; its calls are proved for every `Acts`. `Recorder` of `nc_region` writes each act down.
//!
//! [`Image`] has memory of its own. By its ghost field `same` the memory holds the bytes of the region's text after every act. Memory that
//! threads execute needs atomic stores instead: a compiler may drop or merge plain ones. About memory that is not one of Rattle's lists, a
//! contract knows only what you declare.
//!
//! What an implementation of `Acts` has to know:
//!
//! - `logged` is a ghost list of all acts and serializations. Over a `Plain` it is that of the `Plain`, as here. Without a `Plain`, keep a
//!   `Log` as a private field, and note each act and each serialization in it. `Note::Creation` notes a `put_bundles`. `Note::Stops`
//!   notes a `stop_span`, by the marks of a `Text`; without one, note each entry by itself.
//! - `serialize` is called where a barrier belongs, `ready` before the first put into a span, `bump` after the last stop of a deletion.
//! - `marked_places`, which patches call for each instruction, asks for each mark of the bundle unless you forward it.
//! - A creation calls `put_bundles`, which returns false unless you override it, and then `put_where`, `serialize` and `mark_span`. `Image`
//!   doesn't override it. The marks are then written out as a list, for a chunk of at most 512 bytes on the stack, where they take 1 KB. A
//!   deletion calls `stop_span`, which calls `stop_where` and `serialize`. `put_where` and `stop_where` call `put` for each byte. So a host
//!   whose stores are in `put` needs no other.
//! - If you override one of these four, store each byte by itself in your memory, in the order of the entries that the method logs, and
//!   serialize at each `Serialized` among them. In this order the text is closed after each store. Then hand the call on to a `Plain`. It
//!   makes the whole change in its own text at once. No processor runs that text. A `put_bundles` or a `stop_span` that is handed on alone
//!   leaves your memory as it was.
//! - `RegionOf::over` requires a new text (`IsNew`), and `SharedOf::over` the table of the region's keeper. So a constructor needs a clause
//!   about each (`made` and `keeper` of `Image::new`).
//!
//! `examples/mapped` is a host whose `Acts` reach executable memory by C functions (`main.rt.txt`, `memory.c`). C functions are trusted:
//! their clauses are axioms, and a false one proves anything; those of the example have none. The proofs are about the text of `Plain`.
//! That the memory holds the same bytes is argued, since each put is made in both. `rt ci` always refuses C, so `tests/nc_host/mapped`
//! proves and runs the example in a copy of the repository, with `RT_ALLOW_C`.

ghost use Rattle.std.specs.Prelude.{◌≡◌, ◌↔◌, OnOk, IfOk, IfErr};
ghost use Rattle.nc_decode.specs.Bundles.{IsLawfulLimit, limit_after};
ghost use Rattle.nc_text.specs.MarkedText.{unused_text};

use nc_decode::{BUNDLE, Mark, START, STOP};
use nc_gens::{Gens, GensFull, Keeper, Pass};
use nc_region::{Acts, Plain, RegionFault};
use nc_text::{Text, TextFault};
use std::alloc::Global;
use std::fmt;

/// A text, and a host's memory, which holds the same bytes after every act.
///
/// Here the memory is a list of bytes. In a real host it is the memory that the threads execute: pages mapped twice, writable
/// through an address that only the host has, and executable for the untrusted code.
#[derive(Drop)]
pub struct Image<'g> {
    plain: Plain<'g>,
    memory: Vec<u8>,
    ghost same: { memory.items ≡ plain.marked.bytes },
}

impl<'g> Image<'g> {
    /// A new text, and memory that like it holds only stops.
    pub fn new(
        alloc: Global,
        bundles: u32,
        gens: &'g Gens,
        keeper: Keeper,
    ) -> Result<Image<'g>, RegionFault>
        requires { keeper.table ≡ gens.now }
        ensures made { IfOk result (λ i. i.plain.marked ≡ unused_text (limit_after bundles)) }
        ensures keeper { IfOk result (λ i. i.plain.keeper ≡ keeper) }
        // The size is refused exactly if it is unlawful.
        ensures lawful { OnOk result (IsLawfulLimit (limit_after bundles)) }
        ensures size { IfErr result (λ e. (e ≡ RegionFault.BadSize) ↔ ¬ IsLawfulLimit (limit_after bundles)) }
    {
        match Text::new(alloc, bundles) {
            Ok(text) => Image::over(alloc, bundles, Plain::new(text, gens, keeper)),
            Err(TextFault::BadSize) => Err(RegionFault::BadSize),
            Err(TextFault::OutOfMemory) => Err(RegionFault::OutOfMemory),
        }
    }

    /// A new text, and memory of this many bundles.
    fn over(alloc: Global, bundles: u32, plain: Plain<'g>) -> Result<Image<'g>, RegionFault>
        requires { plain.marked ≡ unused_text (limit_after bundles) }
        ensures plain { IfOk result (λ i. i.plain ≡ plain.entry) }
        ensures fault { IfErr result (λ e. e ≡ RegionFault.OutOfMemory) }
    {
        match Vec::from_elem(alloc, STOP, bundles as usize * BUNDLE as usize) {
            Ok(memory) => Ok(Image { plain, memory }),
            Err(_) => Err(RegionFault::OutOfMemory),
        }
    }

    /// The host's memory. It always holds the bytes of the region.
    pub fn memory(&self) -> &[u8]
        ensures { result.now ≡ self.now.plain.marked.bytes }
    {
        &self.memory
    }
}

/// Shows the first two bytes of the memory.
impl<'g> fmt::Display for Image<'g> {
    fn fmt<W: fmt::Write>(&self, f: &mut fmt::Formatter<W>) -> fmt::Result {
        match self.memory() {
            [first, second, ..] => write!(f, "{first:02x} {second:02x}"),
            _ => Ok(()),
        }
    }
}

impl<'g> Acts for Image<'g> {
    ghost marked = { λ i. i.plain.marked };

    ghost made = { λ i. i.plain.made };

    ghost keeper = { λ i. i.plain.keeper };

    ghost logged = { λ i. i.plain.entries };

    fn ready(&mut self, at: u32, len: u32) -> Result<(), TextFault> {
        self.plain.ready(at, len)
    }

    fn is_ready(&self, at: u32, len: u32) -> bool {
        self.plain.is_ready(at, len)
    }

    // A host has its own byte store here. This one is a plain store into a list, since nothing executes these bytes.
    fn put(&mut self, at: u32, byte: u8) {
        self.memory[(at - START) as usize] = byte;
        self.plain.put(at, byte);
    }

    // A host has its own means here: every processor that runs one of its threads must serialize before this returns.
    fn serialize(&mut self) {
        self.plain.serialize();
    }

    // It takes no bits, so a creation's marks come as a list: `put_bundles` is the trait's.
    fn mark_span(&mut self, at: u32, marks: &[Mark]) {
        self.plain.mark_span(at, marks);
    }

    fn unmark_span(&mut self, at: u32, len: u32) {
        self.plain.unmark_span(at, len);
    }

    fn byte(&self, at: u32) -> u8 {
        self.plain.byte(at)
    }

    fn limit(&self) -> u32 {
        self.plain.limit()
    }

    fn mark(&self, at: u32) -> Mark {
        self.plain.mark(at)
    }

    fn bump(&mut self) -> Result<u64, GensFull> {
        self.plain.bump()
    }

    fn look(&mut self) -> u64 {
        self.plain.look()
    }

    fn meet(&mut self, pass: &mut Pass) {
        self.plain.meet(pass);
    }

    fn generation(&self) -> u64 {
        self.plain.generation()
    }
}
