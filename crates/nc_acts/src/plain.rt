//! The acts of a region over a text and a keeper.

ghost use Rattle.std.specs.Prelude.{◌≡◌, []};
ghost use Rattle.std.specs.Arc.{arc_value};

use crate::acts::{Act, Acts, Entry};
use crate::log::{Log, Note};
use nc_decode::{Bundle, Mark};
use nc_gens::{Gens, GensFull, Keeper, Pass};
use nc_text::{Text, TextFault};
use std::alloc::Global;
use std::marker::Model;
use std::sync::Arc;

/// A borrow or a share of a table of generations.
pub trait GensRef {
    ghost use Rattle.atomic_table.specs.Seated.{TableId};

    /// Which table it is.
    ghost table: { Self → TableId };

    /// The table.
    fn gens(&self) -> &Gens
        ensures { result.now ≡ table self.now };
}

impl<'g> GensRef for &'g Gens {
    ghost table = { λ gens. gens.now };

    fn gens(&self) -> &Gens {
        self
    }
}

impl GensRef for Arc<Gens, Global> {
    ghost table = { λ gens. arc_value gens };

    fn gens(&self) -> &Gens {
        self
    }
}

/// A text beside a reference to a table of generations and the table's keeper. The log of its acts has no bytes.
#[derive(Drop)]
pub struct PlainOf<G: GensRef + Drop> {
    text: Text,
    gens: G,
    keeper: Keeper,
    log: Log,
}

/// A text beside a borrowed table of generations and its keeper.
pub type Plain<'g> = PlainOf<&'g Gens>;

impl<G: GensRef + Drop> Model for PlainOf<G> {
    ghost use Rattle.std.specs.Prelude.{◌≡◌};
    ghost use Rattle.nc_acts.specs.Plain.{PlainState};

    ghost Value = { PlainState };

    ghost view = { λ p. record { marked = p.text.marked; made = p.text.made; keeper = p.keeper; entries = p.log.entries } };

    ghost invariant = { λ p. p.keeper.table ≡ G.table p.gens };
}

impl<'g> PlainOf<&'g Gens> {
    /// The table of generations, for as long as it is borrowed.
    pub fn gens(&self) -> &'g Gens
        ensures { result.now ≡ self.now.keeper.table }
    {
        self.gens
    }
}

impl<G: GensRef + Drop> PlainOf<G> {
    /// This text, beside this table and its keeper, each changed only by its own calls.
    pub fn new(text: Text, gens: G, keeper: Keeper) -> PlainOf<G>
        requires { keeper.table ≡ G.table gens }
        ensures { result ≡ record { marked = text.marked; made = text.made; keeper = keeper; entries = [] } }
    {
        PlainOf {
            text,
            gens,
            keeper,
            log: Log::new(),
        }
    }

    /// The text.
    pub fn text(&self) -> &Text
        ensures marked { result.now.marked ≡ self.now.marked }
        ensures made { result.now.made ≡ self.now.made }
    {
        &self.text
    }
}

impl<G: GensRef + Drop> Acts for PlainOf<G> {
    ghost marked = { λ p. p.marked };

    ghost made = { λ p. p.made };

    ghost keeper = { λ p. p.keeper };

    ghost logged = { λ p. p.entries };

    fn ready(&mut self, at: u32, len: u32) -> Result<(), TextFault> {
        self.text.ready(at, len)
    }

    fn is_ready(&self, at: u32, len: u32) -> bool {
        self.text.is_ready(at, len)
    }

    fn put(&mut self, at: u32, byte: u8) {
        self.text.put(at, byte);
        self.log.note(&Note::One(Entry::Did(Act::Put(at, byte))));
    }

    fn stop_span(&mut self, at: u32, len: u32) {
        // Called for its postconditions.
        let _facts = self.text.limit();
        self.text.stop_span(at, len);
        self.log.note(&Note::Stops(at, len, &self.text));
    }

    fn serialize(&mut self) {
        // Called for its postconditions.
        let _facts = self.text.limit();
        self.log.note(&Note::One(Entry::Serialized));
    }

    fn mark_span(&mut self, at: u32, marks: &[Mark]) {
        self.text.mark_span(at, marks);
        self.log.note(&Note::One(Entry::Did(Act::MarkSpan(at, marks.len() as u32))));
    }

    fn put_bundles(&mut self, at: u32, code: &[u8], bundles: &[Bundle]) -> bool {
        // Called for its postconditions.
        let _facts = self.text.limit();
        self.text.put_bundles(at, code, bundles);
        self.log.note(&Note::Creation(at, code));
        true
    }

    fn unmark_span(&mut self, at: u32, len: u32) {
        self.text.unmark_span(at, len);
        self.log
            .note(&Note::One(Entry::Did(Act::UnmarkSpan(at, len))));
    }

    fn byte(&self, at: u32) -> u8 {
        self.text.byte(at)
    }

    fn limit(&self) -> u32 {
        self.text.limit()
    }

    fn mark(&self, at: u32) -> Mark {
        self.text.mark(at)
    }

    fn marked_places(&self, at: u32) -> u32 {
        self.text.marked_places(at)
    }

    fn bump(&mut self) -> Result<u64, GensFull> {
        let drawn = self.gens.gens().bump(&mut self.keeper);
        if drawn.is_ok() {
            self.log.note(&Note::One(Entry::Did(Act::Bump)));
        }
        drawn
    }

    fn look(&mut self) -> u64 {
        self.log.note(&Note::One(Entry::Did(Act::Look)));
        self.gens.gens().look(&mut self.keeper)
    }

    fn meet(&mut self, pass: &mut Pass) {
        self.gens.gens().meet(pass, &mut self.keeper);
    }

    fn generation(&self) -> u64 {
        self.keeper.generation()
    }
}
