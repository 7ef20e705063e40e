//! The laws of closed and of confined texts.

ghost use Rattle.std.specs.Prelude.{◌≡◌, ℕ, ◌+◌, ◌%◌, ◌<◌, ◌≤◌, List, [], ◌∷◌, ◌++◌, length, None};
ghost use Rattle.nc_decode.specs.declared.instruction.Mark.{Mark};
ghost use Rattle.nc_text.specs.Headline.{Stands};
ghost use Rattle.nc_text.specs.Machine.{IsConfined, IsPath, State, Step, state};
ghost use Rattle.nc_text.specs.Marks.{IsClosed};

/// A text that is closed under some marks is confined: every state of every path that begins at a bundle start of the
/// region with nothing masked is safe. Its place has a permitted instruction wholly inside its bundle, with its register
/// just masked if it is an indirect transfer, or is a bundle start below 00010000. Calling this law does nothing.
pub fn law_of_closed()
    ensures { (text : List ℕ) (marks : List Mark) → IsClosed text marks → IsConfined text }
{}

/// The consequence of confinement in the words of the headline, and the paths that there are. Calling this law does nothing.
///
/// A path may begin at any bundle start of the region with nothing masked, and may continue by any step. In a confined text
/// the place of each of its states is a bundle start below 00010000, or has a permitted instruction wholly inside its bundle.
/// That instruction isn't barred, so it is no return and no interrupt, and has no segment override. If it is an indirect
/// transfer, its register has just been masked.
pub fn law_of_paths()
    ensures stands { (text : List ℕ) (before after : List State) (now : State) → IsConfined text
        → IsPath text (before ++ now ∷ after) → Stands text now }
    ensures begins { (text : List ℕ) (at : ℕ) → 0x10000 ≤ at → at < 0x10000 + length text → at % 32 ≡ 0
        → IsPath text (state at None ∷ []) }
    ensures goes_on { (text : List ℕ) (before : List State) (now next : State) → IsPath text (before ++ now ∷ [])
        → Step text now next → IsPath text (before ++ now ∷ next ∷ []) }
{}
