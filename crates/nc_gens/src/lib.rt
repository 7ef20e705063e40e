//! The table of generations, which decides when a deleted span of code may be used again.
//!
//! A thread that runs untrusted code may be inside a span that is being deleted. The span is therefore only retired, with a generation as
//! its stamp, and is reclaimed once every thread has been quiescent (outside the code region) since. [`Gens`] holds the generation and one
//! word for each seat. A thread that holds a [`Pass`] checks in while it is outside, without a lock. The writer holds the [`Keeper`], draws
//! stamps by `bump`, and learns by `look` up to which generation every seat has checked in or left.
//!
//! The rule of the table says that there is a *trail*: the atomic steps on its words (`WordStep`) in their order, which lead to the numbers
//! that every token knows. Each pass and the keeper recall the part up to their own last step. The contract of each call but `leave` says
//! which steps it added, and its loads find what the steps before them have left.
//!
//! Native Client deletes dynamic code in this way (Ansel et al. 2011, "Language-independent sandboxing of just-in-time compilation and
//! self-modifying code"); the technique is quiescent-state-based reclamation. A pass stores only to its own seat's word, and only the
//! keeper changes the generation. Nothing here waits. Once every seat has checked in since a stamp, or has left, the next look shows it
//! ([`law_of_progress`]). A seat that neither checks in nor leaves holds back every later stamp for good.
//!
//! `table` has the types, and `opening` creates them. `keeper` and `pass` have the calls of these two tokens, and `meeting` that of
//! both. `view` says what each token knows about the words, and `steps` has the atomic steps, which change that. `progress` is the law,
//! and `fault` has the refusals.
#![tactic(auto)]

mod fault;
mod keeper;
mod meeting;
mod opening;
mod pass;
mod progress;
mod steps;
mod table;
mod view;

pub use fault::{GensFault, GensFull};
pub use keeper::LAST_GENERATION;
pub use opening::{MOST_SEATS, are_seats};
pub use progress::law_of_progress;
pub use table::{Gens, Keeper, Pass};
pub use view::{KeeperNumbers, PassNumbers, WordStep};
