//! The desk: a core that threads share.
//!
//! A [`Desk`] is a core behind a turn lock, with a keeper of its changes. It is made of any core in
//! which no checkpoint was begun, with all its [`Pass`]es, one for each thread, and stands for how
//! many they are, with the chunk and the limits of its core and the number of entries that its
//! journal had at first. A pass stands for what its holder knows: his number, the beginning of the
//! journal that he has seen, and how many checkpoints he knows to be begun. At first that is the
//! journal of the core. What he made are the entries there that bear his number.
//!
//! **The one contract.** [`Desk::execute`] is one step of the core, in a turn of its own, and so are
//! [`Desk::describe`], [`Desk::checkpoint_turn`] and [`Desk::abandon_turn`]. There was a lawful world
//! that has all that the pass had seen; the reply is that of a step from there; the pass has then seen
//! the world after it, and has made the entry of a change that was done, and nothing else. A
//! [`note`](Desk::note) carries what one pass has seen to another, which [`meet`](Desk::meet)s it.
//! [`Desk::close`] gives the core, with all passes and only with them: it stands for a lawful world
//! whose journal begins with what each pass has seen, and has just the entries that they made. So
//! no change is lost, doubled or invented, over whatever order in which the threads come. Once 2^62
//! turns were drawn each call is refused with `Worn`, and none is before.
//!
//! **Kept before it is told.** A change is kept in the turn that enters it, before its reply is
//! answered. So where a reply that tells of a change was answered in a turn, all that was entered
//! since the desk was built is kept, in order and each once. A change that could not be kept stays
//! entered, its reply is withheld ([`Unkept`]), and the keeper owes what is left of it. From then on
//! each further change first has the keeper settle that: until it does, no change is entered, and
//! the reply to each is withheld; all else is answered. [`Desk::close`] gives the keeper too, which
//! has tried once more.
//!
//! ```text
//! let system = System::new(alloc, 16)?;
//! let (desk, mut passes) = Desk::build(alloc, system, NoKeeper, 2)?;
//! let mut second = passes.pop()?;
//! let mut first = passes.pop()?;
//! desk.execute(&rt, &mut first, ann, create)?;    // Done { at: Moment(1) }
//! let note = desk.note(&mut first);
//! desk.meet(&mut second, note);
//! desk.execute(&rt, &mut second, ann, select)?;   // Rows, at moment 1 or later
//! ```
//!
//! # Mechanism
//!
//! The turn lock is the turnstile's; a turn does one step of the core and keeps its change, and
//! reads or writes nothing else, nor waits for anything else. Nothing else is locked. Behind each step
//! of the checkpointer the [`Size`](system_core::Size) of the core is noted, which [`Desk::size`] tells.
//!
//! # Cost
//!
//! A turn costs what the core's step and its keeper do, two moves of a pointer to the core and of
//! the keeper, and six atomic steps.
#![tactic(auto)]

mod desk;
mod last_size;
mod object;

pub use desk::{Desk, Note, Pass};
pub use journal_core::Unkept;
pub use object::{Basis, Look};
