//! A turn lock: threads share one object, and each call is one event of one history.
//!
//! A [`Turnstile`] stands for a turn lock round an [`Object`], a value with a log to which each act
//! adds one entry at most. Contracts see which turnstile it is, how many passes it has, what its
//! turns are counted from, and the part of the object that no act changes. It is made with all its
//! [`Pass`]es, from 1 to 64, one for each thread. A pass stands for what its holder knows: its
//! number, the beginning of the history that it has seen, a lower bound of the object's mark, how
//! many turns it drew, and how many turns it knows to be drawn by all. What a pass made are the
//! entries of what it has seen that bear its number. A [`Note`] stands for what a pass had seen
//! when it gave the note.
//!
//! The object may come with a log. Then each pass has seen it from the start, and its entries are
//! counted to the passes whose numbers they bear.
//!
//! **The one contract.** A [`turn`](Turnstile::turn) finds the object no older than all that its
//! pass had seen and lets it act once, and the pass has then seen it as the turn left it. A
//! [`note`](Turnstile::note) carries what one pass has seen to another, which
//! [`meet`](Turnstile::meet)s it. With all its passes, and only with them,
//! [`close`](Turnstile::close) gives the object: its log begins with what each pass has seen, its
//! entries are just those that the passes made, and no pass knows of more turns than they drew.
//!
//! ```text
//! let (turnstile, mut passes) = Turnstile::build(alloc, Tally::new(alloc, 100), 2)?;
//! let mut second = passes.pop()?;
//! let mut first = passes.pop()?;
//! turnstile.turn(&rt, &mut first, true);   // Ok(Some(0)): the entries are [0]
//! let note = turnstile.note(&mut first);
//! turnstile.meet(&mut second, note);       // the second pass has now seen [0]
//! turnstile.turn(&rt, &mut second, true);  // Ok(Some(1)): the entries are [0, 1]
//! passes.push(first)?;
//! passes.push(second)?;
//! turnstile.close(passes)                  // Ok: the tally with the entries [0, 1]
//! ```
//!
//! **How it works.** There are two words and one slot. The ticket word counts the turns drawn, the
//! served word says which turn is served, and the slot has the object, from the start on. So the
//! passes have seen its log when they are dealt: a snapshot of the object, which has no bytes, is
//! part of what the table is told when it is made. A turn raises the ticket
//! word by one, and what it found there is its ticket. It reads the served word until that is its
//! ticket. A thread at most two turns away spins for some microseconds, about as long as a wake
//! takes, before it sleeps; any other sleeps at once. Each sleeps on its own bell. Bells carry no
//! meaning in the proof. Then it takes the object out of the slot, lets it act, gives
//! it back, raises the served word by one, and rings the bells of the next three tickets, so that
//! each is awake by the time that it is near its turn. The stretch between taking the object and
//! giving it back is the event, and its entry
//! joins the history as the served word rises. No other lock stands beside it, and between two
//! calls a pass holds neither a ticket nor the object.
//!
//! Turns are counted from the start that the turnstile was made with, 0 by
//! [`build`](Turnstile::build). Once the count is 2^62, each turn answers [`Worn`], and none does
//! before.
//!
//! **Cost.** Only making a turnstile takes memory, beside what the object's acts take. A turn that
//! nobody contends costs six atomic steps and two moves of the object, and no call of the system. A
//! turn that ends makes one for each of the next three tickets whose thread may sleep, and wakes
//! nobody else.
//! A note costs one atomic step, a meeting two, and closing one for each pass.
//!
//! **Not promised**: that a turn comes or ends, how long it waits, fairness, or any order between
//! passes that never met. An act that does not return keeps all other turns waiting.
#![tactic(auto)]

mod bells;
mod law;
mod object;
mod pass;
mod plays;
mod tally;
mod turnstile;
mod view;

pub use object::Object;
pub use pass::{Note, Pass};
pub use tally::Tally;
pub use turnstile::{Turnstile, Worn};
