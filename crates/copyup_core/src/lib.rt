//! Numbered items: a list whose items keep the numbers that they were given, and a capture of
//! them.
//!
//! A [`Store`] keeps items under numbers that rise and are never given twice. Contracts see it as
//! its `contents`, the items with their numbers in number order; the `next` number, which is above
//! all of them; `rest`, while a capture is active, the items that it has still to give; and
//! `spare`, how many pushes have their room already. `push` appends an item under the next number,
//! `replace` and `remove` change one item of the contents and nothing else, and `retain` takes out
//! those that a [`Sieve`] does not keep. The greatest `u64` is never given as a number: there a
//! push answers `Full`.
//!
//! ```text
//! let mut store = Store::new(alloc);
//! store.push(a)?;                     // 0
//! store.push(b)?;                     // 1
//! store.begin();
//! store.replace(0, x);                // None: the capture keeps a
//! store.remove(1);                    // true
//! store.push(c)?;                     // 2
//! store.next_from(1);                 // Some((2, &c))
//! store.capture_step(&mut out, 5)?;   // 2: a and b, as they were
//! ```
//!
//! A caller who must not fail half way asks for room first: once `reserve` of k has answered Ok, k
//! pushes can't be refused memory. Whatever the other calls do in between, `spare` doesn't fall.
//!
//! # How a capture works
//!
//! A capture gives the items as they were when it began, a few at a time, while the store goes on
//! to change: Copy-on-Update, of Cao, Vaz Salles, Sowell, Yue, Demers, Gehrke and White, "Fast
//! checkpoint recovery algorithms for frequently consistent applications", SIGMOD 2011.
//!
//! Each item stands in a slot. The slots are parallel arrays:
//!
//! - `entries`, a number and a value for each slot.
//! - `states`, a byte for each slot: `Live`, `Dead` or `Gone`. A removal only writes this byte, so
//!   nothing is moved. A slot is `Gone` if a capture still wants the item that was removed.
//! - `kept`, the replaced values that a capture still wants, each at the place of its slot. It ends
//!   behind the last of these slots, and is empty as long as nothing was replaced.
//!
//! `begin` only notes that a walk over the slots has to be made. The first change to a slot that the
//! walk has not come to puts its item by, and copies nothing: a replaced value moves to `kept`, and
//! a removed one stays where it is. The steps copy the items, k at a time, and let go of what was
//! put by.
//!
//! ```text
//! begin                   a step of 1 gives a        replace(2, x), remove(3), push(e)
//!
//! entries 0a 1b 2c 3d     0a 1b 2c 3d                0a   1b   2x   3d   4e
//! states  Live, each      Live, each                 Live Live Live Gone Live
//! kept    empty           empty                      -    -    c
//! walk    |---------|        |------|                     |----------|
//!
//! a step of 3 gives b, c and d: what is kept, or else the value of what is not dead
//! ```
//!
//! So nothing that is called between `begin` and the end changes what is captured. The clauses of
//! the calls say it of each, and [`what_was_there_is_captured`] of whole runs of them.
//!
//! # Cost
//!
//! With n the slots:
//!
//! - `new`, `starting_at`, `len`, `spare`, `begin`, `active` and `left` are constant.
//! - `get` and `replace` look first where the number stands if no slot was dropped between the
//!   first one and it, which is constant. Elsewhere they search, with the logarithm of n.
//! - `next_from` does the same, and then passes over the dead slots up to the item that it finds.
//! - A `replace` whose old value a capture wants also fills `kept` up to its slot. Each place is
//!   filled once, until dead slots are dropped.
//! - `items` and `retain` go over all slots once. They read the states, and the entries of those
//!   that are live.
//! - `push` is constant and `remove` a look-up, but for moves of slots now and then, which come to
//!   a constant for each call: to remove all items, one by one, grows with how many there are.
//! - `capture_step` of k copies k items at most, and passes over the dead slots between them. The
//!   one that ends the capture does no more.
//! - `abandon` goes over the slots that the walk has still to come to.
//! - A store that has to grow does so by an eighth of its slots at least. Pushed one by one, items
//!   leave no more than that idle.
//!
//! Dead slots are dropped once more than half are dead: by `remove`, by `retain`, and by a push
//! that finds no room. So n is at most twice the items and one more. While a capture is active no
//! slot is moved, so there n grows with the pushes, and the dead slots that are left behind it
//! wait for the next of these calls. A dead slot holds its value until it is dropped.
//!
//! A slot takes its entry and one byte: 17 bytes, where a number and a value are 16. Room for
//! `kept` is asked for with the room of a slot, so no later call has to ask for it, but it is not
//! written before something is replaced. A system that gives out a page when it is first written
//! gives none for it. After a capture in which values were replaced, an empty `Option` for each
//! slot up to the last of them stays there, until dead slots are dropped.
//!
//! `push`, `reserve` and `capture_step` take memory, and no other call does. `specs/Holding.antt`
//! and `specs/Calls.antt` have the definitions.
#![tactic(auto)]

mod fault;
mod items;
mod laws;
mod lists;
mod sieve;
mod slots;
mod state;
mod store;
mod walk;
mod window;

pub use fault::PushFault;
pub use items::Items;
pub use laws::what_was_there_is_captured;
pub use sieve::Sieve;
pub use store::Store;
