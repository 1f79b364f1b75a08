//! Rows found by the value of a column, or by an interval of values.
//!
//! An [`Index`] stands for a function from intervals to lists of numbers. Rows are noted under their
//! numbers, each for the value that it has in one column. So the rows whose values are within an
//! [`Interval`] are among those listed, and a search need not go over all rows.
//!
//! The one contract: what was noted is listed, in each interval that its value is within. An index
//! may list more, and nothing is ever taken out: the number of a row that was deleted, or has
//! another value by now, and one that was noted for another value with the same key. So who uses
//! the numbers looks each of them up, and asks the row that it finds for its value.
//!
//! ```text
//! let mut index = Index::new(alloc, Key::Fingerprint);
//! index.note(&ann, 0)?;              // row 0 has the value 'ann'
//! index.note(&bob, 1)?;
//! index.note(&ann, 2)?;
//! let is_ann = Interval::whole().narrowed(Key::Fingerprint, Comparison::Equal, &ann);
//! index.count(is_ann)                // 2
//! index.numbers(is_ann)?             // 0, 2
//!
//! let mut index = Index::new(alloc, Key::Rank);
//! index.note(&seven, 0)?;            // row 0 has the value 7
//! index.note(&five, 1)?;
//! index.note(&nine, 2)?;
//! let from_six = Interval::whole().narrowed(Key::Rank, Comparison::GreaterEqual, &six);
//! index.count(from_six)              // 2
//! index.numbers(from_six)?           // 0, 2
//! ```
//!
//! # Mechanism
//!
//! An index keeps entries, each a number with the key of its value. There are two kinds of keys, of
//! 64 bits each:
//!
//! - **Fingerprints**, for one value at a time. No two numbers have the same. That of a text is
//!   folded from all of its bytes. `=` narrows an interval of them to one.
//! - **Ranks**, for values from one to another. They are in the order of values: that of a number is
//!   how far it is above the lowest, and that of a text its first eight bytes. Texts that begin with
//!   the same eight share a rank, so that an end of an interval lists them all.
//!
//! A new entry goes to a tail in no order. `note` puts a tail of 4,096 entries in order, and
//! `settle` one of more than 64. They sort it together with the shorter ones of the sorted runs
//! that are there into one run, so that each is left at most half as long as the one before it. But
//! no run is made that is longer than 131,072 entries and than a sixteenth of all: such runs stay
//! side by side. A look-up goes by binary search into each run and over all of the tail.
//!
//! ```text
//! noted        3 9 1 7              runs                       tail 3 9 1 7
//! settled                           runs 1 3 7 9               tail
//! noted        8 2                  runs 1 3 7 9               tail 8 2
//! from 7 on                              ... 7 9               8
//! ```
//!
//! # Cost
//!
//! The tail has at most 4,095 entries, and at most 64 once the index was settled. Of n entries there
//! are some log n short runs. Long ones stand side by side: some 16 at two million entries, and as
//! many more each time that n doubles beyond.
//!
//! `count` and the search in `numbers` take a binary search in each run, but in those whose first and
//! last key say that nothing is within, and a walk over the tail. So where keys rise with the rows,
//! as those of serial numbers do, few runs are searched; of other keys all are.
//!
//! What `numbers` does besides grows with how many are listed. Where they were noted in rising
//! order, as those of rows that are inserted are, it only copies them; else it sorts them.
//!
//! `note` takes constant time for most numbers, but for the bytes of a text. Every 4,096th, and
//! `settle`, sort the tail and merge it with short runs, which are in order already: that goes a few
//! times over 131,072 entries at most, or over a sixteenth of all. **No call does more than that.**
//! An entry is merged again some log n times at most.
//!
//! **No choice of values makes a call longer.** Texts can be found that have one fingerprint, or one
//! rank. That makes the lists longer in which they are, and so the look-ups of these texts, which
//! may better go over all rows then. `note` asks nothing of the keys that are there.
//!
//! An entry takes 16 bytes, and as many besides for those that are being sorted. A tail has room for
//! at most twice its entries. `note`, `settle` and `numbers` take memory, and no other call does.
#![tactic(auto)]

mod entry;
mod fingerprint;
mod index;
mod interval;
mod key;
mod outside;
mod rank;
mod rising;
mod run;

pub use index::Index;
pub use interval::Interval;
pub use key::Key;
