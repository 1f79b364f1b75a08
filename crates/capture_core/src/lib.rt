//! Checkpoints: the state at one moment, captured while the server goes on.
//!
//! A checkpoint is begun at a point, the number of changes accepted so far. What it is to keep is
//! the [`Image`] of the tables and rights as they are at that call: each table with its owner, its
//! columns and its rows, and the grants in force. Steps take its records, a few at a time, between
//! the statements of users; a record is a row of a table or a grant in force, and a checkpoint has
//! at least one. The step that leaves none hands the image out, behind an `Arc`, so that those who
//! export it share it.
//!
//! A [`Capture`] stands for the number of checkpoints begun so far and, while one is active, for
//! what was taken of it. With what the tables and the rights have still to give, that is the image
//! to come. The one contract: [`Capture::begin`] fixes the image to come as that of the tables and
//! rights at that call, no later change or step changes it, and the step that ends the capture
//! gives it. One capture is active at a time, and a number is never used again, that of a capture
//! that was given up neither. An image answers what stood at its point and what a user held there
//! ([`Image::has`], [`Image::holds`]); [`images_tell_the_same`] says that these are the answers of
//! the tables and the grants themselves. `specs/Image.antt`, `specs/Filling.antt` and
//! `specs/Capturing.antt` have the definitions.
//!
//! ```text
//! let mut capture = Capture::new(alloc);
//! capture.begin(&mut tables, &mut rights, Moment(4), 1_000_000)?;  // 1: t has three rows
//! capture.active()                                // Some((1, Moment(4), 3)): nothing was granted
//! capture.step(&mut tables, &mut rights, 2)?;     // Left(1)
//! tables.delete(t, &[]);
//! capture.step(&mut tables, &mut rights, 2)?;     // Done: the image, with its three rows
//! ```
//!
//! # Mechanism
//!
//! Copy-on-Update, of Cao, Vaz Salles, Sowell, Yue, Demers, Gehrke and White, "Fast checkpoint
//! recovery algorithms for frequently consistent applications", SIGMOD 2011. `begin` copies
//! nothing. From then on the tables and the rights keep what changes before the steps come to it,
//! and a step copies the rest.
//!
//! The rows come table by table, in the order in which the tables were created, and the grants
//! behind them. The rows of a table go straight into the list that its image has of them, with
//! neither name nor number. Where the table has no more to give, it is whole: its name, owner and
//! columns are copied then, which no change alters.
//!
//! ```text
//!               whole            rows             still due
//!          ┌──────────────┐   ┌────────┐   ┌──────────────────────────┐
//! image =  t with its rows     u: 0, 1      u: 2, 3     v: 0     grants
//! ```
//!
//! A step that was refused memory has lost nothing: what it had taken is in its place, as many
//! records are left as before, and the same image is to come.
//!
//! # Cost
//!
//! `begin` and `active` are constant. `abandon` goes over the grants that had still to be taken,
//! and hands what was taken to the caller. A step of k copies k rows and grants at most, and goes
//! on over the tables that become whole with them; with a table goes a copy of its columns. `has`
//! and `owns` go over the image's tables, and `holds` over these and over the fingerprints of its
//! grants, of 4 bytes each. `privileges_given` of the grants goes over these too, and takes memory
//! for what it gives. Of a capture only `step` takes memory, as much as the image has at the end:
//! room for the rows of a table, and for the grants, is made at once, so that no long list is moved
//! as it grows.
#![tactic(auto)]

mod active;
mod capture;
mod filling;
mod granted;
mod image;
mod laws;
mod progress;

pub use active::Active;
pub use capture::Capture;
pub use granted::Grants;
pub use image::{Image, TableImage};
pub use laws::images_tell_the_same;
pub use progress::Progress;
