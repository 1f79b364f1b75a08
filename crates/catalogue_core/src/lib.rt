//! The checkpoints that were finished last.
//!
//! A [`Catalogue`] is a ring of at most eight images, and stands for the list of them, the oldest
//! first. The one contract: it keeps the last eight that were added. [`Catalogue::add`] hands back
//! the image that a ninth pushes out; [`Catalogue::find`] gives the newest of a number among those
//! kept, behind the `Arc` by which those who export it share it, so that an image which was pushed
//! out lives on for as long as someone reads it; and [`Catalogue::list`] tells the numbers and
//! points. `specs/Kept.antt` has the definitions.
//!
//! ```text
//! let mut catalogue = Catalogue::new(alloc)?;
//! for number in 1..=8 {
//!     catalogue.add(image(number));  // None
//! }
//! catalogue.add(image(9));           // Some: the image of number 1
//! catalogue.find(1)                  // None
//! catalogue.list()?                  // 2, .., 9, each with its point
//! ```
//!
//! The room for eight is made by [`Catalogue::new`], so `add` and `find` take no memory; `list`
//! takes some for its answer. `add` takes constant time, but for what whoever drops the image that
//! it hands back spends. `find` and `list` go over at most eight images.
#![tactic(auto)]

mod catalogue;

pub use catalogue::Catalogue;
