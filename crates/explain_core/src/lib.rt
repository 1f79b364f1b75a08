//! Why a right is held, or how it was lost: the provenance of rights.
//!
//! A [`History`] stands for a list of changes of rights, as an authority accepted them. It knows of
//! each single grant that was ever made how long it stood, its [`Life`]: when it fell, and when its
//! option ended. So [`why`](History::why) answers for any user and privilege. He owns the table; or
//! he holds the privilege by a chain of grants in force, from the owner down to him; or he lacks
//! it, and then each grant of it that was ever made to him has fallen, and
//! [`descent`](History::descent) leads from the REVOKE that it fell by down to it.
//!
//! ```text
//! let history = History::read(alloc, changes)?;     // o: GRANT SELECT ON t TO a WITH GRANT OPTION
//! history.why(alloc, &b, &select)?                  // a: GRANT SELECT ON t TO b
//!                                                   // Holds { chain: [o -> a @2, a -> b @3] }
//! ```
//!
//! **The one contract.** Of each grant, the first moment at which it was no longer in force is that
//! of the replay of the changes up to there (Griffiths and Wade 1976, Fagin 1978): `lives_of` in
//! `specs/Lives.antt`. All else is told by it: chains in `specs/Chains.antt`, falls in
//! `specs/Falls.antt`, and what would take a privilege away in `specs/Cuts.antt`. What a further
//! revocation would do is what the history with it tells: [`taken_at`](History::taken_at) of its
//! moment.
//!
//! # Mechanism
//!
//! A grant ends when it is struck, or when its grantor may no longer have made it. It is struck by
//! the first later REVOKE that names it: one walk over the changes, from the last to the first,
//! finds that for all. And its grantor could have made it for as long as one of the earlier grants
//! to him kept its option. So it is enough to know the one that keeps it longest, its support. A
//! second walk, from the first grant to the last, has for each user and privilege the one that has
//! the longest so far. The supports make a forest: chains and descents are its branches.
//!
//! # Cost
//!
//! To read a history takes a look-up by a hash for each grant, and for each atom and user that a
//! revocation names: so it grows with the grants that were made and named, whatever fell. It takes
//! memory for each of them. A question about one user goes over all lives once; a chain costs its
//! length. A cut goes over the lives once for each grantor of a chain, and once for each grantee of
//! the one whom it names.
#![tactic(auto)]

mod alternative;
mod chains;
mod coming;
mod cut;
mod falls;
mod history;
pub mod laws;
mod life;
mod made;
mod supports;
mod taking;
mod users;
mod why;

pub use alternative::{Alternative, Missing, alternatives};
pub use cut::Cut;
pub use history::History;
pub use life::Life;
pub use taking::{Taking, at_moment};
pub use users::Users;
pub use why::Why;
