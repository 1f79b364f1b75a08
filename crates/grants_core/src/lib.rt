//! Delegated rights as System R has them: who owns a table, which grants are in force, and what a
//! revocation takes away (Griffiths and Wade 1976, Fagin 1978).
//!
//! A [`Grant`] is one privilege on one table, given by one user to another at one moment, with or
//! without the option to grant it on. One that is made again is one more grant. A grant is in force
//! where its grantor could make it: he owns the table, or another grant in force gave him the
//! privilege with the option at an earlier moment. So after a revocation exactly those grants are
//! in force that would be if the revoked ones had never been made. The option can be revoked alone:
//! the grant itself stays, and exactly those are in force that would be if it had been made without
//! the option. No grant of the user who revokes it falls, so whoever is named keeps the privilege.
//! Whatever falls would fall too if the grant itself were revoked.
//!
//! An [`Authority`] keeps this. Contracts see it as its `content`: the owners, the list of grants
//! in force, and how many were ever made. Each of its changes says what it makes of that content,
//! and each of its tests what it answers by it. [`Replay`] is the plain authority: it keeps the
//! grants in force, and forgets those that fall. [`audit`] compares a list of grants with what a
//! list of [`Change`]s leaves in force, by definitions that know no authority; the [`laws`] say that
//! the two tell the same, change by change. A [`Key`] is a privilege as a key of a map, a
//! [`Holding`] a user's privilege, and [`Granted`] who gave it to him. [`KeptGrants`] are the valid
//! ones of grants that are told one by one.
//!
//! ```text
//! let mut rights = Replay::new(alloc);
//! rights.create(t, o)?;                                   // moment 1
//! rights.grant(o, &[select], &[a], true, Moment(2))?;
//! rights.grant(a, &[select], &[b], false, Moment(3))?;
//! rights.revoke(o, &[select], &[a]);                      // moment 4
//! rights.holds(b, &select)                                // false: a could not have granted it
//! ```
//!
//! How cost grows, with n the grants in force ([`Owners`] finds a table by a hash of its name):
//!
//! - `owns` is a look-up of the owner. `holds` and `may_grant` are one too, and go over n at most;
//!   `has_made`, `has_optioned`, `room` and `in_force` go over n. The grants have no index.
//! - `create` is a look-up, and `grant` one for each atom; it makes a grant for each atom and user.
//! - `revoke` compares each of n with the atoms and users that it names. Then each that is left
//!   looks its owner up, and looks for its support among those kept before it. So it grows with the
//!   square of n at worst, however few it takes out, and takes no memory. What fell before costs
//!   nothing. `revoke_option` does the same.
//! - `audit` goes over the changes once, and then over the single grants that they make. It makes
//!   a look-up by a hash of the names for each atom and user that a revocation names, and at most
//!   seven for each single grant: so it grows with the single grants made and named, whatever is in
//!   force. It takes memory for each that was made, and for each grantor, privilege and grantee
//!   that a revocation names.
#![tactic(auto)]

mod authority;
mod grant;
mod grants;
mod history;
mod kept;
mod key;
pub mod laws;
mod log;
mod owners;
mod replay;
mod revocations;
mod singles;
mod support;

pub use authority::Authority;
pub use grant::{Change, Grant, Ownership};
pub use history::audit;
pub use kept::KeptGrants;
pub use key::{Granted, Holding, Key};
pub use owners::Owners;
pub use replay::Replay;
pub use revocations::{Revocations, note_revocation, noted_revocation};
pub use singles::single_grants;
