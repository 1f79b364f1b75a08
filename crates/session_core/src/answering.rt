//! What answers the lines of a session.
ghost use Rattle.std.specs.Prelude.{◌≡◌, Some};

use crate::admission::Admission;
use base_core::{Moment, User};
use desk_core::{Desk, Pass};
use journal_core::Keeper;
use lexer_core::Token;
use login_core::Beginning;
use reply_core::{Pending, ReplyBuffer};
use std::alloc::Global;

/// What answers the lines of a session.
#[derive(Drop)]
pub(crate) struct Session<'a, K: Keeper + Drop, R, G> {
    pub rt: &'a R,
    pub alloc: Global,
    pub desk: &'a Desk<K>,
    pub pass: &'a mut Pass<K>,
    pub gate: &'a G,
    pub tokens: &'a mut Vec<Token>,
    pub buffer: &'a mut ReplyBuffer,
    pub admission: &'a Admission,
    pub begun: &'a mut Option<Beginning>,
    // What is still to be written of the last reply.
    pub owed: &'a mut Option<Pending>,
    // Whether long replies are only begun.
    pub holds: bool,
    pub user: Option<User>,
    pub over: bool,
    pub unkept: bool,
    pub answered: u64,
    pub moment: Option<Moment>,
    ghost own: { pass.now.lock ≡ Some desk.now },
}
