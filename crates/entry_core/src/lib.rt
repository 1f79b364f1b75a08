//! How a session of PostgreSQL's messages begins, and by what right it is its user's.
//!
//! What a client sends first names a user: [`user_named`] says which. What comes of it hangs on how sessions
//! come by their users: by the [`Entry`] of [`entry_of`] he is welcome, has to log in, or may not come in. A
//! login is SCRAM-SHA-256 in two messages of the type `p`. [`begin_login`] takes the body of the first, and its
//! [`FirstStep`] is the login that this begins. [`end_login`] takes the body of the last, and its [`LastStep`] is
//! the user whom that proves the client to be, with the answer to it. Nothing is written here: these are values,
//! and a caller sends what they say.
//!
//! ```text
//! match entry_of(&admission, user_named(&parameters)) {      // user=Ann and database=pay name ann
//!     Entry::Login(name) => ..,                              // offer SCRAM-SHA-256
//!     ..
//! }
//! match begin_login(alloc, users, &secret, &own, name, first_body) {
//!     FirstStep::Challenged(begun) => ..,                    // send begun.server_first()
//!     ..
//! }
//! match end_login(alloc, users, &begun, last_body) {
//!     LastStep::LoggedIn { user, answer } => ..,             // send the answer, and welcome him
//!     ..
//! }
//! ```
//!
//! The one contract is that of the two steps together (`specs/Steps.antt`), and it is that of a login by lines.
//! The first message is put behind `LOGIN ann`, which makes the line that a session of lines would begin with,
//! and `login_core` judges both. So there is a login exactly where there is one by that line, and a user exactly
//! where he has proved it.
//!
//! A session's user has come by right (`specs/Right.antt`): anyone is who he says, or he is the one who is known,
//! or his client has sent, one behind the other, a start that names him, the message that begins his login, and the
//! one that proves him (`specs/Proved.antt`). The [`laws`] say that this holds where he is welcome at once, how it
//! comes about message by message, and that it stays so whatever the client sends then.
//!
//! What no contract says here is left to the caller: that the server's nonce is a new one, that a login goes on
//! with the very beginning that it began with, and how long a message may be.
//!
//! # Cost
//!
//! A user is looked for among the parameters one by one, and compared once. A step costs what `login_core` takes
//! for it, and the first one a copy of its message besides.
#![tactic(auto)]

mod entry;
mod first_step;
mod last_step;
pub mod laws;
mod naming;

pub use entry::{Entry, entry_of};
pub use first_step::{FirstStep, begin_login};
pub use last_step::{LastStep, end_login};
pub use naming::user_named;
