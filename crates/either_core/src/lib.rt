//! A session of one of two protocols, whose client tells by his first byte which he speaks.
//!
//! The first message of PostgreSQL's protocol begins with a byte that is zero, and a line of ours begins with a
//! word. So one port can serve both. An [`EitherSession`] is a
//! [`SessionMachine`](session_core::SessionMachine) over two others, one of lines and one of messages. As long
//! as nothing has come it is neither. The first byte chooses one of them, which is fed that byte too, and each
//! call from then on is a call of that machine.
//!
//! The one contract is that of the trait (`specs/Either.antt`). Where the first byte that the client sent is not
//! zero, the session went by the protocol of lines, and its user has come by the right that this asks for. Where
//! it is zero, the same holds of messages. Or nothing was answered: then the session has no user, and nothing was
//! written, whatever was read. That is so where nothing came, and where there was no memory for the machine that
//! was chosen. Such a session is lost: it is over at once, and what still comes is dropped. It is told of as one
//! that had no user, and ended for want of memory.
//!
//! ```text
//! let mut session: EitherSession<K, Parked<K>, M> = EitherSession::new(alloc)?;
//! session.feed(&rt, alloc, &desk, &mut pass, &admission, &mut scratch, &mut writer, &gate, piece)?;
//! // USER ann         welcome ann: this begins with a U, so lines were chosen
//! ```
//!
//! # Cost
//!
//! A call costs what that of the chosen machine costs. A session of which nothing has come takes no memory, and
//! its first byte takes what a new machine does.
#![tactic(auto)]

mod either_session;

pub use either_session::EitherSession;
