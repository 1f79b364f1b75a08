//! Events, replies, and the entries of the journal.
ghost use Rattle.std.specs.Prelude.{◌≡◌};
ghost use Rattle.system_core.specs.Replies.{is_done, is_refused, is_refused_memory, told_moment};
ghost use Rattle.system_core.specs.Step.{change_reply};

use base_core::{Column, Lack, Moment, NoMemory, Row, Sequence, User};
use export_core::Ticket;
use reader_core::Statement;

/// An accepted change: through which pass, by whom, and what. Entry m, counted from 1, made moment
/// m.
#[derive(Drop)]
pub struct Entry {
    pub pass: u64,
    pub user: User,
    pub statement: Statement,
}

/// What the core is asked.
#[derive(Drop)]
pub enum Event {
    Say {
        pass: u64,
        user: User,
        statement: Statement,
    },
    /// Which columns the answer to a statement would have. It changes nothing, whatever is asked.
    Describe {
        user: User,
        statement: Statement,
    },
    /// A step of the checkpointer.
    Step,
    /// To give up the active checkpoint.
    Abandon,
}

/// A checkpoint, as CHECKPOINTS lists it. Its point is the moment at which it was begun.
#[derive(Clone, Copy)]
pub enum Checkpoint {
    /// It was finished, and is kept.
    Kept {
        number: u64,
        point: Moment,
    },
    /// It is being captured, with so many records left.
    Active {
        number: u64,
        point: Moment,
        left: u64,
    },
}

/// What the core answers.
#[derive(Drop)]
pub enum Reply {
    /// The change was accepted, and made this moment.
    Done {
        at: Moment,
    },
    /// The rows of a query, at this moment.
    Rows {
        at: Moment,
        rows: Sequence<Row>,
    },
    /// The checkpoints that are kept at this moment, the oldest first, and then the active one.
    Listed {
        at: Moment,
        entries: Sequence<Checkpoint>,
    },
    /// The checkpoint of this number was begun at this moment.
    Begun {
        number: u64,
        at: Moment,
    },
    /// The export was allowed; its records are to be taken from the ticket.
    Export(Ticket),
    /// The columns that the answer to a statement would have, at this moment.
    Described {
        at: Moment,
        columns: Sequence<Column>,
    },
    /// Something is missing: lacks 11 to 20, and 27. Nothing changed.
    Denied {
        at: Moment,
        lack: Lack,
    },
    /// Something does not fit, or is full: lacks 21 to 26. Nothing changed.
    Refused {
        at: Moment,
        lack: Lack,
    },
    /// No checkpoint is active.
    Idle,
    /// So many records of this checkpoint are left.
    Stepped {
        number: u64,
        left: u64,
    },
    /// This checkpoint is finished, and kept.
    Finished {
        number: u64,
    },
    /// This checkpoint was given up.
    Abandoned {
        number: u64,
    },
}

impl Reply {
    /// Whether a change was made.
    pub fn is_done(&self) -> bool
        ensures { result ≡ is_done self.now }
    {
        match self {
            Reply::Done { .. } => true,
            _ => false,
        }
    }

    /// Whether something does not fit, is full, or memory ran out.
    pub fn is_refused(&self) -> bool
        ensures { result ≡ is_refused self.now }
    {
        match self {
            Reply::Refused { .. } => true,
            _ => false,
        }
    }

    /// Whether memory ran out.
    pub fn is_refused_memory(&self) -> bool
        ensures { result ≡ is_refused_memory self.now }
    {
        match self {
            Reply::Refused {
                lack: Lack::NoMemory,
                ..
            } => true,
            _ => false,
        }
    }

    /// The moment that the reply bears. The steps of a checkpoint bear none.
    pub fn moment(&self) -> Option<Moment>
        ensures { result ≡ told_moment self.now }
    {
        match self {
            Reply::Done { at }
            | Reply::Rows { at, .. }
            | Reply::Listed { at, .. }
            | Reply::Begun { at, .. }
            | Reply::Described { at, .. }
            | Reply::Denied { at, .. }
            | Reply::Refused { at, .. } => Some(*at),
            Reply::Export(ticket) => Some(ticket.at()),
            Reply::Idle
            | Reply::Stepped { .. }
            | Reply::Finished { .. }
            | Reply::Abandoned { .. } => None,
        }
    }

    /// The reply to an allowed change that was asked at this moment, by what
    /// [`System::change`](crate::System::change) says of it.
    pub fn to_change(at: Moment, made: Result<Moment, NoMemory>) -> Reply
        ensures { result ≡ change_reply at made }
    {
        match made {
            Ok(made) => Reply::Done { at: made },
            Err(NoMemory) => Reply::Refused {
                at,
                lack: Lack::NoMemory,
            },
        }
    }
}
