//! An export that was asked for, before its first record.
ghost use Rattle.std.specs.Prelude.{◌≡◌, [], IsOk, IfOk};

use crate::judgement::settled;
use crate::marks::Marks;
use crate::walk::Walk;
use base_core::{Moment, NoMemory, User};
use capture_core::Image;
use std::marker::Model;
use std::sync::Arc;

/// What was asked for, with the columns of its tables marked by the rights at the request. What the
/// image says of them is judged when the walk begins. Contracts see the export, of which nothing
/// was given.
#[derive(Drop)]
pub(crate) struct Asked {
    pub(crate) image: Arc<Image>,
    pub(crate) user: User,
    pub(crate) at: Moment,
    /// Where the export's tables begin among those of the image.
    pub(crate) first: usize,
    /// For each of the export's tables, of which columns the user holds SELECT by these rights.
    pub(crate) by_rights: Vec<Marks>,
}

impl Model for Asked {
    ghost use Rattle.std.specs.Prelude.{◌≤◌, ◌+◌, length};
    ghost use Rattle.std.specs.Arc.{arc_value};
    ghost use Rattle.export_core.specs.Ticket.{TicketState};
    ghost use Rattle.export_core.specs.Walk.{asked};

    ghost Value = { TicketState };

    ghost view = { λ a. asked (arc_value a.image) a.user a.at a.first a.by_rights.items };

    ghost invariant = { λ a.
        a.first + length a.by_rights.items ≤ length (arc_value a.image).tables };
}

impl Asked {
    pub(crate) fn number(&self) -> u64
        ensures { result ≡ self.now.number }
    {
        self.image.number
    }

    pub(crate) fn point(&self) -> Moment
        ensures { result ≡ self.now.point }
    {
        self.image.point
    }

    pub(crate) fn at(&self) -> Moment
        ensures { result ≡ self.now.at }
    {
        self.at
    }

    /// Judges the tables, and begins to walk over them. `NoMemory` where a request for memory was
    /// refused.
    pub(crate) fn begin(&self) -> Result<Walk, NoMemory>
        ensures ok { IfOk result (λ walk. walk ≡ self.now) }
        ensures end { self.now.to_come ≡ [] → IsOk result }
    {
        let alloc = *self.by_rights.allocator();
        let tables = &self.image.tables.as_slice()[self.first..];
        let judgements = settled(alloc, &self.image, &self.user, tables, &self.by_rights)?;
        Ok(Walk {
            image: self.image.clone()?,
            at: self.at,
            first: self.first,
            judgements,
            told: 0,
            lines: 0,
            ended: false,
        })
    }
}
