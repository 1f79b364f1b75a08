//! What a script made: its history, its lines and its tables.
ghost use Rattle.std.specs.Prelude.{◌≡◌};

use base_core::{Atom, Moment, Name, NoMemory, User};
use explain_core::{History, Life, Taking, at_moment};
use explain_records::Numbered;
use grants_core::{Change, Grant};
use std::alloc::Global;
use system_core::Entry;
use tables_core::Tables;

/// What a script made, to look at.
#[derive(Clone, Copy)]
pub struct Past<'a> {
    pub history: &'a History,
    pub tables: &'a Tables,
    pub journal: &'a [Entry],
    /// Of the m-th change at m - 1: the number of its line. A change that is only supposed has
    /// none.
    pub lines: &'a [u64],
}

/// A table's owner, and the moment at which he created it.
#[derive(Clone, Copy)]
pub struct Owned {
    pub owner: User,
    pub since: Moment,
}

impl<'a> Past<'a> {
    /// The history with the numbers of its lines.
    pub fn numbered(&self) -> Numbered<'a>
        ensures history { result.history.now ≡ self.now.history.now }
        ensures numbers { result.numbers.now ≡ self.now.lines.now }
    {
        Numbered {
            history: self.history,
            numbers: self.lines,
        }
    }

    /// The moment of the last change.
    pub fn now(&self) -> Moment {
        Moment(self.journal.len() as u64)
    }

    /// The number of the line that made the change of this moment.
    pub fn line_of(&self, at: Moment) -> Option<u64> {
        at_moment(self.lines, at).copied()
    }

    /// The change of this moment.
    pub fn entry_of(&self, at: Moment) -> Option<&'a Entry> {
        at_moment(self.journal, at)
    }

    /// Who owns the table, since when.
    pub fn owned(&self, name: &Name) -> Option<Owned> {
        let changes = self.history.changes();
        for at in 0..changes.len() {
            if let Change::Create { table, owner } = &changes[at] {
                if *table == *name {
                    return Some(Owned {
                        owner: *owner,
                        since: Moment(at as u64 + 1),
                    });
                }
            }
        }
        None
    }

    /// The chain from the owner down to the grant of this number. Nothing, if that has fallen.
    pub fn chain_to(&self, alloc: Global, number: u64) -> Result<Vec<Grant>, NoMemory> {
        match self.history.lives().get(number as usize) {
            Some(life) if life.fell.is_none() => self.history.chain(alloc, number),
            _ => Ok(Vec::new(alloc)),
        }
    }

    /// How the grant of this number fell, from one that a REVOKE names down to it. Nothing, if it
    /// stands.
    pub fn descent_to(&self, alloc: Global, number: u64) -> Result<Vec<Life>, NoMemory> {
        let Some(life) = self.history.lives().get(number as usize) else {
            return Ok(Vec::new(alloc));
        };
        match life.fell {
            Some(_) => self.history.descent(alloc, number),
            None => Ok(Vec::new(alloc)),
        }
    }

    /// Whether the grant of the life fell by a REVOKE that names it.
    pub fn is_struck(&self, life: &Life) -> bool {
        match life.fell {
            Some(at) => self.history.taking(life, at) == Taking::Revoked,
            None => false,
        }
    }

    /// The atoms that the REVOKE of this moment names.
    pub fn atoms_named_at(&self, at: Moment) -> &'a [Atom] {
        match at_moment(self.history.changes(), at) {
            Some(Change::Revoke { atoms, .. } | Change::RevokeOption { atoms, .. }) => {
                atoms.as_slice()
            }
            _ => &[],
        }
    }

    /// Whether the change of this moment takes options alone.
    pub fn takes_options(&self, at: Moment) -> bool {
        matches!(
            at_moment(self.history.changes(), at),
            Some(Change::RevokeOption { .. })
        )
    }
}
