//! How changes take grants.
ghost use Rattle.std.specs.Prelude.{◌≡◌, option_map};
ghost use Rattle.explain_core.specs.Takings.{item_at, is_struck_at, taking_of};

use crate::falls::strikes;
use crate::history::History;
use crate::life::{Life, is_end};
use base_core::Moment;
use grants_core::Grant;

/// How a change took a grant, or its option.
#[derive(Clone, Copy, PartialEq, Eq)]
pub enum Taking {
    /// It is a REVOKE that names the grant.
    Revoked,
    /// The grant fell with others.
    Fell,
    /// It is a REVOKE GRANT OPTION FOR that names the grant, whose option alone ended.
    OptionRevoked,
}

/// What stands at this moment in a list of which the first stands at 1.
pub fn at_moment<T>(items: &[T], at: Moment) -> Option<&T>
    ensures { option_map (λ item. item.now) result ≡ item_at items.now at }
{
    match (at.0 as usize).checked_sub(1) {
        Some(place) => items.get(place),
        None => None,
    }
}

impl History {
    /// Whether the change of this moment is a REVOKE that names the grant.
    fn is_struck_at(&self, grant: &Grant, at: Moment) -> bool
        ensures { result ≡ is_struck_at self.now grant.now at }
    {
        match at_moment(&self.changes, at) {
            Some(change) => strikes(change, grant),
            None => false,
        }
    }

    /// How the change of this moment, which took the life's grant or its option, took it.
    pub fn taking(&self, life: &Life, at: Moment) -> Taking
        ensures { result ≡ taking_of self.now life.now at }
    {
        if !is_end(life.fell, at) {
            Taking::OptionRevoked
        } else if self.is_struck_at(&life.grant, at) {
            Taking::Revoked
        } else {
            Taking::Fell
        }
    }
}
