//! What grants fell by.
ghost use Rattle.std.specs.Prelude.{◌≡◌, ◌<◌, IfOk, filter, Some, length, slice_get};
ghost use Rattle.explain_core.specs.Lives.{lives_of};
ghost use Rattle.explain_core.specs.declared.life.Life.{Life as lives};
ghost use Rattle.base_core.specs.declared.value.Moment.{Moment as moments};
ghost use Rattle.explain_core.specs.Branches.{is_named_in_line, IsAbove};
ghost use Rattle.explain_core.specs.Falls.{strikes, takes_option, IsDescent, is_taken_at};

use crate::history::History;
use crate::life::Life;
use base_core::{Moment, NoMemory};
use grants_core::{Change, Grant};
use std::alloc::Global;

/// Whether the change revokes the grant itself.
pub(crate) fn strikes(change: &Change, grant: &Grant) -> bool
    ensures { result ≡ strikes change.now grant.now }
{
    match change {
        Change::Revoke { by, atoms, whom } => {
            grant.is_named(by, atoms.as_slice(), whom.as_slice())
        }
        Change::Create { .. }
        | Change::Grant { .. }
        | Change::RevokeOption { .. }
        | Change::Other => false,
    }
}

/// Whether the change revokes the grant's option.
fn takes_option(change: &Change, grant: &Grant) -> bool
    ensures { result ≡ takes_option change.now grant.now }
{
    match change {
        Change::RevokeOption { by, atoms, whom } => {
            grant.option && grant.is_named(by, atoms.as_slice(), whom.as_slice())
        }
        Change::Create { .. } | Change::Grant { .. } | Change::Revoke { .. } | Change::Other => {
            false
        }
    }
}

/// Whether the change names the grant. Of the last of a line its option does not count.
fn is_named(change: &Change, grant: &Grant, is_last: bool) -> bool
    ensures { result ≡ is_named_in_line change.now is_last grant.now }
{
    strikes(change, grant) || !is_last && takes_option(change, grant)
}

impl History {
    /// The place of the support of the life at this one, unless the change names that.
    fn above(&self, place: usize, change: &Change, is_last: bool) -> Option<usize>
        requires { place < length (lives_of self.now) }
        ensures { (life : lives)
            → slice_get (lives_of self.now) place ≡ Some life
            → IsAbove self.now change.now is_last place life result }
    {
        let grant = &self.lives[place].grant;
        if is_named(change, grant, is_last) {
            return None;
        }
        self.supports[place]
    }

    /// How the grant of this number, which has fallen, fell: from a grant that the REVOKE of that
    /// moment names down to it, each with the option, until then, from the one before. `NoMemory`
    /// where a request for memory was refused.
    pub fn descent(&self, alloc: Global, number: u64) -> Result<Vec<Life>, NoMemory>
        requires { (life : lives) × (at : moments)
            × (slice_get (lives_of self.now) number ≡ Some life) × (life.fell ≡ Some at) }
        ensures { (life : lives) (at : moments)
            → slice_get (lives_of self.now) number ≡ Some life → life.fell ≡ Some at
            → IfOk result (λ line. IsDescent self.now at line.items life) }
    {
        let lives = self.lives.as_slice();
        let number = number as usize;
        let mut line = Vec::new(alloc);
        line.push(lives[number])?;
        let Some(at) = lives[number].fell else {
            unreachable!()
        };
        let change = &self.changes[at.0 as usize - 1];
        let mut place = number;
        while let Some(above) = self.above(place, change, place == number) {
            place = above;
            line.push(lives[place])?;
        }
        line.reverse();
        Ok(line)
    }

    /// What the change of this moment took, in order: the lives whose grant fell then, or whose
    /// option ended. `NoMemory` where a request for memory was refused.
    pub fn taken_at(&self, alloc: Global, at: Moment) -> Result<Vec<Life>, NoMemory>
        ensures { IfOk result (λ taken. taken.items
            ≡ filter (is_taken_at at) (lives_of self.now)) }
    {
        let mut taken = Vec::new(alloc);
        for life in &self.lives {
            if life.is_taken_at(at) {
                taken.push(*life)?;
            }
        }
        Ok(taken)
    }
}
