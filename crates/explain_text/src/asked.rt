//! Questions whose words are read.
ghost use Rattle.std.specs.Prelude.{◌≡◌, IfOk, option_map};
ghost use Rattle.std.specs.List.{list_all, list_any};
ghost use Rattle.grants_core.specs.Owners.{owns};
ghost use Rattle.grants_core.specs.History.{owners_after};
ghost use Rattle.grants_core.specs.Noted.{may_grant_after};
ghost use Rattle.explain_core.specs.Chains.{holds_after};
ghost use Rattle.explain_text.specs.Asking.{IsAsked, NameAsked, NameHolding, is_yes};

use crate::fault::Unanswered;
use crate::question::Question;
use crate::words::{atoms_named, table_of, user_of};
use base_core::{Atom, Moment, Name, User};
use explain_core::History;
use explain_words::atoms_of_table;
use monitor_core::columns_of;
use std::alloc::Global;
use tables_core::Tables;

/// What is asked of the rights that a script makes.
#[derive(Drop)]
pub enum Asked {
    /// Why the user holds these privileges on the table, or why he does not.
    Why {
        user: User,
        table: Name,
        atoms: Vec<Atom>,
    },
    /// Who holds these privileges on the table.
    Who {
        table: Name,
        atoms: Vec<Atom>,
    },
    /// Every right in force.
    Rights,
    /// Every grant that fell.
    Fell,
    /// Every grant that was ever made.
    Grants,
    /// What the last change takes, which is only supposed.
    If,
    /// What would take these privileges on the table from the user.
    Cut {
        user: User,
        table: Name,
        atoms: Vec<Atom>,
    },
    /// Whom the user could give these privileges on the table to.
    Can {
        user: User,
        table: Name,
        atoms: Vec<Atom>,
    },
    /// What came, fell and changed since the moment.
    Diff {
        at: Moment,
    },
}

/// Whether the user holds all of the atoms.
fn holds_all(history: &History, user: &User, atoms: &[Atom]) -> bool
    ensures { result ≡ list_all (holds_after history.now user.now) atoms.now }
{
    atoms.iter().all(|atom| history.holds(user, atom))
}

/// Whether the user may grant all of the atoms.
fn may_grant_all(history: &History, user: &User, atoms: &[Atom]) -> bool
    ensures { result ≡ list_all (may_grant_after history.now user.now) atoms.now }
{
    atoms.iter().all(|atom| history.may_grant(user, atom))
}

/// Whether the user owns the table of one of the atoms.
fn owns_any(history: &History, user: &User, atoms: &[Atom]) -> bool
    ensures { result ≡ list_any (owns (owners_after history.now) user.now) atoms.now }
{
    atoms.iter().any(|atom| history.owns(user, atom))
}

impl Asked {
    /// What the words of a question ask at these tables. The error names the word that says nothing there, or that a
    /// request for memory was refused.
    pub fn read(
        alloc: Global,
        tables: &Tables,
        question: &Question<'_>,
    ) -> Result<Asked, Unanswered>
        ensures { IfOk result (IsAsked tables.now.tables question.now) }
    {
        Ok(match *question {
            Question::Why {
                user,
                privilege,
                table,
            } => {
                let (user, table, atoms) = holding(alloc, tables, user, privilege, table)?;
                Asked::Why { user, table, atoms }
            }
            Question::Who { table, privilege } => {
                let table = table_of(tables, table)?;
                let atoms = atoms_asked(alloc, tables, table, privilege)?;
                Asked::Who { table, atoms }
            }
            Question::Rights => Asked::Rights,
            Question::Fell => Asked::Fell,
            Question::Grants => Asked::Grants,
            Question::If { .. } => Asked::If,
            Question::Can {
                user,
                privilege,
                table,
            } => {
                let (user, table, atoms) = holding(alloc, tables, user, privilege, table)?;
                Asked::Can { user, table, atoms }
            }
            Question::Diff { at } => Asked::Diff { at: Moment(at) },
            Question::Cut {
                user,
                privilege,
                table,
            } => {
                let (user, table, atoms) = holding(alloc, tables, user, privilege, table)?;
                Asked::Cut { user, table, atoms }
            }
        })
    }

    /// Whether the answer is yes, by this history: that the user holds all that was asked; of what would take it, that
    /// he does not own the table; of whom he could give it to, that he may grant all of it on. Any other question is
    /// not one of yes or no, and its answer is yes.
    pub fn is_yes(&self, history: &History) -> bool
        ensures { result ≡ is_yes history.now self.now }
    {
        match self {
            Asked::Why { user, atoms, .. } => holds_all(history, user, atoms),
            Asked::Cut { user, atoms, .. } => !owns_any(history, user, atoms),
            Asked::Can { user, atoms, .. } => may_grant_all(history, user, atoms),
            Asked::Who { .. }
            | Asked::Rights
            | Asked::Fell
            | Asked::Grants
            | Asked::If
            | Asked::Diff { .. } => true,
        }
    }
}

/// The user, the table, and the atoms on it that these words name.
fn holding(
    alloc: Global,
    tables: &Tables,
    user: &str,
    privilege: &str,
    table: &str,
) -> Result<(User, Name, Vec<Atom>), Unanswered>
    ensures { IfOk result (λ named. NameHolding tables.now.tables user.now privilege.now table.now
        named.0 named.1 named.2.items) }
{
    let user = user_of(user)?;
    let table = table_of(tables, table)?;
    let atoms = atoms_named(alloc, tables, table, privilege)?;
    Ok((user, table, atoms))
}

/// The atoms that are asked for on the table: those that the words name, or all.
fn atoms_asked(
    alloc: Global,
    tables: &Tables,
    table: Name,
    privilege: Option<&str>,
) -> Result<Vec<Atom>, Unanswered>
    ensures { IfOk result (λ atoms. NameAsked tables.now.tables table
        (option_map (λ words. words.now) privilege.entry) atoms.items) }
{
    match privilege {
        Some(words) => atoms_named(alloc, tables, table, words),
        None => Ok(atoms_of_table(alloc, table, columns_of(tables, table))?),
    }
}
