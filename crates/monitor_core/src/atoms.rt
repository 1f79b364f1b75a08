//! The atoms that a statement asks for: the single privileges on a table that its list of
//! privileges names. SELECT alone is the privilege to select each of the table's columns, and
//! UPDATE alone that to update each. A check goes over them in the order written and makes no list
//! of them, so it takes no memory. What is checked of an atom is an [`AtomCheck`]; the five that
//! statements need are here.
ghost use Rattle.std.specs.Prelude.{◌≡◌};
ghost use Rattle.base_core.specs.declared.privilege.Atom as atom;
ghost use Rattle.monitor_core.specs.Verdict.{Check, each, holds_privilege, holds_grant_option, room_for_grants, made_grant, gave_option};
ghost use Rattle.monitor_core.specs.Atoms.{of_column, columns_given, atoms_of_one, atoms_of, columns_listed};

use crate::checks::require;
use crate::judging::Judge;
use base_core::{Atom, Column, Distinct, Kind, Lack, Name, Named, User, What};
use grants_core::Authority;
use reader_core::{MAX_ITEMS, Privilege};

/// The columns that a privilege lists.
pub fn columns_listed(privilege: &Privilege) -> &[Name]
    ensures { result.now ≡ columns_listed privilege.now }
{
    match privilege {
        Privilege::Insert | Privilege::Delete => &[],
        Privilege::Select(list) | Privilege::Update(list) => match list {
            None => &[],
            Some(names) => names.as_slice(),
        },
    }
}

/// What can be granted by column.
#[derive(Clone, Copy)]
pub enum ByColumn {
    Select,
    Update,
}

impl ByColumn {
    /// The privilege of a column of the table.
    pub fn of_column(self, table: Name, column: Name) -> Atom
        ensures { result ≡ of_column self table column }
    {
        let kind = match self {
            ByColumn::Select => Kind::Select(column),
            ByColumn::Update => Kind::Update(column),
        };
        Atom { table, kind }
    }
}

/// A check of one atom.
pub trait AtomCheck {
    ghost check_of: { Self → atom.Atom → Check };

    fn check(&self, atom: Atom) -> Result<(), Lack>
        ensures { result ≡ check_of self.now atom };
}

/// That the user holds an atom.
#[derive(Drop)]
pub struct HoldsPrivilege<'a, A: Authority> {
    pub judge: &'a Judge<'a, A>,
    pub user: User,
}

impl<'a, A: Authority> AtomCheck for HoldsPrivilege<'a, A> {
    ghost check_of = { λ c atom. holds_privilege c.judge.now c.user atom };

    fn check(&self, atom: Atom) -> Result<(), Lack> {
        self.judge.may(&self.user, atom)
    }
}

/// That the user may grant an atom.
#[derive(Drop)]
pub struct HoldsGrantOption<'a, A: Authority> {
    pub judge: &'a Judge<'a, A>,
    pub user: User,
}

impl<'a, A: Authority> AtomCheck for HoldsGrantOption<'a, A> {
    ghost check_of = { λ c atom. holds_grant_option c.judge.now c.user atom };

    fn check(&self, atom: Atom) -> Result<(), Lack> {
        self.judge.may_grant(&self.user, atom)
    }
}

/// That there is room for grants of an atom to each of the users.
#[derive(Drop)]
pub struct RoomForGrants<'a, A: Authority> {
    pub judge: &'a Judge<'a, A>,
    pub users: &'a [User],
}

impl<'a, A: Authority> AtomCheck for RoomForGrants<'a, A> {
    ghost check_of = { λ c atom. room_for_grants c.judge.now c.users.now atom };

    fn check(&self, atom: Atom) -> Result<(), Lack> {
        let room = self.judge.has_room_for(&atom, self.users.len() as u64);
        require(room, Lack::Full(What::Grants))
    }
}

/// That grants of an atom by the one to each of the users are in force.
#[derive(Drop)]
pub struct MadeGrants<'a, A: Authority> {
    pub judge: &'a Judge<'a, A>,
    pub by: User,
    pub users: &'a [User],
}

impl<'a, A: Authority> AtomCheck for MadeGrants<'a, A> {
    ghost check_of = { λ c atom. each c.users.now (made_grant c.judge.now c.by atom) };

    fn check(&self, atom: Atom) -> Result<(), Lack> {
        self.judge.has_made_each(&self.by, self.users, &atom)
    }
}

/// That grants of an atom by the one to each of the users are in force with the option.
#[derive(Drop)]
pub struct GivenOptions<'a, A: Authority> {
    pub judge: &'a Judge<'a, A>,
    pub by: User,
    pub users: &'a [User],
}

impl<'a, A: Authority> AtomCheck for GivenOptions<'a, A> {
    ghost check_of = { λ c atom. each c.users.now (gave_option c.judge.now c.by atom) };

    fn check(&self, atom: Atom) -> Result<(), Lack> {
        self.judge.gave_option_to_each(&self.by, self.users, &atom)
    }
}

/// Passed where the privilege of each of the columns passes.
pub fn each_column<C: AtomCheck, T: Named>(
    check: &C,
    table: Name,
    by: ByColumn,
    items: &[T],
) -> Result<(), Lack>
    ensures { result ≡ each items.now
        (λ item. C.check_of check.now (of_column by table (T.name_of item))) }
{
    for item in items {
        check.check(by.of_column(table, item.name()))?;
    }
    Ok(())
}

// Passed where the privilege of each column listed passes, or with no list of each of these.
fn each_listed<C: AtomCheck>(
    check: &C,
    table: Name,
    columns: &[Column],
    by: ByColumn,
    list: &Option<Distinct<Name, MAX_ITEMS>>,
) -> Result<(), Lack>
    ensures { result ≡ each (columns_given columns.now list.now)
        (λ column. C.check_of check.now (of_column by table column)) }
{
    match list {
        None => each_column(check, table, by, columns),
        Some(names) => each_column(check, table, by, names.as_slice()),
    }
}

// Passed where each atom of the privilege passes.
fn each_of_one<C: AtomCheck>(
    check: &C,
    table: Name,
    columns: &[Column],
    privilege: &Privilege,
) -> Result<(), Lack>
    ensures { result ≡ each (atoms_of_one table columns.now privilege.now) (C.check_of check.now) }
{
    let kind = match privilege {
        Privilege::Select(list) => {
            return each_listed(check, table, columns, ByColumn::Select, list);
        }
        Privilege::Insert => Kind::Insert,
        Privilege::Delete => Kind::Delete,
        Privilege::Update(list) => {
            return each_listed(check, table, columns, ByColumn::Update, list);
        }
    };
    check.check(Atom { table, kind })
}

// Passed where the atoms of each privilege pass.
fn each_privilege<C: AtomCheck>(
    check: &C,
    table: Name,
    columns: &[Column],
    privileges: &[Privilege],
) -> Result<(), Lack>
    ensures { result ≡ each privileges.now
        (λ p. each (atoms_of_one table columns.now p) (C.check_of check.now)) }
{
    for privilege in privileges {
        each_of_one(check, table, columns, privilege)?;
    }
    Ok(())
}

/// Passed where each atom of the privileges on a table with these columns passes.
pub fn each_atom<C: AtomCheck>(
    check: &C,
    table: Name,
    columns: &[Column],
    privileges: &[Privilege],
) -> Result<(), Lack>
    ensures { result ≡ each (atoms_of table columns.now privileges.now) (C.check_of check.now) }
{
    each_privilege(check, table, columns, privileges)
}
