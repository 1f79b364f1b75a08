//! The judge of a statement: a method for each check of `specs/Verdict.antt`. A check of several
//! names, values or users goes over them in the order written. The judge borrows what there is and
//! keeps nothing.
ghost use Rattle.std.specs.Prelude.{◌≡◌, nat_lt, Ok, Err, OnOk, IfOk, IfErr};
ghost use Rattle.monitor_core.specs.Verdict.{columns_of, holds_privilege, each, column_stands, column_takes, table_stands, may_filter, list_stands, room_for_change, listed_columns_stand, atoms_at, holds_grant_option, made_grant, gave_option, has_room};
ghost use Rattle.base_core.specs.Privileges.{of_table, to_select, to_update};
ghost use Rattle.base_core.specs.declared.privilege.Kind.{Kind as kinds};
ghost use Rattle.grants_core.specs.Owners.{owns};
ghost use Rattle.monitor_core.specs.Atoms.{columns_given, columns_listed};

mod each_statement;

use crate::atoms::{AtomCheck, ByColumn, HoldsPrivilege, columns_listed, each_atom, each_column};
use crate::checks::{Literal, column_of, columns_of, is_table, require, takes};
use base_core::{
    Assignment, Atom, Column, Condition, Distinct, Lack, Limits, Moment, Name, Named, User, Value,
    What,
};
use grants_core::Authority;
use reader_core::{MAX_ITEMS, Privilege};
use std::marker::Model;
use tables_core::Tables;

/// What is judged by. Contracts see it as the state.
#[derive(Drop)]
pub struct Judge<'a, A: Authority> {
    pub tables: &'a Tables,
    pub rights: &'a A,
    pub limits: &'a Limits,
    pub moment: Moment,
}

impl<'a, A: Authority> Model for Judge<'a, A> {
    ghost use Rattle.monitor_core.specs.Verdict.{State};

    ghost Value = { State };

    ghost view = { λ j. record {
      tables = j.tables.now.tables;
      rights = A.content j.rights.now;
      limits = j.limits.now;
      moment = j.moment.0;
    } };
}

impl<A: Authority> Judge<'_, A> {
    fn table_stands(&self, table: Name) -> Result<(), Lack>
        ensures { result ≡ table_stands self.now table }
    {
        require(is_table(self.tables, table), Lack::NoTable(table))
    }

    /// The columns of the table, for the checks of a statement on it.
    #[inline(always)]
    fn columns(&self, table: Name) -> Result<&[Column], Lack>
        ensures stands { OnOk result (table_stands self.now table ≡ Ok tt) }
        ensures columns { IfOk result (λ columns. columns.now ≡ columns_of self.now.tables table) }
        ensures lack { IfErr result (λ lack. table_stands self.now table ≡ Err lack) }
    {
        match self.tables.columns(table) {
            Some(columns) => Ok(columns),
            None => Err(Lack::NoTable(table)),
        }
    }

    /// That the user holds the privilege, or the lack of it.
    #[inline(always)]
    pub fn may(&self, user: &User, atom: Atom) -> Result<(), Lack>
        ensures { result ≡ holds_privilege self.now user.now atom }
    {
        if self.rights.holds(*user, &atom) {
            return Ok(());
        }
        Err(Lack::NoPrivilege { user: *user, atom })
    }

    /// Whether the user owns the table.
    fn owns(&self, user: &User, table: Name) -> bool
        ensures { (kind : kinds)
            → result ≡ owns self.now.rights.owners user.now (of_table table kind) }
    {
        self.rights.owns(*user, table)
    }

    /// The user may select each of the columns; the owner of the table may.
    fn may_select<T: Named>(
        &self,
        user: &User,
        table: Name,
        is_owner: bool,
        items: &[T],
    ) -> Result<(), Lack>
        requires { (kind : kinds)
            → is_owner ≡ owns self.now.rights.owners user.now (of_table table kind) }
        ensures { result ≡ each items.now
            (λ item. holds_privilege self.now user.now (to_select table (T.name_of item))) }
    {
        if is_owner {
            return Ok(());
        }
        let holds = HoldsPrivilege {
            judge: self,
            user: *user,
        };
        each_column(&holds, table, ByColumn::Select, items)
    }

    /// The user may select each column that the query gives.
    fn may_query(
        &self,
        user: &User,
        table: Name,
        is_owner: bool,
        columns: &[Column],
        list: &Option<Distinct<Name, MAX_ITEMS>>,
    ) -> Result<(), Lack>
        requires columns { columns.now ≡ columns_of self.now.tables table }
        requires owner { (kind : kinds)
            → is_owner ≡ owns self.now.rights.owners user.now (of_table table kind) }
        ensures { result ≡ each (columns_given (columns_of self.now.tables table) list.now)
            (λ column. holds_privilege self.now user.now (to_select table column)) }
    {
        match list {
            None => self.may_select(user, table, is_owner, columns),
            Some(names) => self.may_select(user, table, is_owner, names.as_slice()),
        }
    }

    /// The user may select each column that the filter names.
    fn may_filter(&self, user: &User, table: Name, filter: &[Condition]) -> Result<(), Lack>
        ensures { result ≡ may_filter self.now user.now table filter.now }
    {
        match filter {
            [] => Ok(()),
            [..] => self.may_select(user, table, self.owns(user, table), filter),
        }
    }

    fn may_update(&self, user: &User, table: Name, sets: &[Assignment]) -> Result<(), Lack>
        ensures { result ≡ each sets.now
            (λ a. holds_privilege self.now user.now (to_update table a.column)) }
    {
        let holds = HoldsPrivilege {
            judge: self,
            user: *user,
        };
        each_column(&holds, table, ByColumn::Update, sets)
    }

    /// That the user may grant the privilege on, or the lack of the option.
    pub fn may_grant(&self, user: &User, atom: Atom) -> Result<(), Lack>
        ensures { result ≡ holds_grant_option self.now user.now atom }
    {
        let may = self.rights.may_grant(*user, &atom);
        require(may, Lack::NoGrantOption { user: *user, atom })
    }

    fn has_made(&self, by: &User, to: &User, atom: &Atom) -> Result<(), Lack>
        ensures { result ≡ made_grant self.now by.now atom.now to.now }
    {
        let made = self.rights.has_made(*by, *to, atom);
        let Atom { table, kind } = *atom;
        let lack = Lack::NoGrant {
            by: *by,
            to: *to,
            atom: Atom { table, kind },
        };
        require(made, lack)
    }

    /// That the user granted the privilege to each of these, or the first to whom he did not.
    pub fn has_made_each(&self, by: &User, users: &[User], atom: &Atom) -> Result<(), Lack>
        ensures { result ≡ each users.now (made_grant self.now by.now atom.now) }
    {
        for to in users {
            if let Err(lack) = self.has_made(by, to, atom) {
                return Err(lack);
            }
        }
        Ok(())
    }

    fn gave_option(&self, by: &User, to: &User, atom: &Atom) -> Result<(), Lack>
        ensures { result ≡ gave_option self.now by.now atom.now to.now }
    {
        let given = self.rights.has_optioned(*by, *to, atom);
        let Atom { table, kind } = *atom;
        let lack = Lack::NoOptionGiven {
            by: *by,
            to: *to,
            atom: Atom { table, kind },
        };
        require(given, lack)
    }

    /// That the user gave the option to each of these, or the first to whom he did not.
    pub fn gave_option_to_each(&self, by: &User, users: &[User], atom: &Atom) -> Result<(), Lack>
        ensures { result ≡ each users.now (gave_option self.now by.now atom.now) }
    {
        for to in users {
            if let Err(lack) = self.gave_option(by, to, atom) {
                return Err(lack);
            }
        }
        Ok(())
    }

    /// Whether there is room for so many grants more of the privilege.
    #[tactic(auto, unfolding(crate::specs::Verdict::has_room))]
    pub fn has_room_for(&self, atom: &Atom, more: u64) -> bool
        ensures { result ≡ has_room self.now.rights.in_force atom.now more self.now.limits.grants }
    {
        self.rights.room(atom, more, self.limits.grants)
    }

    #[inline(always)]
    #[tactic(auto, using(crate::proofs::Columns::column_of_columns))]
    fn column_stands(&self, table: Name, columns: &[Column], column: Name) -> Result<(), Lack>
        requires { columns.now ≡ columns_of self.now.tables table }
        ensures { result ≡ column_stands self.now table column }
    {
        match column_of(columns, column) {
            Some(_) => Ok(()),
            None => Err(Lack::NoColumn { table, column }),
        }
    }

    /// Each name is a column's of the table.
    fn columns_stand<T: Named>(
        &self,
        table: Name,
        columns: &[Column],
        items: &[T],
    ) -> Result<(), Lack>
        requires { columns.now ≡ columns_of self.now.tables table }
        ensures { result ≡ each items.now (λ item. column_stands self.now table (T.name_of item)) }
    {
        for item in items {
            if let Err(lack) = self.column_stands(table, columns, item.name()) {
                return Err(lack);
            }
        }
        Ok(())
    }

    /// Each column that the query lists is the table's.
    fn list_stands(
        &self,
        table: Name,
        columns: &[Column],
        list: &Option<Distinct<Name, MAX_ITEMS>>,
    ) -> Result<(), Lack>
        requires { columns.now ≡ columns_of self.now.tables table }
        ensures { result ≡ list_stands self.now table list.now }
    {
        match list {
            None => Ok(()),
            Some(names) => self.columns_stand(table, columns, names.as_slice()),
        }
    }

    /// Each column that the privilege lists is the table's.
    fn listed_by_one_stand(&self, table: Name, privilege: &Privilege) -> Result<(), Lack>
        ensures { result ≡ each (columns_listed privilege.now) (column_stands self.now table) }
    {
        let columns = columns_of(self.tables, table);
        self.columns_stand(table, columns, columns_listed(privilege))
    }

    /// Each column that the privileges list is the table's.
    fn listed_stand(&self, table: Name, privileges: &[Privilege]) -> Result<(), Lack>
        ensures { result ≡ listed_columns_stand self.now table privileges.now }
    {
        for privilege in privileges {
            if let Err(lack) = self.listed_by_one_stand(table, privilege) {
                return Err(lack);
            }
        }
        Ok(())
    }

    /// Each atom that the privileges are passes.
    fn each_atom<C: AtomCheck>(
        &self,
        check: &C,
        table: Name,
        privileges: &[Privilege],
    ) -> Result<(), Lack>
        ensures { result ≡ each (atoms_at self.now.tables table privileges.now)
            (C.check_of check.now) }
    {
        each_atom(check, table, columns_of(self.tables, table), privileges)
    }

    #[inline(always)]
    #[tactic(auto, using(crate::proofs::Columns::column_of_columns))]
    fn column_takes(
        &self,
        table: Name,
        columns: &[Column],
        column: Name,
        value: &Value,
    ) -> Result<(), Lack>
        requires { columns.now ≡ columns_of self.now.tables table }
        ensures { result ≡ column_takes self.now table column value.now }
    {
        match column_of(columns, column) {
            Some(column) => takes(*column, value),
            None => Ok(()),
        }
    }

    /// Each column named takes its literal.
    fn columns_take<T: Literal>(
        &self,
        table: Name,
        columns: &[Column],
        items: &[T],
    ) -> Result<(), Lack>
        requires { columns.now ≡ columns_of self.now.tables table }
        ensures { result ≡ each items.now
            (λ item. column_takes self.now table (T.name_of item) (T.literal_of item)) }
    {
        for item in items {
            if let Err(lack) = self.column_takes(table, columns, item.name(), item.literal()) {
                return Err(lack);
            }
        }
        Ok(())
    }

    fn has_room(&self) -> bool
        ensures { result ≡ nat_lt self.now.moment self.now.limits.changes }
    {
        self.moment.0 < self.limits.changes
    }

    #[inline(always)]
    fn room_for_change(&self) -> Result<(), Lack>
        ensures { result ≡ room_for_change self.now }
    {
        if self.has_room() {
            return Ok(());
        }
        Err(Lack::Full(What::Changes))
    }
}
