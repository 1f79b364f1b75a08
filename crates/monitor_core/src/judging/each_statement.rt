//! The judge of each kind of statement: it makes its checks in their order, and answers the first
//! lack. Of INSERT, SELECT, DELETE and UPDATE the table is looked up once, and their checks go by
//! its columns.
ghost use Rattle.std.specs.Prelude.{◌≡◌, ℕ, ◌∷◌, [], is_ok};
ghost use Rattle.base_core.specs.declared.name.User.{User};
ghost use Rattle.reader_core.specs.declared.statement.Statement.TheVariants as statements;
ghost use Rattle.monitor_core.specs.Verdict.{verdict, first_lack, each, atoms_at, table_is_new, table_stands, listed_columns_stand, room_for_change, room_for_table};

use crate::atoms::{AtomCheck, GivenOptions, HoldsGrantOption, MadeGrants, RoomForGrants};
use crate::checks::{each_takes, is_table, require};
use crate::judging::Judge;
use base_core::{Assignment, Atom, Condition, Distinct, Kind, Lack, Name, User, Value, What};
use grants_core::Authority;
use reader_core::{MAX_ITEMS, Privilege, Statement};

impl<A: Authority> Judge<'_, A> {
    fn create(&self, table: Name) -> Result<(), Lack>
        ensures { result ≡ first_lack
            (table_is_new self.now table
            ∷ room_for_change self.now
            ∷ room_for_table self.now
            ∷ []) }
    {
        if is_table(self.tables, table) {
            return Err(Lack::TableExists(table));
        }
        if !self.has_room() {
            return Err(Lack::Full(What::Changes));
        }
        let room = (self.tables.len() as u64) < self.limits.tables;
        require(room, Lack::Full(What::Tables))
    }

    #[inline(always)]
    fn insert(&self, user: &User, table: Name, values: &[Value]) -> Result<(), Lack>
        ensures { result ≡ verdict self.now user.now (statements.Insert table values.now) }
    {
        let Some(columns) = self.tables.columns(table) else {
            return Err(Lack::NoTable(table));
        };
        let kind = Kind::Insert;
        let atom = Atom { table, kind };
        if !self.rights.holds(*user, &atom) {
            return Err(Lack::NoPrivilege { user: *user, atom });
        }
        let (given, wanted) = (values.len(), columns.len());
        if given != wanted {
            return Err(Lack::WrongCount { given, wanted });
        }
        if let Err(lack) = each_takes(columns, values) {
            return Err(lack);
        }
        self.room_for_change()
    }

    fn select(
        &self,
        user: &User,
        list: &Option<Distinct<Name, MAX_ITEMS>>,
        table: Name,
        filter: &[Condition],
    ) -> Result<(), Lack>
        ensures { result ≡ verdict self.now user.now (statements.Select list.now table filter.now) }
    {
        let columns = self.columns(table)?;
        self.list_stands(table, columns, list)?;
        self.columns_stand(table, columns, filter)?;
        let is_owner = self.owns(user, table);
        self.may_query(user, table, is_owner, columns, list)?;
        self.may_select(user, table, is_owner, filter)?;
        self.columns_take(table, columns, filter)
    }

    fn delete(&self, user: &User, table: Name, filter: &[Condition]) -> Result<(), Lack>
        ensures { result ≡ verdict self.now user.now (statements.Delete table filter.now) }
    {
        let kind = Kind::Delete;
        let atom = Atom { table, kind };
        let columns = self.columns(table)?;
        self.columns_stand(table, columns, filter)?;
        self.may(user, atom)?;
        self.may_filter(user, table, filter)?;
        self.columns_take(table, columns, filter)?;
        self.room_for_change()
    }

    fn update(
        &self,
        user: &User,
        table: Name,
        sets: &[Assignment],
        filter: &[Condition],
    ) -> Result<(), Lack>
        ensures { result ≡ verdict self.now user.now (statements.Update table sets.now filter.now) }
    {
        let columns = self.columns(table)?;
        self.columns_stand(table, columns, sets)?;
        self.columns_stand(table, columns, filter)?;
        self.may_update(user, table, sets)?;
        self.may_filter(user, table, filter)?;
        self.columns_take(table, columns, sets)?;
        self.columns_take(table, columns, filter)?;
        self.room_for_change()
    }

    // No `?` in the next two, nor in a loop that names no atom: the toolchain can't build a proof
    // of it.
    fn grant(
        &self,
        user: &User,
        privileges: &[Privilege],
        table: Name,
        users: &[User],
        option: bool,
    ) -> Result<(), Lack>
        ensures { result ≡ verdict self.now user.now
            (statements.Grant privileges.now table users.now option) }
    {
        let user = *user;
        let may_grant = HoldsGrantOption { judge: self, user };
        let room = RoomForGrants { judge: self, users };
        if let Err(lack) = self.table_stands(table) {
            return Err(lack);
        }
        if let Err(lack) = self.listed_stand(table, privileges) {
            return Err(lack);
        }
        if let Err(lack) = self.each_atom(&may_grant, table, privileges) {
            return Err(lack);
        }
        if let Err(lack) = self.room_for_change() {
            return Err(lack);
        }
        self.each_atom(&room, table, privileges)
    }

    // What is asked of a revocation, of which the check says what has to be in force of each atom.
    fn revocation<C: AtomCheck>(
        &self,
        in_force: &C,
        table: Name,
        privileges: &[Privilege],
    ) -> Result<(), Lack>
        ensures { result ≡ first_lack
            (table_stands self.now table
            ∷ listed_columns_stand self.now table privileges.now
            ∷ each (atoms_at self.now.tables table privileges.now) (C.check_of in_force.now)
            ∷ room_for_change self.now
            ∷ []) }
    {
        if let Err(lack) = self.table_stands(table) {
            return Err(lack);
        }
        if let Err(lack) = self.listed_stand(table, privileges) {
            return Err(lack);
        }
        if let Err(lack) = self.each_atom(in_force, table, privileges) {
            return Err(lack);
        }
        self.room_for_change()
    }

    fn revoke(
        &self,
        user: &User,
        privileges: &[Privilege],
        table: Name,
        users: &[User],
    ) -> Result<(), Lack>
        ensures { result ≡ verdict self.now user.now
            (statements.Revoke privileges.now table users.now) }
    {
        let by = *user;
        let made = MadeGrants {
            judge: self,
            by,
            users,
        };
        self.revocation(&made, table, privileges)
    }

    fn revoke_option(
        &self,
        user: &User,
        privileges: &[Privilege],
        table: Name,
        users: &[User],
    ) -> Result<(), Lack>
        ensures { result ≡ verdict self.now user.now
            (statements.RevokeOption privileges.now table users.now) }
    {
        let by = *user;
        let given = GivenOptions {
            judge: self,
            by,
            users,
        };
        self.revocation(&given, table, privileges)
    }

    /// The table that an export is limited to stands.
    fn export(&self, only: &Option<Name>) -> Result<(), Lack>
        ensures { (user : User) (number : ℕ)
            → result ≡ verdict self.now user (statements.Export number only.now) }
    {
        match only {
            None => Ok(()),
            Some(table) => self.table_stands(*table),
        }
    }

    /// Whether the statement may be carried out, or the first lack.
    pub fn judge(&self, user: &User, statement: &Statement) -> Result<(), Lack>
        ensures { result ≡ verdict self.now user.now statement.now }
    {
        match statement {
            Statement::CreateTable { table, columns: _ } => self.create(*table),
            Statement::Insert { table, values } => self.insert(user, *table, values.as_slice()),
            Statement::Select {
                list,
                table,
                filter,
            } => { self.select(user, list, *table, filter.as_slice()) }
            Statement::Delete { table, filter } => self.delete(user, *table, filter.as_slice()),
            Statement::Update {
                table,
                sets,
                filter,
            } => { self.update(user, *table, sets.as_slice(), filter.as_slice()) }
            Statement::Grant {
                privileges,
                table,
                users,
                option,
            } => self.grant(
                user,
                privileges.as_slice(),
                *table,
                users.as_slice(),
                *option,
            ),
            Statement::Revoke {
                privileges,
                table,
                users,
            } => self.revoke(user, privileges.as_slice(), *table, users.as_slice()),
            Statement::RevokeOption {
                privileges,
                table,
                users,
            } => self.revoke_option(user, privileges.as_slice(), *table, users.as_slice()),
            Statement::Checkpoint | Statement::Checkpoints => Ok(()),
            Statement::Export { number: _, only } => self.export(only),
        }
    }

    /// Whether the statement may be carried out.
    // By itself, so that INSERT does not pay for the room of its lack.
    #[inline(never)]
    fn passes_judge(&self, user: &User, statement: &Statement) -> bool
        ensures { result ≡ is_ok (verdict self.now user.now statement.now) }
    {
        self.judge(user, statement).is_ok()
    }

    /// Whether the statement may be carried out. Where it is an INSERT no lack is made.
    #[inline(always)]
    pub fn passes(&self, user: &User, statement: &Statement) -> bool
        ensures { result ≡ is_ok (verdict self.now user.now statement.now) }
    {
        match statement {
            Statement::Insert { table, values } => {
                self.insert(user, *table, values.as_slice()).is_ok()
            }
            _ => self.passes_judge(user, statement),
        }
    }
}
