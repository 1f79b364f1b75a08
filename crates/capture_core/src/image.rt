//! What a checkpoint keeps.
ghost use Rattle.std.specs.Prelude.{◌≡◌, false, find};
ghost use Rattle.std.specs.Option.{option_copied};
ghost use Rattle.std.specs.List.{list_any};
ghost use Rattle.base_core.specs.Words.{same_name};
ghost use Rattle.base_core.specs.Privileges.{to_select};
ghost use Rattle.capture_core.specs.Image as images;

use crate::granted::Grants;
use base_core::{Atom, Column, Kind, Moment, Name, Row, Sequence, User};

/// A table as it stood at a checkpoint's point.
#[derive(Drop)]
pub struct TableImage {
    pub name: Name,
    pub owner: User,
    pub columns: Sequence<Column>,
    /// In the order in which they were inserted.
    pub rows: Sequence<Row>,
}

/// The state at a checkpoint's point.
#[derive(Drop)]
pub struct Image {
    /// The number of the checkpoint, from 1 on.
    pub number: u64,
    /// The moment of the state: how many changes were accepted before it was begun.
    pub point: Moment,
    /// All tables, in the order of their creation.
    pub tables: Sequence<TableImage>,
    /// The grants in force, in the order of their numbers.
    pub grants: Grants,
}

impl Image {
    fn table(&self, name: Name) -> Option<&TableImage>
        ensures { option_copied result ≡ find (λ t. same_name name t.name) self.now.tables }
    {
        self.tables
            .as_slice()
            .iter()
            .find(|table| name == table.name)
    }

    /// Whether a table of this name stood at the point. It takes no memory.
    pub fn has(&self, name: Name) -> bool
        ensures { result ≡ images.has self.now name }
    {
        self.tables
            .as_slice()
            .iter()
            .any(|table| name == table.name)
    }

    /// The columns of the table of this name at the point, and none where no such table stood. It
    /// takes no memory.
    pub fn columns(&self, name: Name) -> &[Column]
        ensures { result.now ≡ images.columns_in self.now name }
    {
        match self.table(name) {
            Some(table) => table.columns.as_slice(),
            None => &[],
        }
    }

    /// Whether the user owned the atom's table at the point. It takes no memory.
    #[tactic(auto, unfolding(crate::specs::Image::owns_in_image))]
    pub fn owns(&self, user: &User, atom: &Atom) -> bool
        ensures { result ≡ images.owns_in_image self.now user.now atom.now }
    {
        match self.table(atom.table) {
            Some(table) => table.owner == *user,
            None => false,
        }
    }

    /// Whether the user held the atom at the point: he owned its table, or a grant that was in
    /// force gave it to him (Griffiths and Wade 1976). It takes no memory.
    pub fn holds(&self, user: User, atom: &Atom) -> bool
        ensures { result ≡ images.holds_in_image self.now user atom.now }
    {
        self.owns(&user, atom) || self.grants.gives(&user, atom)
    }

    /// Whether the user held SELECT of one of these columns of the table at the point. It goes over
    /// the grants once, and takes no memory.
    pub fn holds_one(&self, user: User, table: Name, columns: &[Column]) -> bool
        ensures { result ≡ list_any
            (λ c. images.holds_in_image self.now user (to_select table c.name)) columns.now }
    {
        match columns {
            [] => false,
            [first, ..] => {
                let kind = Kind::Select(first.name);
                self.owns(&user, &Atom { table, kind })
                    || self.grants.give_one(&user, table, columns)
            }
        }
    }
}
