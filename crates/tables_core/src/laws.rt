//! Laws of what tables hold, each a contract.
ghost use Rattle.std.specs.Prelude.{List};
ghost use Rattle.base_core.specs.declared.name.User.{User};
ghost use Rattle.base_core.specs.declared.value.Row.{Row};
ghost use Rattle.base_core.specs.declared.value.Column.{Column};
ghost use Rattle.base_core.specs.declared.condition.Condition.{Condition};
ghost use Rattle.base_core.specs.declared.condition.Assignment.{Assignment};
ghost use Rattle.tables_core.specs.Fitting.{ValuesFit, AssignmentsFit, RowsFit};
ghost use Rattle.tables_core.specs.Contents.{Table, empty_table, with_row, without_chosen_rows, with_updated_rows};
ghost use Rattle.tables_core.specs.Laws.{LookUpAfterChange, LookUpAfterNew, NamesAfterChange, HasRisingNumbers, KeepsNumbered};

/// What look-ups find after a change to one table, and after a new one; and that a change to one
/// table leaves the names in their order.
pub fn look_ups_after_changes()
    ensures changed { LookUpAfterChange }
    ensures created { LookUpAfterNew }
    ensures names { NamesAfterChange }
{}

/// The numbers of a table's rows rise, and its next number is above them all: at first, and after
/// each change. So no two rows of a table have one number.
pub fn numbers_rise()
    ensures opened { (owner : User) (columns : List Column)
        → HasRisingNumbers (empty_table owner columns) }
    ensures inserted { (row : Row) → KeepsNumbered (with_row row) }
    ensures deleted { (conditions : List Condition)
        → KeepsNumbered (without_chosen_rows conditions) }
    ensures updated { (sets : List Assignment) (conditions : List Condition)
        → KeepsNumbered (with_updated_rows sets conditions) }
{}

/// The rows of a table fit its columns, as many values as columns and each of its column's type: at
/// first, after a row that fits, after assignments that fit, and after each deletion.
pub fn rows_fit()
    ensures opened { (owner : User) (columns : List Column) → RowsFit (empty_table owner columns) }
    ensures inserted { (t : Table) (row : Row)
        → ValuesFit t.columns row.values
        → RowsFit t
        → RowsFit (with_row row t) }
    ensures deleted { (t : Table) (conditions : List Condition)
        → RowsFit t
        → RowsFit (without_chosen_rows conditions t) }
    ensures updated { (t : Table) (sets : List Assignment) (conditions : List Condition)
        → AssignmentsFit t.columns sets
        → RowsFit t
        → RowsFit (with_updated_rows sets conditions t) }
{}
