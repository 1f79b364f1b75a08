//! Laws of exports, each a contract.
ghost use Rattle.export_core.specs.Laws.{KeepsRecords, GivesTogether, ListsAlone, WholeIsUncut};

/// Whatever calls a ticket answers, the records that it gave and those to come are together the
/// ones that it was issued with; and to give some and then more is to give as many at once.
pub fn records_are_given_in_order()
    ensures kept { KeepsRecords }
    ensures on { GivesTogether }
{}

/// An export of one table alone, which the user may have, lists that table, cut to the columns that
/// he may select.
pub fn one_table_is_listed()
    ensures { ListsAlone }
{}

/// Of a table of which the user may select each column, the names of all columns are told and all
/// values of each row.
pub fn whole_tables_are_uncut()
    ensures { WholeIsUncut }
{}
