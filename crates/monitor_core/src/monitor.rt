//! What the monitor is asked.
ghost use Rattle.std.specs.Prelude.{◌≡◌, Err};
ghost use Rattle.std.specs.Result.{result_ok};
ghost use Rattle.monitor_core.specs.Verdict.{verdict, is_change, allowed_by};

use crate::allowed::Allowed;
use crate::judging::Judge;
use base_core::{Lack, Limits, Moment, User};
use grants_core::Authority;
use reader_core::Statement;
use tables_core::Tables;

/// Whether a statement is a change: one that makes a moment, if it is allowed.
pub fn is_change(statement: &Statement) -> bool
    ensures { result ≡ is_change statement.now }
{
    match statement {
        Statement::CreateTable { .. }
        | Statement::Insert { .. }
        | Statement::Delete { .. }
        | Statement::Update { .. }
        | Statement::Grant { .. }
        | Statement::Revoke { .. }
        | Statement::RevokeOption { .. } => true,
        Statement::Select { .. }
        | Statement::Checkpoint
        | Statement::Checkpoints
        | Statement::Export { .. } => false,
    }
}

/// Whether a user's statement may be carried out by these tables and rights, at this moment, under
/// these limits.
///
/// `rights` are the owners of the tables and the grants in force. `moment` is the number of changes
/// accepted so far, `limits.changes` how many there may be; `limits.tables` is how many tables
/// there may be, and `limits.grants` how many grants of one privilege on one table (of SELECT and
/// UPDATE: on one column) may be in force. The checkpoints' limit is not read.
///
/// The answer is the verdict of `specs/Verdict.antt`: `Ok`, with whether the statement is a change,
/// or the first of these lacks in the order of the statement's checks.
///
/// - `NoTable`: the table named is none. Of every statement but CREATE TABLE, CHECKPOINT and
///   CHECKPOINTS; of EXPORT where one table is named.
/// - `TableExists`: the name of CREATE TABLE is a table's.
/// - `NoColumn`: the table has no such column: of the list of SELECT, of SET, of WHERE, and of
///   SELECT and UPDATE with columns in GRANT and in both forms of REVOKE.
/// - `NoPrivilege`: the user neither owns the table nor has a grant in force of what is needed:
///   INSERT, DELETE, UPDATE of each column of SET, SELECT of each column that a query gives, and
///   then SELECT of each column of WHERE.
/// - `NoGrantOption`: GRANT, where he neither owns the table nor has such a grant with the option.
/// - `NoGrant`: REVOKE, where no grant by him to that user is in force: only who
///   granted revokes (Griffiths and Wade 1976).
/// - `NoOptionGiven`: REVOKE GRANT OPTION FOR, where no grant by him to that user is in force with
///   the option.
/// - `WrongCount`: INSERT with more or fewer values than the table has columns.
/// - `WrongType`: a column does not take the value that INSERT, SET or WHERE gives for it.
/// - `Full`: of changes, where as many were accepted as there may be, for a statement that is a
///   change; of tables, for CREATE TABLE; of grants, where with a grant to each user named there
///   would be too many of one privilege.
///
/// Nothing is changed, and no memory is taken.
pub fn judge<A: Authority>(
    tables: &Tables,
    rights: &A,
    limits: &Limits,
    user: User,
    statement: &Statement,
    moment: Moment,
) -> Result<Allowed, Lack>
    ensures verdict { result
        ≡ allowed_by
        (verdict
        (record {
          tables = tables.now.tables;
          rights = A.content rights.now;
          limits = limits.now;
          moment = moment.0;
        })
        user statement.now)
        statement.now }
    ensures memory { result ≡ Err Lack.NoMemory → ⊥ }
{
    let judge = Judge {
        tables,
        rights,
        limits,
        moment,
    };
    match judge.judge(&user, statement) {
        Ok(()) => Ok(Allowed {
            change: is_change(statement),
        }),
        Err(lack) => Err(lack),
    }
}

/// What [`judge`] allows, asked the same, without the lack, which is large to make and to hand on.
pub fn allows<A: Authority>(
    tables: &Tables,
    rights: &A,
    limits: &Limits,
    user: &User,
    statement: &Statement,
    moment: Moment,
) -> Option<Allowed>
    ensures { result
        ≡ result_ok
        (allowed_by
        (verdict
        (record {
          tables = tables.now.tables;
          rights = A.content rights.now;
          limits = limits.now;
          moment = moment.0;
        })
        user.now statement.now)
        statement.now) }
{
    let judge = Judge {
        tables,
        rights,
        limits,
        moment,
    };
    if !judge.passes(user, statement) {
        return None;
    }
    let change = is_change(statement);
    Some(Allowed { change })
}
