//! Statements printed, and read back.
use base_core::{Name, User};
use printer_core::{Page, PrintFault, print};
use reader_core::{Statement, read};
use std::alloc::Global;
use std::process::Abort;

/// The canonical texts of the statements that the lines spell, a line for each.
fn reprinted(rt: &impl Abort, alloc: Global, lines: &str) -> String {
    let mut all = String::new(alloc);
    for line in lines.lines() {
        let statement = read(alloc, line.as_bytes()).expect(rt, "a statement");
        let text = print(alloc, &statement).expect(rt, "a text");
        drop(statement);
        all.push_str(text.as_str()).expect(rt, "memory");
        all.push('\n').expect(rt, "memory");
    }
    all
}

const WRITTEN: &str = "\
select NAME from PAY where WAGE<0;
create table T(A integer,B text)
INSERT INTO t VALUES(-0,'it''s', 007 ) ;
Select * From t
SELECT a,b FROM t WHERE a<>1 AND a>='x'
delete\tfrom t
UPDATE t SET a=1 , b='' WHERE a<=-5
grant SELECT,update(a,b)on t to u,v with grant option
revoke insert , delete,update on T from U
grant select(A, b), delete on T to u
revoke grant option for select on T from a
revoke Select ( b , a ) , update(A) on T from u
REVOKE Grant  Option For UPDATE(b,a) ,insert on t from U,v;
CHECKPOINT ;
checkpoints
EXPORT 012
Export 9223372036854775807 only T
";

const PRINTED: &str = "\
SELECT name FROM pay WHERE wage < 0
CREATE TABLE t (a INTEGER, b TEXT)
INSERT INTO t VALUES (0, 'it''s', 7)
SELECT * FROM t
SELECT a, b FROM t WHERE a <> 1 AND a >= 'x'
DELETE FROM t
UPDATE t SET a = 1, b = '' WHERE a <= -5
GRANT SELECT, UPDATE (a, b) ON t TO u, v WITH GRANT OPTION
REVOKE INSERT, DELETE, UPDATE ON t FROM u
GRANT SELECT (a, b), DELETE ON t TO u
REVOKE GRANT OPTION FOR SELECT ON t FROM a
REVOKE SELECT (b, a), UPDATE (a) ON t FROM u
REVOKE GRANT OPTION FOR UPDATE (b, a), INSERT ON t FROM u, v
CHECKPOINT
CHECKPOINTS
EXPORT 12
EXPORT 9223372036854775807 ONLY t
";

#[test]
fn printed(rt: HostRuntime) {
    for lines in [WRITTEN, PRINTED] {
        let texts = reprinted(&rt, rt.alloc(), lines);
        assert!(rt; texts.as_str() == PRINTED);
    }
}

/// Behind each comma of a line the canonical text has a blank. With it the first of these has 4,096
/// bytes.
#[test]
fn too_long_to_print(rt: HostRuntime) {
    for (length, fault) in [(987, None), (988, Some(PrintFault::TooLong))] {
        let line = format!(in rt.alloc();
            "INSERT INTO t VALUES('{0:a<1024}','{0:a<1024}','{0:a<1024}','{0:a<1$}')",
            "", length
        );
        let line = line.expect(&rt, "memory");
        let statement = read(rt.alloc(), line.as_bytes()).expect(&rt, "a statement");
        let printed = print(rt.alloc(), &statement);
        drop(statement);
        assert!(rt; printed.err() == fault);
    }
}

#[test]
fn line_of_a_journal(rt: HostRuntime) {
    let mut page = Page::new(rt.alloc()).expect(&rt, "memory");
    let ann = User(Name::read(b"ann").expect(&rt, "a name"));
    assert!(rt; page.line(ann, &Statement::Checkpoint) == b"ann: CHECKPOINT\n".as_slice());
}
