//! How exports of whole tables and of some columns go on where a writer failed.
use crate::calls::replies;
use crate::slow::Slow;
use base_core::NoGate;
use export_core::Ticket;
use std::alloc::Global;
use std::process::Abort;
use system_core::{Reply, System};

/// Events, of which the last is an export.
const WHOLE: &str = "\
o: CREATE TABLE t (v INTEGER)
o: INSERT INTO t VALUES (1)
o: INSERT INTO t VALUES (2)
o: CHECKPOINT
step
o: EXPORT 1";

const WHOLE_RECORDS: &'static [u8] = b"table,t,v\nrow,1\nrow,2\nend 1\n";

/// The same of some columns, which are told in the order of the table.
const CUT: &str = "\
o: CREATE TABLE t (v INTEGER, n TEXT, w INTEGER)
o: INSERT INTO t VALUES (1, 'a', 10)
o: INSERT INTO t VALUES (2, 'b, c', 20)
o: GRANT SELECT (w, n) ON t TO u
o: CHECKPOINT
step
u: EXPORT 1";

const CUT_RECORDS: &'static [u8] = b"table,t,n,w\nrow,a,10\nrow,\"b, c\",20\nend 1\n";

/// The export of the last of these events.
fn export(rt: &impl Abort, alloc: Global, lines: &str) -> Ticket {
    let mut system = System::new(alloc, 16).expect(rt, "memory");
    let mut replies = replies(rt, alloc, &mut system, lines);
    let last = replies.pop();
    drop(replies);
    system.free();
    match last {
        Some(Reply::Export(ticket)) => ticket,
        _ => panic!(rt; "no export"),
    }
}

/// What a writer takes of an export that fails after so many bytes, and another writer after it.
fn broken(rt: &impl Abort, alloc: Global, lines: &str, good_writes: usize) -> (Vec<u8>, Vec<u8>) {
    let mut ticket = export(rt, alloc, lines);
    let mut first = Slow::new(alloc, good_writes);
    let mut second = Slow::new(alloc, 1000);
    let _ = ticket.write_to(&mut first, &NoGate);
    let _ = ticket.write_to(&mut second, &NoGate);
    drop(ticket);
    (first.bytes, second.bytes)
}

/// The record in which a writer failed counts as given.
#[test]
fn a_writer_fails(rt: HostRuntime) {
    for (good_writes, given) in [(3, 10), (10, 16), (15, 16), (21, 22), (27, 28)] {
        let (first, second) = broken(&rt, rt.alloc(), WHOLE, good_writes);
        assert!(rt; first.as_slice() == &WHOLE_RECORDS[..good_writes]);
        assert!(rt; second.as_slice() == &WHOLE_RECORDS[given..]);
    }
}

#[test]
fn a_writer_of_some_columns_fails(rt: HostRuntime) {
    for (good_writes, given) in [(3, 12), (12, 21), (20, 21), (30, 35), (40, 41)] {
        let (first, second) = broken(&rt, rt.alloc(), CUT, good_writes);
        assert!(rt; first.as_slice() == &CUT_RECORDS[..good_writes]);
        assert!(rt; second.as_slice() == &CUT_RECORDS[given..]);
    }
}
