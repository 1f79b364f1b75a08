//! Limits and events of the core that no script has, and the calls of it that the program does not
//! make.
use base_core::{Limits, Name, User};
use reader_core::read;
use reply_core::reply_text;
use std::alloc::Global;
use std::process::Abort;
use system_core::{Event, Reply, System};

/// An event in text: a step of the checkpointer, to give up, what a user says, or behind `describe` what
/// he has described.
fn event(rt: &impl Abort, alloc: Global, line: &str) -> Event {
    match line {
        "step" => return Event::Step,
        "abandon" => return Event::Abandon,
        _ => {}
    }
    let (line, described) = match line.strip_prefix("describe ") {
        Some(line) => (line, true),
        None => (line, false),
    };
    let (user, statement) = line.split_once(": ").expect(rt, "a user");
    let user = User(Name::read(user.as_bytes()).expect(rt, "a name"));
    let statement = read(alloc, statement.as_bytes()).expect(rt, "a statement");
    if described {
        return Event::Describe { user, statement };
    }
    Event::Say {
        pass: 0,
        user,
        statement,
    }
}

/// The events of a session: the lines that are no replies, which have four blanks in front.
fn events(rt: &impl Abort, alloc: Global, session: &str) -> Vec<Event> {
    let mut events = Vec::new(alloc);
    for line in session.lines() {
        if !line.starts_with("    ") {
            events.push(event(rt, alloc, line)).expect(rt, "memory");
        }
    }
    events
}

/// The replies that stand in a session.
fn wanted(rt: &impl Abort, alloc: Global, session: &str) -> Vec<u8> {
    let mut all = Vec::new(alloc);
    for line in session.lines() {
        if let Some(reply) = line.strip_prefix("    ") {
            all.extend_from_slice(reply.as_bytes()).expect(rt, "memory");
            all.push(b'\n').expect(rt, "memory");
        }
    }
    all
}

/// What the core answers to a session.
pub fn replies(rt: &impl Abort, alloc: Global, system: &mut System, session: &str) -> Vec<Reply> {
    let Ok(replies) = system.run(events(rt, alloc, session)) else {
        panic!(rt; "no memory for replies")
    };
    replies
}

/// The text of a reply. A description has none that is written: it is told by the names of its columns.
fn text_of(rt: &impl Abort, alloc: Global, reply: &Reply) -> Vec<u8> {
    let Reply::Described { columns, .. } = reply else {
        return reply_text(alloc, reply).expect(rt, "memory");
    };
    let mut text = Vec::new(alloc);
    text.extend_from_slice(b"described").expect(rt, "memory");
    for column in columns.as_slice() {
        text.push(b' ').expect(rt, "memory");
        text.extend_from_slice(column.name.as_bytes())
            .expect(rt, "memory");
    }
    text.push(b'\n').expect(rt, "memory");
    text
}

/// The core answers to a session what stands in it.
fn answers(rt: &impl Abort, alloc: Global, system: &mut System, session: &str) {
    let replies = replies(rt, alloc, system, session);
    let mut said = Vec::new(alloc);
    for reply in &replies {
        let text = text_of(rt, alloc, reply);
        said.extend_from_slice(&text).expect(rt, "memory");
    }
    drop(replies);
    assert!(rt; said.as_slice() == wanted(rt, alloc, session).as_slice());
}

/// Plays a session with a new core.
fn play(rt: &impl Abort, alloc: Global, limits: Limits, session: &str) {
    let mut system = System::with_limits(alloc, 16, limits).expect(rt, "memory");
    answers(rt, alloc, &mut system, session);
    system.free();
}

/// As many changes, tables, grants of one privilege and checkpoints as may be. Of the checks of a
/// statement that for room comes last, and of two for room that for changes first.
const FULL: &str = "\
o: CREATE TABLE t (n TEXT, x INTEGER)
    done @1
o: CREATE TABLE s (x INTEGER)
    refused @1: full: tables
o: GRANT SELECT ON t TO a, b
    refused @1: full: grants
o: GRANT SELECT ON t TO a WITH GRANT OPTION
    done @2
o: CHECKPOINT
    checkpoint 1 begun @2
o: CHECKPOINT
    refused @2: busy
step
o: CHECKPOINT
    refused @2: full: checkpoints
o: CREATE TABLE t (x INTEGER)
    denied @2: table t exists
o: CREATE TABLE s (x INTEGER)
    refused @2: full: changes
o: INSERT INTO t VALUES ('a', 'a')
    refused @2: column x takes INTEGER
o: INSERT INTO t VALUES ('a', 1)
    refused @2: full: changes
o: DELETE FROM t WHERE x = 'a'
    refused @2: column x takes INTEGER
o: DELETE FROM t
    refused @2: full: changes
o: UPDATE t SET x = 'a'
    refused @2: column x takes INTEGER
o: UPDATE t SET x = 1
    refused @2: full: changes
b: GRANT SELECT ON t TO c
    denied @2: b may not grant SELECT(n) on t
o: GRANT SELECT ON t TO b
    refused @2: full: changes
o: REVOKE SELECT ON t FROM b
    denied @2: o granted no SELECT(n) on t to b
o: REVOKE SELECT ON t FROM a
    refused @2: full: changes
o: REVOKE GRANT OPTION FOR SELECT ON t FROM b
    denied @2: o granted no option for SELECT(n) on t to b
o: REVOKE GRANT OPTION FOR SELECT ON t FROM a
    refused @2: full: changes
";

#[test]
fn full(rt: HostRuntime) {
    let limits = Limits {
        changes: 2,
        tables: 1,
        grants: 1,
        checkpoints: 1,
    };
    play(&rt, rt.alloc(), limits, FULL);
}

/// Each column's SELECT has its own room. Of a list that has no room for one column no grant is
/// made.
const FULL_COLUMNS: &str = "\
o: CREATE TABLE t (n TEXT, x INTEGER)
    done @1
o: GRANT SELECT (x) ON t TO a
    done @2
o: GRANT SELECT ON t TO b
    refused @2: full: grants
b: SELECT n FROM t
    denied @2: b lacks SELECT(n) on t
o: GRANT SELECT (n), UPDATE (x) ON t TO b
    done @3
b: SELECT n FROM t
    rows 0 @3
o: GRANT SELECT (n) ON t TO a
    refused @3: full: grants
o: REVOKE SELECT (x) ON t FROM a
    done @4
o: GRANT SELECT (x, n) ON t TO a
    refused @4: full: grants
o: GRANT SELECT (x) ON t TO b
    done @5
b: SELECT * FROM t
    rows 0 @5
";

#[test]
fn full_columns(rt: HostRuntime) {
    let limits = Limits {
        changes: 10,
        tables: 1,
        grants: 1,
        checkpoints: 1,
    };
    play(&rt, rt.alloc(), limits, FULL_COLUMNS);
}

/// A checkpoint has one record at least. The number of one that was given up is not used again, and
/// it counts as one that was begun.
const ABANDONED: &str = "\
o: CHECKPOINT
    checkpoint 1 begun @0
o: CHECKPOINTS
    checkpoints 1 @0
    active,1,0,1
abandon
    checkpoint 1 abandoned
abandon
step
o: CHECKPOINTS
    checkpoints 0 @0
o: CHECKPOINT
    checkpoint 2 begun @0
o: CHECKPOINT
    refused @0: busy
abandon
    checkpoint 2 abandoned
o: CHECKPOINT
    refused @0: full: checkpoints
";

#[test]
fn abandoned(rt: HostRuntime) {
    let limits = Limits {
        changes: 1,
        tables: 1,
        grants: 1,
        checkpoints: 2,
    };
    play(&rt, rt.alloc(), limits, ABANDONED);
}

/// Plays a session, and tells whether an image or what a capture had taken is to be freed then.
fn parts(rt: &impl Abort, alloc: Global, system: &mut System, session: &str) -> (bool, bool) {
    drop(replies(rt, alloc, system, session));
    let parting = system.take_parting();
    let seen = (parting.image.is_some(), parting.taken.is_some());
    parting.free();
    seen
}

/// Each part that the core leaves to be freed is handed out, once.
#[test]
fn parting(rt: HostRuntime) {
    let mut system = System::new(rt.alloc(), 16).expect(&rt, "memory");
    for number in 1..=10 {
        let seen = parts(&rt, rt.alloc(), &mut system, "o: CHECKPOINT\nstep");
        assert!(rt; seen == (number > 8, false));
    }
    let given_up = parts(&rt, rt.alloc(), &mut system, "o: CHECKPOINT\nabandon");
    let nothing = parts(&rt, rt.alloc(), &mut system, "o: CHECKPOINTS");
    system.free();
    assert!(rt; given_up == (false, true) && nothing == (false, false));
}

/// All columns of a table are told, whichever a query lists and whatever values are said. Who would be
/// denied the statement is denied its description. What is full or busy hinders none, and nothing is done.
const DESCRIBED: &str = "\
o: CREATE TABLE t (n TEXT, x INTEGER)
    done @1
o: GRANT SELECT (x) ON t TO a
    done @2
describe o: SELECT * FROM t
    described n x
describe a: SELECT x FROM t WHERE x = 'a'
    described n x
describe a: SELECT * FROM t
    denied @2: a lacks SELECT(n) on t
describe b: SELECT x FROM t
    denied @2: b lacks SELECT(x) on t
describe o: INSERT INTO t VALUES (1)
    described n x
describe o: UPDATE t SET x = 'a'
    described n x
describe o: DELETE FROM s
    denied @2: no table s
describe o: CREATE TABLE t (y INTEGER)
    denied @2: table t exists
describe o: CREATE TABLE s (y INTEGER)
    described
o: CHECKPOINT
    checkpoint 1 begun @2
describe o: CHECKPOINT
    described
describe o: EXPORT 1
    denied @2: no checkpoint 1
step
describe a: EXPORT 1 ONLY t
    described
describe b: EXPORT 1 ONLY t
    denied @2: b lacked SELECT on t
o: CHECKPOINTS
    checkpoints 1 @2
    finished,1,2
o: SELECT * FROM t
    rows 0 @2
";

#[test]
fn described(rt: HostRuntime) {
    let limits = Limits {
        changes: 2,
        tables: 1,
        grants: 1,
        checkpoints: 1,
    };
    play(&rt, rt.alloc(), limits, DESCRIBED);
}
