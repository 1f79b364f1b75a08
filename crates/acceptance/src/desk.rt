//! A desk with two passes.
ghost use Rattle.std.specs.Prelude.{◌≡◌, Some, []};

use base_core::{Name, NoGate, User};
use desk_core::{Desk, Pass};
use journal_core::NoKeeper;
use reader_core::read;
use reply_core::reply_text;
use session_core::checkpointer;
use std::alloc::Global;
use std::process::Abort;
use std::sync::Wait;
use std::sync::atomic::AtomicBool;
use std::time::Clock;
use system_core::{Reply, System};

/// Puts what the desk answers to ann's statement through this pass behind what was said.
fn ask<R: Wait + Abort>(
    rt: &R,
    alloc: Global,
    desk: &Desk<NoKeeper>,
    pass: &mut Pass<NoKeeper>,
    statement: &str,
    said: &mut Vec<u8>,
)
    requires { pass.old.lock ≡ Some desk.now }
    ensures { pass.new.lock ≡ pass.old.lock }
{
    let ann = User(Name::read(b"ann").expect(rt, "a name"));
    let statement = read(alloc, statement.as_bytes()).expect(rt, "a statement");
    let Ok(reply) = desk.execute(rt, pass, ann, statement) else {
        panic!(rt; "a reply is withheld")
    };
    say(rt, alloc, &reply, said);
    drop(reply);
}

fn say(rt: &impl Abort, alloc: Global, reply: &Reply, said: &mut Vec<u8>) {
    let text = reply_text(alloc, reply).expect(rt, "memory");
    said.extend_from_slice(&text).expect(rt, "memory");
}

/// The desk describes what ann would say through this pass, and does not carry it out.
fn describe<R: Wait + Abort>(
    rt: &R,
    alloc: Global,
    desk: &Desk<NoKeeper>,
    pass: &mut Pass<NoKeeper>,
    statement: &str,
)
    requires { pass.old.lock ≡ Some desk.now }
    ensures { pass.new.lock ≡ pass.old.lock }
{
    let ann = User(Name::read(b"ann").expect(rt, "a name"));
    let statement = read(alloc, statement.as_bytes()).expect(rt, "a statement");
    let reply = desk.describe(rt, pass, ann, statement);
    assert!(rt; matches!(&reply, Reply::Described { .. }));
    drop(reply);
}

/// The second pass meets what the first has seen, and then both go on.
fn share<R: Wait + Abort>(
    rt: &R,
    alloc: Global,
    desk: &Desk<NoKeeper>,
    first: &mut Pass<NoKeeper>,
    second: &mut Pass<NoKeeper>,
    said: &mut Vec<u8>,
)
    requires first { first.old.lock ≡ Some desk.now }
    requires second { second.old.lock ≡ Some desk.now }
    ensures first { first.new.lock ≡ first.old.lock }
    ensures second { second.new.lock ≡ second.old.lock }
{
    ask(rt, alloc, desk, first, "CREATE TABLE t (x INTEGER)", said);
    ask(rt, alloc, desk, first, "INSERT INTO t VALUES (7)", said);
    let note = desk.note(first);
    desk.meet(second, note);
    describe(rt, alloc, desk, second, "INSERT INTO t VALUES (8)");
    ask(rt, alloc, desk, second, "SELECT * FROM t", said);
    ask(rt, alloc, desk, first, "CHECKPOINT", said);
    let abandoned = desk.abandon_turn(rt, first);
    say(rt, alloc, &abandoned, said);
    drop(abandoned);
    ask(rt, alloc, desk, second, "CHECKPOINT", said);
    drop(desk.checkpoint_turn(rt, first));
    ask(rt, alloc, desk, second, "CHECKPOINTS", said);
}

/// The core is given back with both passes, and not with one.
fn close(
    rt: &impl Abort,
    desk: Desk<NoKeeper>,
    first: Pass<NoKeeper>,
    second: Pass<NoKeeper>,
    mut passes: Vec<Pass<NoKeeper>>,
) -> System
    requires first { first.lock ≡ Some desk }
    requires second { second.lock ≡ Some desk }
    requires others { passes.items ≡ [] }
{
    assert!(rt; passes.push(second).is_ok());
    let (desk, mut passes) = match desk.close(passes) {
        Err(given_back) => given_back,
        Ok((system, _)) => {
            system.free();
            panic!(rt; "closed without a pass")
        }
    };
    assert!(rt; passes.push(first).is_ok());
    let Ok((system, _)) = desk.close(passes) else {
        panic!(rt; "not all passes")
    };
    system
}

/// Who met a note sees what its giver had seen, and the number of a checkpoint that was given up is
/// not used again through another pass.
#[test]
fn freshness(rt: HostRuntime) {
    let mut said = Vec::new(rt.alloc());
    let system = System::new(rt.alloc(), 16).expect(&rt, "memory");
    let (desk, mut passes) = Desk::build(rt.alloc(), system, NoKeeper, 2).expect(&rt, "memory");
    let mut second = passes.pop().expect(&rt, "a pass");
    let mut first = passes.pop().expect(&rt, "a pass");
    share(&rt, rt.alloc(), &desk, &mut first, &mut second, &mut said);
    let system = close(&rt, desk, first, second, passes);
    let [made, inserted] = system.journal() else {
        panic!(rt; "not two entries")
    };
    assert!(rt; made.pass == 0 && inserted.pass == 0);
    system.free();
    let wanted =
        b"done @1\ndone @2\nrows 1 @2\nrow,7\ncheckpoint 1 begun @2\ncheckpoint 1 abandoned\n\
checkpoint 2 begun @2\ncheckpoints 1 @2\nfinished,2,2\n";
    assert!(rt; said.as_slice() == wanted.as_slice());
}

/// Whether the checkpointer is told, like all who come behind the last turn, that no turn is left.
fn wear_out<R: Wait + Clock + Abort>(
    rt: &R,
    alloc: Global,
    desk: &Desk<NoKeeper>,
    pass: &mut Pass<NoKeeper>,
    said: &mut Vec<u8>,
) -> bool
    requires { pass.old.lock ≡ Some desk.now }
    ensures { pass.new.lock ≡ pass.old.lock }
{
    ask(rt, alloc, desk, pass, "CREATE TABLE t (x INTEGER)", said);
    ask(rt, alloc, desk, pass, "INSERT INTO t VALUES (7)", said);
    let step = desk.checkpoint_turn(rt, pass);
    say(rt, alloc, &step, said);
    drop(step);
    checkpointer(rt, desk, pass, &NoGate, &AtomicBool::new(false)).is_err()
}

/// The last of all turns is answered, and none behind it.
#[test]
fn worn(rt: HostRuntime) {
    let mut said = Vec::new(rt.alloc());
    let system = System::new(rt.alloc(), 16).expect(&rt, "memory");
    let start = (1 << 62) - 1;
    let (desk, mut passes) = Desk::build_at(rt.alloc(), system, NoKeeper, 1, start).expect(
        &rt, "memory",
    );
    let mut pass = passes.pop().expect(&rt, "a pass");
    let is_worn = wear_out(&rt, rt.alloc(), &desk, &mut pass, &mut said);
    assert!(rt; passes.push(pass).is_ok());
    let Ok((system, _)) = desk.close(passes) else {
        panic!(rt; "not all passes")
    };
    let changes = system.journal().len();
    system.free();
    assert!(rt; is_worn && changes == 1);
    assert!(rt; said.as_slice() == b"done @1\nrefused: worn\nrefused: worn\n".as_slice());
}
