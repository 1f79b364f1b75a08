//! An export and a checkpoint that are held up, while another session goes on.
ghost use Rattle.std.specs.Prelude.{◌≡◌, Some, false};

use crate::slow::Slow;
use base_core::{Gate, Name, NoGate, User};
use desk_core::{Desk, Pass};
use journal_core::NoKeeper;
use reply_core::ReplyBuffer;
use session_core::{Witness, checkpointer, serve_line};
use std::alloc::Global;
use std::mem::forget;
use std::process::Abort;
use std::sync::Wait;
use std::sync::atomic::{AtomicBool, Ordering};
use std::thread;
use std::thread::{Threads, join};
use std::time::{Clock, Duration};
use system_core::System;

/// Whether the flag is set within 10,000 milliseconds.
fn comes_true<R: Clock>(rt: &R, flag: &AtomicBool) -> bool {
    for _ in 0..10_000u32 {
        if flag.load(Ordering::SeqCst) {
            return true;
        }
        thread::sleep(rt, Duration::from_millis(1));
    }
    false
}

/// A gate that holds an export before its second record, or a checkpoint with one record left,
/// until another session was answered.
#[derive(Drop)]
struct Held<'a, R> {
    rt: &'a R,
    holds_exports: bool,
    reached: &'a AtomicBool,
    answered: &'a AtomicBool,
    in_time: &'a AtomicBool,
}

impl<'a, R: Clock> Held<'a, R> {
    fn hold(&self) {
        self.reached.store(true, Ordering::SeqCst);
        let came = comes_true(self.rt, self.answered);
        self.in_time.store(came, Ordering::SeqCst);
    }
}

impl<'a, R: Clock> Witness for Held<'a, R> {}

impl<'a, R: Clock> Gate for Held<'a, R> {
    fn before_record(&self, given: u64) {
        if self.holds_exports && given == 1 {
            self.hold();
        }
    }

    fn before_step(&self, left: u64) {
        if !self.holds_exports && left == 1 {
            self.hold();
        }
    }
}

/// What is written for ann's line.
fn say<R: Wait + Abort, G: Witness>(
    rt: &R,
    alloc: Global,
    desk: &Desk<NoKeeper>,
    pass: &mut Pass<NoKeeper>,
    line: &str,
    gate: &G,
) -> Vec<u8>
    requires { pass.old.lock ≡ Some desk.now }
    ensures { pass.new.lock ≡ pass.old.lock }
{
    let ann = User(Name::read(b"ann").expect(rt, "a name"));
    let line = line.as_bytes();
    let mut buffer = ReplyBuffer::new(alloc).expect(rt, "memory");
    let mut writer = Slow::new(alloc, 1000);
    let _ = serve_line(
        rt,
        alloc,
        desk,
        pass,
        ann,
        line,
        &mut Vec::new(alloc),
        &mut buffer,
        &mut writer,
        gate,
        &mut None,
    );
    writer.bytes
}

/// Waits until the checkpoint of three changes is finished.
fn wait<R: Wait + Clock + Abort>(
    rt: &R,
    alloc: Global,
    desk: &Desk<NoKeeper>,
    pass: &mut Pass<NoKeeper>,
)
    requires { pass.old.lock ≡ Some desk.now }
    ensures { pass.new.lock ≡ pass.old.lock }
{
    for _ in 0..10_000u32 {
        let listed = say(rt, alloc, desk, pass, "CHECKPOINTS", &NoGate);
        if listed.as_slice().ends_with(b"finished,1,3\n") {
            return;
        }
        thread::sleep(rt, Duration::from_millis(1));
    }
}

/// Makes a checkpoint of two rows and, once it is finished, exports it through the gate.
fn exports<R: Wait + Clock + Abort>(
    rt: &R,
    alloc: Global,
    desk: &Desk<NoKeeper>,
    mut pass: Pass<NoKeeper>,
    gate: &Held<'_, R>,
    stop: &AtomicBool,
) -> Vec<u8>
    requires { pass.lock ≡ Some desk.now }
{
    let _ = say(
        rt,
        alloc,
        desk,
        &mut pass,
        "CREATE TABLE t (x INTEGER)",
        &NoGate,
    );
    let _ = say(
        rt,
        alloc,
        desk,
        &mut pass,
        "INSERT INTO t VALUES (1)",
        &NoGate,
    );
    let _ = say(
        rt,
        alloc,
        desk,
        &mut pass,
        "INSERT INTO t VALUES (2)",
        &NoGate,
    );
    let _ = say(rt, alloc, desk, &mut pass, "CHECKPOINT", &NoGate);
    wait(rt, alloc, desk, &mut pass);
    let export = say(rt, alloc, desk, &mut pass, "EXPORT 1", gate);
    stop.store(true, Ordering::SeqCst);
    export
}

/// Says a line once the gate is reached.
fn changes<R: Wait + Clock + Abort>(
    rt: &R,
    alloc: Global,
    desk: &Desk<NoKeeper>,
    mut pass: Pass<NoKeeper>,
    gate: &Held<'_, R>,
    line: &str,
) -> Vec<u8>
    requires { pass.lock ≡ Some desk.now }
{
    let _ = comes_true(rt, gate.reached);
    let said = say(rt, alloc, desk, &mut pass, line, &NoGate);
    gate.answered.store(true, Ordering::SeqCst);
    said
}

fn checks<R: Wait + Clock>(
    rt: &R,
    desk: &Desk<NoKeeper>,
    mut pass: Pass<NoKeeper>,
    gate: &Held<'_, R>,
    stop: &AtomicBool,
)
    requires { pass.lock ≡ Some desk.now }
{
    let _ = checkpointer(rt, desk, &mut pass, gate, stop);
}

/// Both at once: the export, and what the line was told.
fn two_at_once<R: Threads + Wait + Clock + Abort + Sync>(
    rt: &R,
    alloc: Global,
    desk: &Desk<NoKeeper>,
    first: Pass<NoKeeper>,
    second: Pass<NoKeeper>,
    gate: &Held<'_, R>,
    stop: &AtomicBool,
    line: &str,
) -> (Vec<u8>, Vec<u8>)
    requires first { first.lock ≡ Some desk.now }
    requires second { second.lock ≡ Some desk.now }
{
    join(
        rt,
        || -> Vec<u8>
            requires { first.lock ≡ Some desk.now }
        { exports(rt, alloc, desk, first, gate, stop) },
        || -> Vec<u8>
            requires { second.lock ≡ Some desk.now }
        { changes(rt, alloc, desk, second, gate, line) },
    )
}

/// Both beside a checkpointer.
fn all_at_once<R: Threads + Wait + Clock + Abort + Sync>(
    rt: &R,
    alloc: Global,
    desk: &Desk<NoKeeper>,
    first: Pass<NoKeeper>,
    second: Pass<NoKeeper>,
    third: Pass<NoKeeper>,
    gate: &Held<'_, R>,
    line: &str,
) -> (Vec<u8>, Vec<u8>)
    requires first { first.lock ≡ Some desk.now }
    requires second { second.lock ≡ Some desk.now }
    requires third { third.lock ≡ Some desk.now }
{
    let stop = AtomicBool::new(false);
    let stop = &stop;
    let (said, ()) = join(
        rt,
        || -> (Vec<u8>, Vec<u8>)
            requires first { first.lock ≡ Some desk.now }
            requires second { second.lock ≡ Some desk.now }
        { two_at_once(rt, alloc, desk, first, second, gate, stop, line) },
        || -> ()
            requires { third.lock ≡ Some desk.now }
        { checks(rt, desk, third, gate, stop) },
    );
    said
}

/// Holds an export or a checkpoint of the rows 1 and 2 until this line was answered, and wants this
/// answer and this head of the export.
fn hold_up<R: Threads + Wait + Clock + Abort + Sync>(
    rt: &R,
    alloc: Global,
    holds_exports: bool,
    line: &str,
    answer: &str,
    head: &str,
) {
    let system = System::new(alloc, 1).expect(rt, "memory");
    let (desk, mut passes) = Desk::build(alloc, system, NoKeeper, 3).expect(rt, "memory");
    let (Some(third), Some(second), Some(first)) = (passes.pop(), passes.pop(), passes.pop()) else {
        panic!(rt; "no passes")
    };
    let reached = AtomicBool::new(false);
    let answered = AtomicBool::new(false);
    let in_time = AtomicBool::new(false);
    let gate = Held {
        rt,
        holds_exports,
        reached: &reached,
        answered: &answered,
        in_time: &in_time,
    };
    let (export, said) = all_at_once(rt, alloc, &desk, first, second, third, &gate, line);
    assert!(rt; in_time.load(Ordering::SeqCst));
    assert!(rt; said.as_slice() == answer.as_bytes());
    assert!(rt; export.as_slice().starts_with(head.as_bytes()));
    assert!(rt;
        export
            .as_slice()
            .ends_with(b"\ntable,t,x\nrow,1\nrow,2\nend 1\n")
    );
    // A test that let the desk go would prove its destructor.
    forget(desk);
}

/// No turn is held while an export is written.
#[test]
fn an_export_is_held(rt: HostRuntime) {
    let insert = "INSERT INTO t VALUES (3)";
    hold_up(
        &rt,
        rt.alloc(),
        true,
        insert,
        "done @4\n",
        "export 1 point 3 @3\n",
    );
}

/// No turn is held between two steps of a checkpoint, whose rows are those of its point.
#[test]
fn a_checkpoint_is_held(rt: HostRuntime) {
    let head = "export 1 point 3 @4\n";
    hold_up(&rt, rt.alloc(), false, "DELETE FROM t", "done @4\n", head);
}
