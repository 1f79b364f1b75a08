//! A desk whose changes are kept as lines.
ghost use Rattle.std.specs.Prelude.{◌≡◌, Some, false};

use base_core::{Broken, Name, Resume, Sink, User};
use desk_core::{Desk, Pass};
use folder_core::Errand;
use journal_core::{Errands, LineKeeper};
use reader_core::read;
use std::alloc::Global;
use std::cell::Cell;
use std::mem::forget;
use std::process::Abort;
use std::rc::Rc;
use std::sync::Wait;
use system_core::System;

/// The bytes that a writer of a test took, and for how many more it has room.
#[derive(Drop)]
struct Sheet {
    bytes: Cell<Vec<u8>>,
    room: Cell<usize>,
}

/// A writer of a test.
#[derive(Drop)]
struct Paper {
    alloc: Global,
    sheet: Rc<Sheet>,
    failed: bool,
}

impl Paper {
    fn new(alloc: Global, sheet: Rc<Sheet>) -> Paper
        ensures { result.failed ≡ false }
    {
        Paper {
            alloc,
            sheet,
            failed: false,
        }
    }
}

impl Sink for Paper {
    ghost use Rattle.std.specs.Prelude.{None, true, refl};

    ghost failed = { λ s. s.failed };

    // The test reads them.
    ghost taken = { λ _. None };

    ghost handed_on = { λ _. None };

    ghost flushed = { λ _. true };

    fn write(&mut self, bytes: &[u8]) -> Result<usize, Broken> {
        let Sheet { bytes: taken, room } = &*self.sheet;
        let left = room.get();
        let count = bytes.len().min(left);
        let mut more = taken.replace(Vec::new(self.alloc));
        let is_kept = more.extend_from_slice(&bytes[..count]).is_ok();
        taken.set(more);
        if !is_kept || count < bytes.len().min(1) {
            self.failed = true;
            return Err(Broken);
        }
        room.set(left - count);
        Ok(count)
    }

    fn flush(&mut self) -> Result<(), Broken> {
        Ok(())
    }

    ghost flushed_hands_on = { λ _ _. refl };
}

impl Resume for Paper {
    fn resume(&mut self) {
        self.failed = false;
    }
}

/// There are none.
impl Errands for Paper {
    ghost use Rattle.std.proofs.Common.{inr, refl};
    ghost use Rattle.std.specs.Prelude.{false};

    ghost may_run = { λ taken errand. Unit {0} };

    ghost knows = { false };

    fn run(&mut self, _errand: Errand) -> bool {
        true
    }

    ghost unknown = { λ sink. inr refl };

    ghost unasked = { λ errand. tt };
}

type Lines = LineKeeper<Paper>;

/// Whether the desk answers what the user says through this pass.
fn is_answered<R: Wait + Abort>(
    rt: &R,
    alloc: Global,
    desk: &Desk<Lines>,
    pass: &mut Pass<Lines>,
    user: &str,
    statement: &str,
) -> bool
    requires { pass.old.lock ≡ Some desk.now }
    ensures { pass.new.lock ≡ pass.old.lock }
{
    let user = User(Name::read(user.as_bytes()).expect(rt, "a name"));
    let statement = read(alloc, statement.as_bytes()).expect(rt, "a statement");
    let told = desk.execute(rt, pass, user, statement);
    let answered = told.is_ok();
    drop(told);
    answered
}

/// Whether each of these is answered where the paper has room for 40 bytes: a change by ann, one by
/// bob that finds no room, a look by ann and one by bob at what he made, and a change by ann; and then,
/// where there is room again, another.
fn are_answered<R: Wait + Abort>(
    rt: &R,
    alloc: Global,
    sheet: &Rc<Sheet>,
) -> (bool, bool, bool, bool, bool, bool) {
    let system = System::new(alloc, 16).expect(rt, "memory");
    let paper = Paper::new(alloc, sheet.clone().expect(rt, "memory"));
    let keeper = LineKeeper::new(alloc, paper).expect(rt, "memory");
    let (desk, mut passes) = Desk::build(alloc, system, keeper, 2).expect(rt, "memory");
    let mut second = passes.pop().expect(rt, "a pass");
    let mut first = passes.pop().expect(rt, "a pass");
    let (ann, bob) = (&mut first, &mut second);
    let made = is_answered(rt, alloc, &desk, ann, "ann", "CREATE TABLE t (x INTEGER)");
    let owed = is_answered(rt, alloc, &desk, bob, "bob", "create table s (y text);");
    let looked = is_answered(rt, alloc, &desk, ann, "ann", "SELECT * FROM t");
    let seen = is_answered(rt, alloc, &desk, bob, "bob", "SELECT * FROM s");
    let barred = is_answered(rt, alloc, &desk, ann, "ann", "CREATE TABLE r (z TEXT)");
    sheet.room.set(1000);
    let settled = is_answered(rt, alloc, &desk, ann, "ann", "INSERT INTO t VALUES (1)");
    // A test that let the desk go would prove its destructor.
    forget(desk);
    (made, owed, looked, seen, barred, settled)
}

/// Each change is kept as a line, through whichever pass it came. One that finds no room is withheld,
/// and so is the next, which is not entered; looks are answered. Where there is room again, what was
/// owed is written first, and nothing twice.
#[test]
fn changes_are_kept(rt: HostRuntime) {
    let alloc = rt.alloc();
    let bytes = Cell::new(Vec::new(alloc));
    let room = Cell::new(40);
    let sheet = Rc::new(alloc, Sheet { bytes, room }).expect(&rt, "memory");
    let answered = are_answered(&rt, alloc, &sheet);
    let bytes = sheet.bytes.replace(Vec::new(alloc));
    let wanted =
        b"ann: CREATE TABLE t (x INTEGER)\nbob: CREATE TABLE s (y TEXT)\nann: INSERT INTO t VALUES (1)\n";
    assert!(rt; answered == (true, false, true, true, false, true));
    assert!(rt; bytes.as_slice() == wanted.as_slice());
}
