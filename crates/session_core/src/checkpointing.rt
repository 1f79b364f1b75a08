//! The checkpointer.
ghost use Rattle.std.specs.Prelude.{◌≡◌, ◌^◌, Some, OnErr};
ghost use Rattle.session_core.specs.Checking.{Looks, LooksRepeatedly};
ghost use Rattle.session_core.specs.Gains.{Watches};

use crate::witness::Witness;
use base_core::Lack;
use desk_core::{Desk, Pass};
use journal_core::Keeper;
use std::sync::Wait;
use std::sync::atomic::{AtomicBool, Ordering};
use std::time::Clock;
use system_core::Reply;
use turnstile::Worn;

/// A step of the active checkpoint, which is given up exactly where the step was refused memory.
fn look<K: Keeper + Drop, R: Wait>(rt: &R, desk: &Desk<K>, pass: &mut Pass<K>) -> Reply
    requires { pass.old.lock ≡ Some desk.now }
    ensures { Looks desk.now result pass.old pass.new }
{
    match desk.checkpoint_turn(rt, pass) {
        Reply::Refused { at, lack } => match lack {
            Lack::NoMemory => desk.abandon_turn(rt, pass),
            lack => Reply::Refused { at, lack },
        },
        reply => reply,
    }
}

/// Takes steps of the active checkpoint, each in a turn of the pass, until the flag is set. A
/// checkpoint is given up exactly where its step was refused memory, in the turn of the pass behind
/// that. The pass makes no entry. Where no checkpoint is active the gate has it rest before it looks again;
/// between two steps it calls the gate with the number of records that are left. `Worn` where all turns
/// are drawn.
pub fn checkpointer<K: Keeper + Drop, R: Wait + Clock, G: Witness>(
    rt: &R,
    desk: &Desk<K>,
    pass: &mut Pass<K>,
    gate: &G,
    stop: &AtomicBool,
) -> Result<(), Worn>
    requires { pass.old.lock ≡ Some desk.now }
    ensures looks { LooksRepeatedly desk.now pass.old pass.new }
    ensures watches { Watches pass.old pass.new }
    ensures worn { OnErr result (pass.new.drawn ≡ 2 ^ 62) }
{
    for _ in rt.forever() {
        if stop.load(Ordering::SeqCst) {
            return Ok(());
        }
        let reply = look(rt, desk, pass);
        match &reply {
            Reply::Idle => gate.rest(rt),
            Reply::Stepped { left, .. } => gate.before_step(*left),
            Reply::Refused { lack, .. } => match lack {
                Lack::Worn => return Err(Worn),
                _ => {}
            },
            _ => {}
        }
    }
    unreachable!()
}
