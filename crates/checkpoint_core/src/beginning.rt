//! Checkpoints of a server's own, begun and waited for.
ghost use Rattle.std.specs.Prelude.{◌≡◌, Some};
ghost use Rattle.session_core.specs.Tending.{Tends};

use crate::fault::CheckpointFault;
use base_core::{Lack, NoMemory, User};
use desk_core::{Desk, Pass};
use journal_core::Keeper;
use reader_core::Statement;
use session_core::Witness;
use std::sync::Wait;
use std::sync::atomic::{AtomicBool, Ordering};
use std::thread;
use std::time::{Clock, Duration};
use system_core::Reply;

// For how many milliseconds it is waited until a checkpoint is looked for again.
const PAUSE_MILLIS: u64 = 5;

/// Says CHECKPOINT as this user. The number of the checkpoint that was begun; none where another is being
/// captured.
fn begun<R: Wait, K: Keeper + Drop, G: Witness>(
    rt: &R,
    desk: &Desk<K>,
    pass: &mut Pass<K>,
    user: &User,
    witness: &G,
) -> Result<Option<u64>, CheckpointFault>
    requires { pass.old.lock ≡ Some desk.now }
    ensures { Tends desk.now pass.old pass.new }
{
    let Ok(reply) = desk.execute(rt, pass, *user, Statement::Checkpoint) else {
        unreachable!()
    };
    match &reply {
        Reply::Begun { number, .. } => {
            witness.replied(user, &reply);
            Ok(Some(*number))
        }
        Reply::Refused { lack, .. } => match lack {
            Lack::Busy => Ok(None),
            Lack::Worn => Err(CheckpointFault::Worn),
            _ => Err(CheckpointFault::Refused),
        },
        _ => Err(CheckpointFault::Refused),
    }
}

/// Whether the checkpoint of this number is kept.
fn is_kept<R: Wait, K: Keeper + Drop>(
    rt: &R,
    desk: &Desk<K>,
    pass: &mut Pass<K>,
    number: u64,
) -> Result<bool, CheckpointFault>
    requires { pass.old.lock ≡ Some desk.now }
    ensures { Tends desk.now pass.old pass.new }
{
    match desk.image(rt, pass, number) {
        None => Err(CheckpointFault::Worn),
        Some(Err(NoMemory)) => Err(CheckpointFault::NoMemory),
        Some(Ok(image)) => Ok(image.is_some()),
    }
}

/// Says CHECKPOINT as this user, waits until that is kept, and tells its number. While another is being captured it
/// waits for that, and where its own was given up it begins one more. `Stopped` once the flag is set.
pub fn taken<R: Wait + Clock, K: Keeper + Drop, G: Witness>(
    rt: &R,
    desk: &Desk<K>,
    pass: &mut Pass<K>,
    user: &User,
    witness: &G,
    stop: &AtomicBool,
) -> Result<u64, CheckpointFault>
    requires { pass.old.lock ≡ Some desk.now }
    ensures { Tends desk.now pass.old pass.new }
{
    let mut own = None;
    for _ in rt.forever() {
        if stop.load(Ordering::SeqCst) {
            return Err(CheckpointFault::Stopped);
        }
        if let Some(number) = own {
            if is_kept(rt, desk, pass, number)? {
                return Ok(number);
            }
        }
        // While it is captured no other may begin.
        if let Some(number) = begun(rt, desk, pass, user, witness)? {
            own = Some(number);
        }
        thread::sleep(rt, Duration::from_millis(PAUSE_MILLIS));
    }
    unreachable!()
}
