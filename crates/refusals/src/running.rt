//! A run of three events.
use crate::telling::{event, tell_reply, unchanged};
use base_core::Moment;
use std::alloc::Global;
use system_core::{Event, Reply, System};

fn events(alloc: Global) -> Option<Vec<Event>> {
    let mut events = Vec::new(alloc);
    for line in [
        "CREATE TABLE pay (name TEXT, wage INTEGER)",
        "INSERT INTO pay VALUES ('Bo, jr', -5)",
        "SELECT * FROM pay",
    ] {
        events.push(event(alloc, line)?).ok()?;
    }
    Some(events)
}

/// What was done is in the journal, and nothing else.
fn is_kept(system: &System, replies: &[Reply]) -> bool {
    let done = replies
        .iter()
        .filter(|reply| matches!(reply, Reply::Done { .. }))
        .count();
    system.journal().len() == done
        && system.moment() == Moment(done as u64)
        && system.audit() == Ok(Some(0))
}

/// Writes the replies, where no memory was refused: whether that is so.
fn told(rt: &HostRuntime, alloc: Global, system: &System, replies: &[Reply]) -> Option<bool> {
    if replies.len() < 3 || replies.iter().any(Reply::is_refused_memory) {
        unchanged(rt, is_kept(system, replies));
        return Some(false);
    }
    for reply in replies {
        tell_reply(rt, alloc, reply)?;
    }
    Some(true)
}

fn play(rt: &HostRuntime, alloc: Global, system: &mut System) -> Option<bool> {
    let replies = match system.run(events(alloc)?) {
        Ok(replies) => replies,
        Err((_, replies)) => replies,
    };
    let told = told(rt, alloc, system, &replies);
    drop(replies);
    told
}

/// Plays the events with a core of their own: whether all were answered.
fn is_played(rt: &HostRuntime, alloc: Global) -> Option<bool> {
    let mut system = System::new(alloc, 16).ok()?;
    let is_played = play(rt, alloc, &mut system);
    system.free();
    is_played
}

/// A table, a row and a query. Where memory is refused, they are played again from the start.
pub fn run(rt: &HostRuntime, alloc: Global) -> Option<()> {
    if is_played(rt, alloc)? || is_played(rt, alloc)? {
        return Some(());
    }
    None
}
