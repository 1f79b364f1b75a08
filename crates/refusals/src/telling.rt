//! What is written, and what is said to a core.
use base_core::{Name, User};
use reader_core::read;
use reply_core::reply_text;
use std::alloc::Global;
use std::io::Write;
use system_core::{Event, Reply, System};

/// Writes these bytes.
pub fn tell(rt: &HostRuntime, bytes: &[u8]) {
    let mut out = rt.stdout();
    let _ = out.write_all(bytes);
}

/// Says where a call that was refused has not left all as it was.
pub fn unchanged(rt: &HostRuntime, is_unchanged: bool) {
    if !is_unchanged {
        tell(rt, b"changed by a refusal\n");
    }
}

pub fn named(name: &str) -> Option<Name> {
    Name::read(name.as_bytes())
}

/// A step of the checkpointer, or what a user says: ann, where none is named. Behind `describe` it is only
/// described.
pub fn event(alloc: Global, line: &str) -> Option<Event> {
    if line == "step" {
        return Some(Event::Step);
    }
    let (line, described) = match line.strip_prefix("describe ") {
        Some(line) => (line, true),
        None => (line, false),
    };
    let (user, statement) = line.split_once(": ").unwrap_or(("ann", line));
    let user = User(named(user)?);
    let statement = read(alloc, statement.as_bytes()).ok()?;
    if described {
        return Some(Event::Describe { user, statement });
    }
    Some(Event::Say {
        pass: 0,
        user,
        statement,
    })
}

/// Writes the text of a reply.
pub fn tell_reply(rt: &HostRuntime, alloc: Global, reply: &Reply) -> Option<()> {
    let text = reply_text(alloc, reply).ok()?;
    tell(rt, &text);
    Some(())
}

/// What the core answers, which is asked again where it was refused.
pub fn ask(rt: &HostRuntime, alloc: Global, system: &mut System, line: &str) -> Option<Reply> {
    let before = system.moment();
    let reply = system.step(event(alloc, line)?);
    if !reply.is_refused_memory() {
        return Some(reply);
    }
    drop(reply);
    unchanged(rt, system.moment() == before);
    Some(system.step(event(alloc, line)?))
}

/// Says a line, whose answer nobody looks at.
pub fn say(rt: &HostRuntime, alloc: Global, system: &mut System, line: &str) -> Option<()> {
    let reply = ask(rt, alloc, system, line)?;
    drop(reply);
    Some(())
}
