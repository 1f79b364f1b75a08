//! The users of the system.

use base_core::User;
use std::fs;

// A line for each user: `ann:x:1000:1000:..`.
const USERS: &str = "/etc/passwd";

// The number of the user whose line this is, if it is this one's.
fn number_of(line: &str, user: User) -> Option<u32> {
    let (name, behind) = line.split_once(':')?;
    if name.as_bytes() != user.0.as_bytes() {
        return None;
    }
    behind.split(':').nth(1)?.parse::<u32>().ok()
}

/// The number of the system's user of this name. None where there is no such user, or the system's
/// users cannot be read.
pub fn uid_of(rt: &HostRuntime, user: User) -> Option<u32> {
    let users = fs::read_to_string(rt, USERS).ok()?;
    users
        .as_str()
        .lines()
        .find_map(|line| number_of(line, user))
}
