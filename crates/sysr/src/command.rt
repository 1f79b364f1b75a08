//! What the command line of `sysr` says.
//!
//! [`options`] reads the words of a command line as a [`CommandLine`]: to answer a script
//! ([`Running`]), to serve sessions ([`Serving`]) also at socket files of users' own
//! ([`UserSocketWord`]), to stop a server, ask how it fares or have it read its users anew, to make a
//! user's verifier, to write a journal or a dump of what is read, or to explain the rights that it
//! makes ([`Explaining`]). The last three bear a [`Reading`], which says whether standard input is a
//! journal or a script, what becomes of a journal's last line that was cut off, and whether the status
//! tells of lines that were left out. [`refuse`] shows the help that was asked for, or tells why the
//! words were refused.
//!
//! Each number that is asked for is in its range, and two ports are apart (`specs/Ranges.antt`), so
//! that no command has to look again. What the words and the errors look like is clap's.
//!
//! ```text
//! options(alloc, &["sysr", "run", "--chunk", "4"])?   // Run(Running { chunk: 4, load: None, .. })
//! options(alloc, &["sysr", "journal", "--script"])?   // Journal(Reading { form: Script, .. })
//! options(alloc, &["sysr", "run", "--script"])        // Err, of the kind UnknownArgument
//! ```

mod command_line;
mod commands;
mod explain_commands;
mod questions;
mod reading;
mod reading_flags;
mod users;
mod values;

pub use command_line::{
    CommandLine, JournalSync, OwnFolder, Running, Serving, StatusForm, options, refuse,
};
pub use commands::VERSION;
pub use questions::Explaining;
pub use reading::Reading;
pub use users::UserSocketWord;
