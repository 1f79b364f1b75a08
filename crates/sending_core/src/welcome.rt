//! What ends a login and begins a session.
ghost use Rattle.std.specs.Prelude.{◌≡◌, false, flat_map};
ghost use Rattle.base_core.specs.Streams.{MayWriteText};
ghost use Rattle.sending_core.specs.Welcome.{login_end, session_begin, setting_status, welcome};

use base_core::{Broken, Sink};
use messages_core::{Bytes, ServerMessage, Status, write_message};
use utility_core::Setting;

/// The settings that a client is told.
const TOLD: [Setting; 7] = [
    Setting::ServerVersion,
    Setting::ServerEncoding,
    Setting::ClientEncoding,
    Setting::DateStyle,
    Setting::TimeZone,
    Setting::IntegerDatetimes,
    Setting::StandardConformingStrings,
];

/// Writes a setting.
fn write_setting<W: Sink>(setting: Setting, writer: &mut W) -> Result<(), Broken>
    requires { W.failed writer.old ≡ false }
    ensures { MayWriteText W.failed W.taken (setting_status setting) result writer.old writer.new }
{
    let name = Bytes::new(setting.name().as_bytes());
    let value = Bytes::new(setting.value().as_bytes());
    write_message(&ServerMessage::ParameterStatus { name, value }, writer)
}

fn write_settings<W: Sink>(settings: &[Setting], writer: &mut W) -> Result<(), Broken>
    requires { W.failed writer.old ≡ false }
    ensures { MayWriteText W.failed W.taken (flat_map setting_status settings.now)
        result writer.old writer.new }
{
    for setting in settings {
        write_setting(*setting, writer)?;
    }
    Ok(())
}

/// Writes that the client is logged in, and the settings.
fn write_login_end<W: Sink>(writer: &mut W) -> Result<(), Broken>
    requires { W.failed writer.old ≡ false }
    ensures { MayWriteText W.failed W.taken login_end result writer.old writer.new }
{
    write_message(&ServerMessage::AuthenticationOk, writer)?;
    write_settings(&TOLD, writer)
}

/// Writes that no statement can be cancelled, as nobody has these numbers, and that one may come.
fn write_session_begin<W: Sink>(writer: &mut W) -> Result<(), Broken>
    requires { W.failed writer.old ≡ false }
    ensures { MayWriteText W.failed W.taken session_begin result writer.old writer.new }
{
    let key = ServerMessage::BackendKeyData {
        process: 0,
        secret: 0,
    };
    write_message(&key, writer)?;
    write_message(&ServerMessage::ReadyForQuery(Status::Idle), writer)
}

/// Writes what ends a login and begins a session.
pub(crate) fn write_welcome<W: Sink>(writer: &mut W) -> Result<(), Broken>
    requires { W.failed writer.old ≡ false }
    ensures { MayWriteText W.failed W.taken welcome result writer.old writer.new }
{
    write_login_end(writer)?;
    write_session_begin(writer)
}
