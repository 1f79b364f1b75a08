//! Laws of messages, each the contract of a function that does nothing.
ghost use Rattle.std.specs.Prelude.{◌≡◌, ◌+◌, ◌<◌, ◌^◌, ◌++◌, ℕ, List, Option};
ghost use Rattle.std.specs.List.{flat_map, AllByRecursion};
ghost use Rattle.messages_core.specs.Fields.{counted_items, value, AreBytes, IsCounted, IsValue};
ghost use Rattle.messages_core.specs.Client.{spelling};
ghost use Rattle.messages_core.specs.MessageReading.{IsMessageWithin, IsMessageReading};
ghost use Rattle.messages_core.specs.Start.{start_body, start_spelling, IsStart};
ghost use Rattle.messages_core.specs.StartReading.{IsStartReading};
ghost use Rattle.messages_core.specs.Frames.{IsBodyWithin};
ghost use Rattle.messages_core.specs.Server.{framed, server_spelling, FitsLength, IsWholeServerMessage};
ghost use Rattle.messages_core.specs.declared.client.ClientMessage.{ClientMessage};
ghost use Rattle.messages_core.specs.declared.client.MessageFault.{MessageFault};
ghost use Rattle.messages_core.specs.declared.server.ServerMessage.{ServerMessage};
ghost use Rattle.messages_core.specs.declared.start.StartMessage.{StartMessage};
ghost use Rattle.messages_core.specs.declared.start.StartFault.{StartFault};
ghost use Rattle.messages_core.specs.declared.reading.Reading.{Reading};
ghost use Rattle.messages_core.specs.declared.reading.Reading.TheVariants as readings;

/// Of bytes that a client sent there is one reading: one message and one rest, or one fault, or they
/// want more; and never two of these.
pub fn one_message_reading()
    ensures { (most : ℕ) (bytes : List ℕ) (one other : Reading ClientMessage MessageFault)
        → most + 4 < 2 ^ 31
        → AreBytes bytes
        → IsMessageReading most bytes one
        → IsMessageReading most bytes other
        → one ≡ other }
{}

/// What was spelled is read: of a message and whatever is behind it the reading is that message and that
/// rest.
pub fn spelled_message_is_read()
    ensures { (most : ℕ) (message : ClientMessage) (rest : List ℕ)
        (reading : Reading ClientMessage MessageFault)
        → most + 4 < 2 ^ 31
        → IsMessageWithin most message
        → AreBytes (spelling message ++ rest)
        → IsMessageReading most (spelling message ++ rest) reading
        → reading ≡ readings.Whole message rest }
{}

/// No two lists of messages are spelled alike: a stream is these messages and no others.
pub fn one_list_of_messages()
    ensures { (most : ℕ) (ones others : List ClientMessage)
        → most + 4 < 2 ^ 31
        → AllByRecursion (IsMessageWithin most) ones
        → AllByRecursion (IsMessageWithin most) others
        → flat_map spelling ones ≡ flat_map spelling others
        → ones ≡ others }
{}

/// Of a client's first bytes there is one reading.
pub fn one_start_reading()
    ensures { (most : ℕ) (bytes : List ℕ) (one other : Reading StartMessage StartFault)
        → most + 4 < 2 ^ 31
        → IsStartReading most bytes one
        → IsStartReading most bytes other
        → one ≡ other }
{}

/// A start that was spelled is read.
pub fn spelled_start_is_read()
    ensures { (most : ℕ) (start : StartMessage) (rest : List ℕ)
        (reading : Reading StartMessage StartFault)
        → most + 4 < 2 ^ 31
        → IsStart start
        → IsBodyWithin 4 most (start_body start)
        → IsStartReading most (start_spelling start ++ rest) reading
        → reading ≡ readings.Whole start rest }
{}

/// What servers write is cut in one way: no two lists of types and bodies are spelled alike.
pub fn one_list_of_frames()
    ensures { (ones others : List (ℕ × List ℕ))
        → AllByRecursion (λ frame. FitsLength frame.1) ones
        → AllByRecursion (λ frame. FitsLength frame.1) others
        → flat_map framed ones ≡ flat_map framed others
        → ones ≡ others }
{}

/// No two lists of messages of servers are spelled alike.
pub fn one_list_of_server_messages()
    ensures { (ones others : List ServerMessage)
        → AllByRecursion IsWholeServerMessage ones
        → AllByRecursion IsWholeServerMessage others
        → flat_map server_spelling ones ≡ flat_map server_spelling others
        → ones ≡ others }
{}

/// No two rows are told alike: no NULL is an empty value, and no value is another.
pub fn one_row()
    ensures { (ones others : List (Option (List ℕ)))
        → IsCounted IsValue ones
        → IsCounted IsValue others
        → counted_items value ones ≡ counted_items value others
        → ones ≡ others }
{}
