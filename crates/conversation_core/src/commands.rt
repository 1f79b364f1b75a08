//! Commands beside the language, obeyed.
ghost use Rattle.std.specs.Prelude.{◌≡◌, ◌≤◌, ◌+◌, ◌++◌, ℕ, List, true, IfSome, Some, slice_get, if◌then◌else◌};
ghost use Rattle.std.specs.Str.{bytes_eq};
ghost use Rattle.std.specs.List.{list_any};
ghost use Rattle.base_core.specs.Words.{folded};
ghost use Rattle.sending_core.specs.Queue.{capacity};
ghost use Rattle.utility_core.specs.Words.{words_of};
ghost use Rattle.conversation_core.specs.State.{Adds, is_called, without_statement};
ghost use Rattle.conversation_core.specs.Telling.{Drops, IsWordAt, Obeys, behind_block, behind_command, command_items};

use crate::conversation::Conversation;
use crate::telling::Telling;
use lexer_core::{Token, read_tokens};
use messages_core::{Status, format_at};
use sending_core::{Item, Plain, Problem};
use utility_core::{Command, underscored_name};

/// Whether the name is this word in small letters.
fn spells(mut name: &[u8], mut word: &[u8]) -> bool
    ensures { result ≡ bytes_eq name.entry.now (folded word.entry.now) }
{
    while let [letter, letters @ ..] = name {
        match word {
            [byte, behind @ ..] if byte.to_ascii_lowercase() == *letter => {
                name = letters;
                word = behind;
            }
            _ => return false,
        }
    }
    word.is_empty()
}

/// The bytes of the token at this place, if there is one.
fn token_bytes<'a>(tokens: &[Token], line: &'a [u8], place: usize) -> Option<&'a [u8]>
    ensures { IfSome result (λ word.
        slice_get (words_of line.now tokens.now) place ≡ Some (folded word.now)) }
{
    let token = tokens.get(place)?;
    line.get(token.start..token.end)
}

/// The word at this place of a line, if there is memory to read it.
fn word_at<'a>(tokens: &mut Vec<Token>, line: &'a [u8], place: usize) -> Option<&'a [u8]>
    ensures { IfSome result (λ word. IsWordAt line.now place (folded word.now)) }
{
    match read_tokens(tokens, line) {
        Ok(()) => token_bytes(tokens.as_slice(), line, place),
        Err(_) => None,
    }
}

impl Conversation {
    /// Whether a statement was prepared by this word as its name.
    fn has_statement(&self, word: &[u8]) -> bool
        ensures { result ≡ list_any (is_called (folded word.now)) self.now.state.statements }
    {
        self.statements
            .iter()
            .any(|statement| spells(statement.name.as_slice(), word))
    }

    /// Drops what was prepared by this word as its name.
    fn drop_statement(&mut self, word: &[u8])
        ensures sending { self.new.sending ≡ self.old.sending }
        ensures state { self.new.state ≡ record (self.old.state) {
          statements = without_statement (folded word.now) self.old.state.statements;
        } }
    {
        self.statements
            .retain(|statement| !spells(statement.name.as_slice(), word));
    }

    /// Ends the block, and closes what was bound in it.
    fn end_block(&mut self)
        ensures sending { self.new.sending ≡ self.old.sending }
        ensures state { self.new.state ≡ behind_block self.old.state }
    {
        self.block = Status::Idle;
        self.close_portals();
    }

    /// Does what a command says to the block, and to what was prepared and bound.
    fn do_command(&mut self, command: Command)
        ensures sending { self.new.sending ≡ self.old.sending }
        ensures state { self.new.state ≡ behind_command command self.old.state }
    {
        match command {
            Command::Begin => self.block = Status::InTransaction,
            Command::Commit | Command::Rollback => self.end_block(),
            Command::DeallocateAll => self.statements.clear(),
            Command::DiscardAll => {
                self.statements.clear();
                self.close_portals();
            }
            Command::CloseAll => self.close_portals(),
            _ => {}
        }
    }

    /// Tells what a command answers that is carried out.
    fn tell_command(&mut self, telling: &Telling, command: Command)
        requires { (if telling.now.is_described then 3 else 2) ≤ self.old.sending.room }
        ensures items { self.new.sending.items
            ≡ self.old.sending.items ++ command_items telling.now command }
        ensures room { self.old.sending.room ≤ self.new.sending.room + 3 }
        ensures capacity { capacity self.new.sending ≡ capacity self.old.sending }
        ensures state { self.new.state ≡ self.old.state }
    {
        let format = format_at(telling.formats.as_slice(), 0);
        if telling.is_described {
            self.add(Item::Plain(Plain::CommandColumn(command, format)));
        }
        self.add(Item::Plain(Plain::CommandRow(command, format)));
        self.add(Item::Plain(Plain::CommandTag(command)));
    }

    /// Drops what was prepared by this name, as the command says. Whether something was.
    fn deallocate_named(&mut self, telling: &Telling, command: Command, name: &[u8]) -> bool
        requires { (if telling.now.is_described then 3 else 2) ≤ self.old.sending.room }
        ensures adds { Adds self.old self.new (λ answer new.
            Drops telling.now command self.old.state (folded name.now) answer new result) }
        ensures room { self.old.sending.room ≤ self.new.sending.room + 3 }
    {
        if !self.has_statement(name) {
            self.tell(Problem::NoStatement);
            return false;
        }
        self.drop_statement(name);
        self.tell_command(telling, command);
        true
    }

    /// DEALLOCATE of the statement whose name is the word at this place of the line. Whether there was one.
    fn deallocate(
        &mut self,
        tokens: &mut Vec<Token>,
        telling: &Telling,
        line: &[u8],
        place: usize,
    ) -> bool
        requires { (if telling.now.is_described then 3 else 2) ≤ self.old.sending.room }
        ensures adds { Adds self.old self.new (λ answer new. Obeys telling.now line.now
            self.old.state (Command.Deallocate place) answer new result) }
        ensures room { self.old.sending.room ≤ self.new.sending.room + 3 }
    {
        let Some(name) = word_at(tokens, line, place) else {
            self.tell(Problem::NoMemory);
            return false;
        };
        self.deallocate_named(telling, Command::Deallocate(place), name)
    }

    /// DEALLOCATE of the statement whose name begins with `_`. Whether there was one.
    fn deallocate_underscored(&mut self, telling: &Telling, line: &[u8]) -> bool
        requires { (if telling.now.is_described then 3 else 2) ≤ self.old.sending.room }
        ensures adds { Adds self.old self.new (λ answer new. Obeys telling.now line.now
            self.old.state Command.DeallocateUnderscored answer new result) }
        ensures room { self.old.sending.room ≤ self.new.sending.room + 3 }
    {
        let Some(name) = underscored_name(line) else {
            self.tell(Problem::NoStatement);
            return false;
        };
        self.deallocate_named(telling, Command::DeallocateUnderscored, name)
    }

    /// COMMIT: one of a block that has failed ends it as ROLLBACK does.
    fn commit(&mut self, telling: &Telling)
        requires { (if telling.now.is_described then 3 else 2) ≤ self.old.sending.room }
        ensures adds { Adds self.old self.new (λ answer new. (line : List ℕ)
            → Obeys telling.now line self.old.state Command.Commit answer new true) }
        ensures room { self.old.sending.room ≤ self.new.sending.room + 3 }
    {
        match self.block {
            Status::InFailedTransaction => {
                self.end_block();
                self.add(Item::Plain(Plain::RolledBack));
            }
            _ => {
                self.end_block();
                self.tell_command(telling, Command::Commit);
            }
        }
    }

    /// Answers a command of a line. Whether it went well. What the vector of tokens has before and behind the
    /// call means nothing.
    pub(crate) fn obey(
        &mut self,
        tokens: &mut Vec<Token>,
        telling: &Telling,
        line: &[u8],
        command: Command,
    ) -> bool
        requires { (if telling.now.is_described then 3 else 2) ≤ self.old.sending.room }
        ensures adds { Adds self.old self.new (λ answer new.
            Obeys telling.now line.now self.old.state command answer new result) }
        ensures room { self.old.sending.room ≤ self.new.sending.room + 3 }
    {
        match command {
            Command::UnknownSetting => {
                self.tell(Problem::UnknownSetting);
                false
            }
            Command::Unserved => {
                self.tell(Problem::Unserved);
                false
            }
            Command::Deallocate(place) => self.deallocate(tokens, telling, line, place),
            Command::DeallocateUnderscored => self.deallocate_underscored(telling, line),
            Command::Commit => {
                self.commit(telling);
                true
            }
            _ => {
                self.do_command(command);
                self.tell_command(telling, command);
                true
            }
        }
    }
}
