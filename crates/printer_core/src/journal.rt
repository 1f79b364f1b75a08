//! The lines of a journal.
ghost use Rattle.std.specs.Prelude.{◌≡◌, ◌≤◌, ◌↔◌, ◌++◌, ◌∷◌, [], Some, true, false, nat_le, IfSome, IsSome, length};
ghost use Rattle.base_core.specs.Words.{IsName};
ghost use Rattle.reader_core.specs.Forming.{IsWellFormed};
ghost use Rattle.reader_core.specs.Language.{Spells};
ghost use Rattle.printer_core.specs.Printing.{line_text, added, ended_line, minified, has_literals, HoldsProper};

use crate::page::Page;
use crate::spacing::Spacing;
use base_core::User;
use lexer_core::MAX_LINE;
use reader_core::Statement;

impl Page {
    /// Takes all away that stands on the page, and writes what the user says and a line feed.
    fn write_line(&mut self, spacing: Spacing, user: &User, statement: &Statement)
        ensures text { self.new.text
            ≡ added (Some []) (line_text spacing user.now statement.now ++ 10 ∷ []) }
        ensures name { IsName user.now.0 }
        ensures proper { HoldsProper statement.now }
        ensures well_formed { IsWellFormed statement.now }
    {
        self.start(spacing, user);
        self.statement(statement);
        self.push(b"\n");
    }

    /// Writes the line of a journal and its line feed, where the minified text of the statement has
    /// at most 4,096 bytes. Says whether it has.
    fn write_if_short(&mut self, user: &User, statement: &Statement) -> bool
        ensures short { result ≡ nat_le (length (minified statement.now)) 4096 }
        ensures text { result ≡ true
            → self.new.text ≡ Some (ended_line user.now statement.now) }
        ensures plain { has_literals statement.now ≡ false → result ≡ true }
        ensures spelled { result ≡ true → Spells (minified statement.now) statement.now }
        ensures name { IsName user.now.0 }
    {
        self.write_line(Spacing::Canonical, user, statement);
        if self.fits(MAX_LINE + 1) {
            return true;
        }
        self.write_line(Spacing::Minified, user, statement);
        self.fits(user.0.as_bytes().len() + 1 + MAX_LINE + 1)
    }

    /// The line of a journal that says the statement of the user, as [`Page::line`] has it. `None`
    /// exactly if the statement has more than 4,096 bytes without each blank that may be left out,
    /// so that no line says it. So it may be only with numbers or texts.
    pub fn line_if_short(&mut self, user: User, statement: &Statement) -> Option<&[u8]>
        ensures line { IfSome result (λ line. line.now ≡ ended_line user statement.now) }
        ensures short { IsSome result ↔ length (minified statement.now) ≤ 4096 }
        ensures plain { has_literals statement.now ≡ false → IsSome result }

        // What has a line is said by its minified text, and the user is named.
        ensures spelled { IsSome result → Spells (minified statement.now) statement.now }
        ensures name { IsName user.0 }
    {
        if !self.write_if_short(&user, statement) {
            return None;
        }
        Some(self.as_slice())
    }

    /// The line of a journal that says the statement of the user, `user: statement`, with its line
    /// feed. The statement is canonical where that line has at most 4,096 bytes, and else it has no
    /// blank that may be left out, nor has the colon one behind it. A statement that was read is no
    /// longer then than the line that it was read from (`no_line_is_shorter`).
    ///
    /// The line has at most 4,128 bytes with its line feed, and what stands between its colon and
    /// its line feed at most 4,096. It stands on the page until the next one is written.
    pub fn line(&mut self, user: User, statement: &Statement) -> &[u8]
        requires { length (minified statement.now) ≤ 4096 }
        ensures { result.now ≡ ended_line user statement.now }
    {
        self.write_if_short(&user, statement);
        self.as_slice()
    }
}
