//! A page that lines are written on, token by token.
ghost use Rattle.std.specs.Prelude.{◌≡◌, ◌<◌, ◌+◌, ◌^◌, ◌++◌, ◌∷◌, ◌==◌, [], false, length, position, nat_le, IfOk, IfSome, MatchOption};
ghost use Rattle.base_core.specs.Words.{IsName};
ghost use Rattle.lexer_core.specs.Lexing.{Key, Named, Number, Text as Quoted, Sign};
ghost use Rattle.reader_core.specs.Saying.{separator_lexeme, value_says};
ghost use Rattle.printer_core.specs.Printing.{IsStarted, Adds, OpensToken, Prints, colon_text, doubled};

use crate::spacing::{LastToken, Spacing};
use arrayvec::ArrayVec;
use base_core::{Keyword, MAX_NAME, Name, NoMemory, Text, User, Value};
use itoa::Buffer;
use lexer_core::{MAX_LINE, Mark, byte_at};
use reader_core::Separator;
use std::alloc::Global;
use std::marker::Model;

/// The most bytes of a page: those of the longest line of a journal, with its colon and its line
/// feed.
pub const PAGE_BYTES: usize = MAX_NAME + 1 + MAX_LINE + 1;

/// Room for a line, made once. Contracts see the text, if all of it has found room, how it is
/// spaced, and what stands last.
#[derive(Drop)]
pub struct Page {
    bytes: Box<ArrayVec<u8, PAGE_BYTES>>,
    /// Whether something has found no room.
    is_over: bool,
    spacing: Spacing,
    last: LastToken,
}

impl Model for Page {
    ghost use Rattle.std.specs.Prelude.{◌≤◌, Some, None, if◌then◌else◌, length};
    ghost use Rattle.printer_core.specs.Printing.{Sheet};
    ghost use Rattle.printer_core.specs.declared.page.TheConstants.{PAGE_BYTES};

    ghost Value = { Sheet };

    ghost view = { λ p. record {
      text = if p.is_over then None else Some p.bytes.value.items;
      spacing = p.spacing;
      last = p.last;
    } };

    ghost invariant = { λ p. length p.bytes.value.items ≤ PAGE_BYTES };
}

/// The index of the first quote.
fn quote_at(text: &[u8]) -> Option<usize>
    ensures at { result ≡ position (λ b. b == 39) text.now }
    ensures within { IfSome result (λ n. n < length text.now) }
    ensures fits { IfSome result (λ n. n + 1 < 2 ^ 64) }
{
    text.iter().position(|b| *b == b'\'')
}

impl Page {
    /// An empty page, and the memory for all that is written on it. `NoMemory` where the request
    /// was refused.
    pub fn new(alloc: Global) -> Result<Page, NoMemory>
        ensures { IfOk result (IsStarted [] Spacing.Canonical) }
    {
        let bytes = Box::new(alloc, ArrayVec::new())?;
        Ok(Page {
            bytes,
            is_over: false,
            spacing: Spacing::Canonical,
            last: LastToken::Open,
        })
    }

    /// Whether the text is on the page, and has no more bytes than this.
    pub(crate) fn fits(&self, most: usize) -> bool
        ensures { MatchOption self.now.text (result ≡ false)
            (λ text. result ≡ nat_le (length text) most) }
    {
        !self.is_over && self.bytes.len() <= most
    }

    pub(crate) fn as_slice(&self) -> &[u8]
        ensures { IfSome self.now.text (λ text. result.now ≡ text) }
    {
        self.bytes.as_slice()
    }

    /// Adds the bytes, where they have room. It takes no memory.
    #[inline(always)]
    pub(crate) fn push(&mut self, part: &[u8])
        ensures { Adds part.now self.old self.new }
    {
        match self.bytes.try_extend_from_slice(part) {
            Ok(()) => {}
            Err(_) => self.is_over = true,
        }
    }

    /// Takes all away that stands on the page, and writes who says what follows.
    pub(crate) fn start(&mut self, spacing: Spacing, user: &User)
        ensures started { IsStarted (user.now.0 ++ colon_text spacing) spacing self.new }
        ensures name { IsName user.now.0 }
    {
        self.bytes.clear();
        self.is_over = false;
        self.spacing = spacing;
        self.last = LastToken::Open;
        self.push(user.0.as_bytes());
        match spacing {
            Spacing::Canonical => self.push(b": "),
            Spacing::Minified => self.push(b":"),
        }
    }

    /// The first bytes of a token, behind a blank where one has to stand.
    #[inline(always)]
    fn begin(&mut self, token: LastToken, bytes: &[u8])
        ensures { OpensToken token bytes.now self.old self.new }
    {
        if self.last.is_parted(self.spacing, byte_at(bytes, 0)) {
            self.push(b" ");
        }
        self.last = token;
        self.push(bytes);
    }

    #[inline(always)]
    pub(crate) fn keyword(&mut self, keyword: Keyword)
        ensures { Prints (Key keyword ∷ []) self.old self.new }
    {
        self.begin(LastToken::Word, keyword.text().as_bytes());
    }

    #[inline(always)]
    pub(crate) fn mark(&mut self, mark: Mark)
        ensures { Prints (Sign mark ∷ []) self.old self.new }
    {
        self.begin(LastToken::from_mark(mark), mark.text().as_bytes());
    }

    pub(crate) fn separator(&mut self, separator: Separator)
        ensures { Prints (separator_lexeme separator ∷ []) self.old self.new }
    {
        match separator {
            Separator::Comma => self.mark(Mark::Comma),
            Separator::And => self.keyword(Keyword::And),
        }
    }

    pub(crate) fn name(&mut self, name: &Name)
        ensures { Prints (Named name.now ∷ []) self.old self.new }
    {
        self.begin(LastToken::Word, name.as_bytes());
    }

    pub(crate) fn number(&mut self, number: i64)
        ensures { Prints (Number number ∷ []) self.old self.new }
    {
        let mut digits = Buffer::new();
        self.begin(LastToken::Word, digits.format(number).as_bytes());
    }

    /// Adds a text with each quote twice, in runs up to the next quote.
    fn push_doubled(&mut self, text: &[u8])
        ensures { Adds (doubled text.now) self.old self.new }
    {
        let mut rest = text;
        while let Some(n) = quote_at(rest) {
            self.push(&rest[..n + 1]);
            self.push(b"'");
            rest = &rest[n + 1..];
        }
        self.push(rest);
    }

    fn text(&mut self, text: &Text)
        ensures { Prints (Quoted text.now ∷ []) self.old self.new }
    {
        self.begin(LastToken::Quoted, b"'");
        self.push_doubled(text.as_bytes());
        self.push(b"'");
    }

    pub(crate) fn value(&mut self, value: &Value)
        ensures { Prints (value_says value.now) self.old self.new }
    {
        match value {
            Value::Int(number) => self.number(*number),
            Value::Text(text) => self.text(text),
        }
    }
}
