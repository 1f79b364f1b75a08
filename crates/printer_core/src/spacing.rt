//! Where blanks stand between tokens.
ghost use Rattle.std.specs.Prelude.{◌≡◌};
ghost use Rattle.lexer_core.specs.Lexing.{Sign};
ghost use Rattle.printer_core.specs.Printing.{as_last, is_parted, runs_on};

use base_core::is_word_byte;
use lexer_core::Mark;

/// How the tokens of a statement are spaced.
#[derive(Clone, Copy)]
pub enum Spacing {
    /// One blank between two tokens, but none behind `(` and before `)` and `,`.
    Canonical,
    /// No blank that may be left out.
    Minified,
}

/// The token before, as far as a blank behind it depends on it.
#[derive(Clone, Copy)]
pub enum LastToken {
    /// A keyword, a name or a number.
    Word,
    Quoted,
    Open,
    Less,
    Greater,
    Other,
}

impl LastToken {
    /// What a mark leaves behind it.
    pub fn from_mark(mark: Mark) -> LastToken
        ensures { result ≡ as_last (Sign mark) }
    {
        match mark {
            Mark::Open => LastToken::Open,
            Mark::Less => LastToken::Less,
            Mark::Greater => LastToken::Greater,
            _ => LastToken::Other,
        }
    }

    /// Whether the token would go on with the byte.
    fn runs_on(self, byte: u8) -> bool
        ensures { result ≡ runs_on self byte }
    {
        match self {
            LastToken::Word => is_word_byte(byte),
            LastToken::Quoted => byte == b'\'',
            LastToken::Less => byte == b'=' || byte == b'>',
            LastToken::Greater => byte == b'=',
            LastToken::Open | LastToken::Other => false,
        }
    }

    /// Whether a blank stands between the token and one that begins with the byte.
    #[inline(always)]
    pub fn is_parted(self, spacing: Spacing, byte: u8) -> bool
        ensures { result ≡ is_parted spacing self byte }
    {
        match (spacing, self) {
            (Spacing::Canonical, LastToken::Open) => false,
            (Spacing::Canonical, _) => byte != b')' && byte != b',',
            (Spacing::Minified, last) => last.runs_on(byte),
        }
    }
}
