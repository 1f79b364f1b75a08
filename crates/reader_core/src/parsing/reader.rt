//! A reader over the tokens of a line: single tokens.
ghost use Rattle.std.specs.Prelude.{◌≡◌, ◌≢◌, ◌≤◌, ◌∷◌, [], pos, nat_le, false, true, length, drop, None, Some, IfOk, IfErr, OnOk, OnErr, MatchOption};
ghost use Rattle.base_core.specs.declared.keyword.Keyword.TheVariants as keywords;
ghost use Rattle.lexer_core.specs.Lexing as lexemes;
ghost use Rattle.lexer_core.specs.Lexing.{AreSpelled};
ghost use Rattle.lexer_core.specs.declared.token.TokenKind.TheVariants as kinds;
ghost use Rattle.reader_core.specs.Grammar.{One, Key, Sign, AnyName, AnyLiteral, AnyType, AnyTest, AtLeastOne, is_test, is_privilege, repeated_or_too_many};
ghost use Rattle.reader_core.specs.Cursor.{Cursor, Reads, Faults, Checks, offset_at, next_kind, next_lexeme, next_is, next_is_keyword, next_is_privilege};
ghost use Rattle.reader_core.specs.Privileges.{word_keyword};
ghost use Rattle.reader_core.specs.Saying.{name_says, type_lexeme, type_says, value_lexeme, value_says, comparison_mark, comparison_says, number_says, separator_class, separator_lexeme};

use crate::checkpoint::CheckpointNumber;
use crate::privilege::PrivilegeWord;
use crate::separator::Separator;
use base_core::{ColType, Comparison, Keyword, Name, Value};
use lexer_core::{Code, Mark, ReadFault, Token, TokenKind, unquoted};
use std::alloc::Global;
use std::marker::Model;

fn comparison_of(mark: Mark) -> Option<Comparison>
    ensures { MatchOption result (is_test (kinds.Mark mark) ≡ false)
        (λ c. mark ≡ comparison_mark c) }
{
    match mark {
        Mark::Equal => Some(Comparison::Equal),
        Mark::NotEqual => Some(Comparison::NotEqual),
        Mark::Less => Some(Comparison::Less),
        Mark::LessEqual => Some(Comparison::LessEqual),
        Mark::Greater => Some(Comparison::Greater),
        Mark::GreaterEqual => Some(Comparison::GreaterEqual),
        _ => None,
    }
}

fn word_of(keyword: Keyword) -> Option<PrivilegeWord>
    ensures { MatchOption result (is_privilege (kinds.Keyword keyword) ≡ false)
        (λ w. keyword ≡ word_keyword w) }
{
    match keyword {
        Keyword::Select => Some(PrivilegeWord::Select),
        Keyword::Insert => Some(PrivilegeWord::Insert),
        Keyword::Delete => Some(PrivilegeWord::Delete),
        Keyword::Update => Some(PrivilegeWord::Update),
        _ => None,
    }
}

/// The tokens of a line that are left to read.
#[derive(Drop)]
pub struct Reader<'a> {
    line: &'a [u8],
    rest: &'a [Token],
}

impl<'a> Model for Reader<'a> {
    ghost use Rattle.std.specs.Prelude.{length, ◌≤◌};
    ghost use Rattle.lexer_core.specs.Lexing.{AreSpelled};
    ghost use Rattle.reader_core.specs.Cursor.{Cursor};

    ghost Value = { Cursor };

    ghost view = { λ r. record { line = r.line.now; rest = r.rest.now } };

    ghost invariant = { λ r. (length r.line.now ≤ 4096) × AreSpelled r.line.now r.rest.now };
}

impl<'a> Reader<'a> {
    /// At the beginning of the tokens of a line.
    pub fn new(line: &'a [u8], tokens: &'a [Token]) -> Reader<'a>
        requires short { length line.now ≤ 4096 }
        requires spelled { AreSpelled line.now tokens.now }
        ensures { result ≡ record { line = line.now; rest = tokens.now } }
    {
        Reader { line, rest: tokens }
    }
}

impl Reader<'_> {
    /// The kind of the next token, if there is one.
    pub fn peek(&self) -> Option<TokenKind>
        ensures { result ≡ next_kind self.now }
    {
        match self.rest {
            [token, ..] => Some(token.kind),
            [] => None,
        }
    }

    /// How many tokens are left.
    pub fn tokens_left(&self) -> usize
        ensures { result ≡ length self.now.rest }
    {
        self.rest.len()
    }

    /// Goes on behind the next token.
    pub fn advance(&mut self)
        requires { next_kind self.old ≢ None }
        ensures rest { self.new.rest ≡ drop 1 self.old.rest }
        ensures line { self.new.line ≡ self.old.line }
    {
        self.rest = &self.rest[1..];
    }

    /// The fault of this code at the next token, or at the end of the line.
    pub fn fault(&self, code: Code) -> ReadFault
        ensures { result ≡ ReadFault.At code (offset_at self.now) }
    {
        let offset = match self.rest {
            [token, ..] => token.start,
            [] => self.line.len(),
        };
        ReadFault::At { code, offset }
    }

    /// Whether this keyword comes next.
    pub fn at_keyword(&self, keyword: Keyword) -> bool
        ensures next { result ≡ next_is (Key keyword) self.now }
        ensures lexeme { result ≡ true → next_lexeme self.now ≡ Some (lexemes.Key keyword) }
    {
        match self.rest {
            [
                Token {
                    kind: TokenKind::Keyword(next),
                    ..
                },
                ..
            ] => keyword == *next,
            _ => false,
        }
    }

    /// Whether this mark comes next.
    pub fn at_mark(&self, mark: Mark) -> bool
        ensures next { result ≡ next_is (Sign mark) self.now }
        ensures lexeme { result ≡ true → next_lexeme self.now ≡ Some (lexemes.Sign mark) }
    {
        match self.rest {
            [
                Token {
                    kind: TokenKind::Mark(next),
                    ..
                },
                ..
            ] => mark == *next,
            _ => false,
        }
    }

    /// Whether this separator comes next.
    pub fn at_separator(&self, separator: Separator) -> bool
        ensures next { result ≡ next_is (separator_class separator) self.now }
        ensures lexeme { result ≡ true
            → next_lexeme self.now ≡ Some (separator_lexeme separator) }
    {
        match separator {
            Separator::Comma => self.at_mark(Mark::Comma),
            Separator::And => self.at_keyword(Keyword::And),
        }
    }

    /// Reads this keyword, or tells where it was expected.
    pub fn keyword(&mut self, wanted: Keyword) -> Result<(), ReadFault>
        ensures { Reads (λ k. One (Key wanted) k) (λ _. lexemes.Key wanted ∷ [])
            result self.old self.new }
    {
        if !self.at_keyword(wanted) {
            return Err(self.fault(Code::Expected));
        }
        self.advance();
        Ok(())
    }

    /// Reads this mark, or tells where it was expected.
    pub fn mark(&mut self, wanted: Mark) -> Result<(), ReadFault>
        ensures { Reads (λ k. One (Sign wanted) k) (λ _. lexemes.Sign wanted ∷ [])
            result self.old self.new }
    {
        if !self.at_mark(wanted) {
            return Err(self.fault(Code::Expected));
        }
        self.advance();
        Ok(())
    }

    /// Reads a name.
    pub fn name(&mut self) -> Result<Name, ReadFault>
        ensures { Reads (λ k. One AnyName k) name_says result self.old self.new }
    {
        let name = self.peek_name()?;
        self.advance();
        Ok(name)
    }

    fn peek_type(&self) -> Result<ColType, ReadFault>
        ensures kind { IfOk result (λ t.
            next_kind self.now ≡ Some (lexemes.kind_of (type_lexeme t))) }
        ensures err { OnErr result ((result ≡ Err (ReadFault.At Code.Expected (offset_at self.now)))
            × (next_is AnyType self.now ≡ false)) }
    {
        match self.rest {
            [
                Token {
                    kind: TokenKind::Keyword(Keyword::Integer),
                    ..
                },
                ..
            ] => Ok(ColType::Integer),
            [
                Token {
                    kind: TokenKind::Keyword(Keyword::Text),
                    ..
                },
                ..
            ] => Ok(ColType::Text),
            _ => Err(self.fault(Code::Expected)),
        }
    }

    /// Reads the type of a column.
    pub fn column_type(&mut self) -> Result<ColType, ReadFault>
        ensures { Reads (λ k. One AnyType k) type_says result self.old self.new }
    {
        let ty = self.peek_type()?;
        self.advance();
        Ok(ty)
    }

    /// The name that comes next, which stays where it is.
    pub fn peek_name(&self) -> Result<Name, ReadFault>
        ensures kind { IfOk result (λ n.
            next_kind self.now ≡ Some (lexemes.kind_of (lexemes.Named n))) }
        ensures err { OnErr result ((result ≡ Err (ReadFault.At Code.Expected (offset_at self.now)))
            × (next_is AnyName self.now ≡ false)) }
    {
        match self.rest {
            [
                Token {
                    kind: TokenKind::Name(name),
                    ..
                },
                ..
            ] => Ok(*name),
            _ => Err(self.fault(Code::Expected)),
        }
    }

    /// Whether a literal comes next.
    pub fn at_literal(&self) -> bool
        ensures { result ≡ next_is AnyLiteral self.now }
    {
        matches!(self.peek(), Some(TokenKind::Number(_) | TokenKind::Text))
    }

    /// The value of the literal that comes next, which stays where it is.
    #[inline(always)]
    pub fn value(&self, alloc: Global) -> Result<Value, ReadFault>
        requires { next_is AnyLiteral self.now ≡ true }
        ensures ok { IfOk result (λ v. next_lexeme self.now ≡ Some (value_lexeme v)) }
        ensures kind { IfOk result (λ v.
            next_kind self.now ≡ Some (lexemes.kind_of (value_lexeme v))) }
        ensures err { IfErr result (λ e. e ≡ ReadFault.NoMemory) }
    {
        match self.rest {
            [
                Token {
                    kind: TokenKind::Number(number),
                    ..
                },
                ..
            ] => Ok(Value::Int(*number)),
            [token, ..] => match unquoted(alloc, &self.line[token.start..token.end]) {
                Ok(text) => Ok(Value::Text(text)),
                Err(_) => Err(ReadFault::NoMemory),
            },
            [] => unreachable!(),
        }
    }

    /// A literal.
    pub fn literal(&mut self, alloc: Global) -> Result<Value, ReadFault>
        ensures { Reads (λ k. One AnyLiteral k) value_says result self.old self.new }
    {
        if !self.at_literal() {
            return Err(self.fault(Code::Expected));
        }
        let value = self.value(alloc)?;
        self.advance();
        Ok(value)
    }

    fn peek_comparison(&self) -> Result<Comparison, ReadFault>
        ensures kind { IfOk result (λ c.
            next_kind self.now ≡ Some (kinds.Mark (comparison_mark c))) }
        ensures err { OnErr result ((result ≡ Err (ReadFault.At Code.Expected (offset_at self.now)))
            × (next_is AnyTest self.now ≡ false)) }
    {
        let [
            Token {
                kind: TokenKind::Mark(mark),
                ..
            },
            ..
        ] = self.rest
        else {
            return Err(self.fault(Code::Expected));
        };
        match comparison_of(*mark) {
            Some(comparison) => Ok(comparison),
            None => Err(self.fault(Code::Expected)),
        }
    }

    /// Reads a comparison.
    pub fn comparison(&mut self) -> Result<Comparison, ReadFault>
        ensures { Reads (λ k. One AnyTest k) comparison_says result self.old self.new }
    {
        let comparison = self.peek_comparison()?;
        self.advance();
        Ok(comparison)
    }

    fn peek_number(&self) -> Result<CheckpointNumber, ReadFault>
        ensures kind { IfOk result (λ n. next_kind self.now ≡ Some (kinds.Number (pos n))) }
        ensures some { IfOk result (λ n. nat_le 1 n ≡ true) }
        ensures err { OnErr result ((result ≡ Err (ReadFault.At Code.Expected (offset_at self.now)))
            × (next_is AtLeastOne self.now ≡ false)) }
    {
        match self.rest {
            [
                Token {
                    kind: TokenKind::Number(number),
                    ..
                },
                ..
            ] if *number >= 1 => { Ok(CheckpointNumber::new(*number as u64)) }
            _ => Err(self.fault(Code::Expected)),
        }
    }

    /// The number of a checkpoint.
    pub fn number(&mut self) -> Result<CheckpointNumber, ReadFault>
        ensures { Reads (λ k. One AtLeastOne k) number_says result self.old self.new }
    {
        let number = self.peek_number()?;
        self.advance();
        Ok(number)
    }

    /// The keyword that comes next, which stays where it is.
    pub fn peek_keyword(&self) -> Result<Keyword, ReadFault>
        ensures kind { IfOk result (λ k. next_kind self.now ≡ Some (kinds.Keyword k)) }
        ensures err { OnErr result ((result ≡ Err (ReadFault.At Code.Expected (offset_at self.now)))
            × (next_is_keyword self.now ≡ false)) }
    {
        match self.rest {
            [
                Token {
                    kind: TokenKind::Keyword(keyword),
                    ..
                },
                ..
            ] => Ok(*keyword),
            _ => Err(self.fault(Code::Expected)),
        }
    }

    /// The word of a privilege that comes next, which stays where it is.
    pub fn peek_word(&self) -> Result<PrivilegeWord, ReadFault>
        ensures kind { IfOk result (λ w.
            next_kind self.now ≡ Some (kinds.Keyword (word_keyword w))) }
        ensures err { OnErr result ((result ≡ Err (ReadFault.At Code.Expected (offset_at self.now)))
            × (next_is_privilege self.now ≡ false)) }
    {
        let [
            Token {
                kind: TokenKind::Keyword(keyword),
                ..
            },
            ..
        ] = self.rest
        else {
            return Err(self.fault(Code::Expected));
        };
        match word_of(*keyword) {
            Some(word) => Ok(word),
            None => Err(self.fault(Code::Expected)),
        }
    }

    /// Whether a list of so many items may have the one that begins here.
    #[tactic(auto, unfolding(crate::specs::Grammar::repeated_or_too_many))]
    pub fn check_item(&self, is_repeated: bool, count: usize, limit: usize) -> Result<(), ReadFault>
        ensures { Checks (repeated_or_too_many is_repeated count limit) self.now result }
    {
        if is_repeated {
            return Err(self.fault(Code::Duplicate));
        }
        if count >= limit {
            return Err(self.fault(Code::TooMany));
        }
        Ok(())
    }
}
