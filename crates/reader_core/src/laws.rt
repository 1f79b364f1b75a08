//! Laws of the language, each the contract of an empty function.
ghost use Rattle.std.specs.Prelude.{◌≡◌, ◌⊎◌, ℕ, List, All, map};
ghost use Rattle.lexer_core.specs.Lexing.{Lexeme, IsProper, kind_of};
ghost use Rattle.lexer_core.specs.declared.fault.Code.{Code};
ghost use Rattle.reader_core.specs.declared.statement.Statement.{Statement};
ghost use Rattle.reader_core.specs.Matches.{TokenWithFault, Matches, IsSentence};
ghost use Rattle.reader_core.specs.Choices.{Derives, IsPredictive, no_token};
ghost use Rattle.reader_core.specs.Sentences.{statement};
ghost use Rattle.reader_core.specs.Forming.{IsWellFormed};
ghost use Rattle.reader_core.specs.Language.{SaysStatement, Spells, IsReadFault};

/// No line spells two statements.
pub fn one_statement()
    ensures { (line : List ℕ) (s t : Statement) → Spells line s → Spells line t → s ≡ t }
{}

/// A line has at most one fault: one code, at one byte.
pub fn one_fault()
    ensures { (line : List ℕ) (code other : Code) (offset place : ℕ)
        → IsReadFault line code offset
        → IsReadFault line other place → (code ≡ other) × (offset ≡ place) }
{}

/// A line that spells a statement has no fault.
pub fn spelled_or_faulty()
    ensures { (line : List ℕ) (s : Statement) (code : Code) (offset : ℕ) → Spells line s
        → IsReadFault line code offset → ⊥ }
{}

/// No choice of the grammar is between parts that begin with the same token. And tokens are a
/// sentence by some choice (`Derives`) exactly where they are one by the choice that the next token
/// makes (`Matches`), which is what faults are defined by.
pub fn one_choice()
    ensures apart { IsPredictive statement no_token }
    ensures same { (ss : List TokenWithFault) → (Derives statement ss → Matches statement ss)
        × (Matches statement ss → Derives statement ss) }
{}

/// Tokens that are a whole sentence of the grammar, none of them wrong as an item's first, say a
/// well-formed statement, where names, numbers and texts are as they may be (`IsProper`).
pub fn whole_tokens_are_said()
    ensures { (said : List Lexeme) → All IsProper said → IsSentence statement (map kind_of said)
        → (s : Statement) × SaysStatement said s × IsWellFormed s }
{}

/// Each line spells a statement or has a fault.
pub fn statement_or_fault()
    ensures { (line : List ℕ) → ((s : Statement) × Spells line s)
        ⊎ ((code : Code) × (offset : ℕ) × IsReadFault line code offset) }
{}
