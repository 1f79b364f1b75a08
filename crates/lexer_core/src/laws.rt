//! Laws of the reading of a line, each the contract of an empty function.
ghost use Rattle.std.specs.Prelude.{◌≡◌, ◌⊎◌, ℕ, List};
ghost use Rattle.lexer_core.specs.declared.fault.Code.{Code};
ghost use Rattle.lexer_core.specs.declared.token.Token.{Token};
ghost use Rattle.lexer_core.specs.Lexing.{AreTokens, IsLineFault, Lexeme, Says};

/// No line says two things: the lexemes of a line are one list.
pub fn one_reading()
    ensures { (line : List ℕ) (said other : List Lexeme) → Says line said → Says line other
        → said ≡ other }
{}

/// No line has two lists of tokens: neither what a token is nor where it stands is left open.
pub fn one_list_of_tokens()
    ensures { (line : List ℕ) (ts other : List Token) → AreTokens line ts → AreTokens line other
        → ts ≡ other }
{}

/// A line that says something has no lexical fault.
pub fn said_or_faulty()
    ensures { (line : List ℕ) (said : List Lexeme) (code : Code) (offset : ℕ) → Says line said
        → ¬ IsLineFault line code offset }
{}

/// A line has at most one lexical fault: one code, at one byte.
pub fn one_fault()
    ensures { (line : List ℕ) (code other : Code) (offset place : ℕ)
        → IsLineFault line code offset
        → IsLineFault line other place → (code ≡ other) × (offset ≡ place) }
{}

/// Each line says something or has a lexical fault.
pub fn reading_or_fault()
    ensures { (line : List ℕ) → ((said : List Lexeme) × Says line said)
        ⊎ ((code : Code) × (offset : ℕ) × IsLineFault line code offset) }
{}
