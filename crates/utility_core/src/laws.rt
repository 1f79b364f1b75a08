//! A law of the look-up, the contract of an empty function.
ghost use Rattle.std.specs.Prelude.{◌≡◌, ◌∷◌, ℕ, List, None, true, codes};
ghost use Rattle.utility_core.specs.Words.{words, is_among};
ghost use Rattle.utility_core.specs.Commands.{command_in, statement_words};

/// No line that begins as a statement of the language does is a command: neither one with the first
/// word of another statement than SELECT, nor SELECT with a comma or FROM behind its first item.
pub fn statement_or_command()
    ensures begun { (word : List ℕ) (said : List (List ℕ))
        → is_among statement_words word ≡ true
        → command_in (word ∷ said) ≡ None }
    ensures select { (item mark next : List ℕ) (said : List (List ℕ))
        → is_among (words "from ,") mark ≡ true
        → command_in (codes "select" ∷ item ∷ mark ∷ next ∷ said) ≡ None }
{}
