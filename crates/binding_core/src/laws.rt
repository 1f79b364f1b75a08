//! Laws of bound values, each the contract of an empty function.
ghost use Rattle.std.specs.Prelude.{◌≡◌, ◌≢◌, ◌≤◌, ℕ, pos, List, ◌∷◌, ◌++◌, Option, Some, length, slice_get};
ghost use Rattle.std.specs.List.{AllZip};
ghost use Rattle.base_core.specs.declared.value.ColType.{ColType};
ghost use Rattle.base_core.specs.declared.value.Value.{Value};
ghost use Rattle.base_core.specs.declared.value.Value.TheVariants.{Int};
ghost use Rattle.lexer_core.specs.Lexing.{Lexeme, Says};
ghost use Rattle.reader_core.specs.declared.statement.Statement.{Statement};
ghost use Rattle.parameters_core.specs.Places.{Part, AreParts, place_number};
ghost use Rattle.parameters_core.specs.Filling.{AreProper, SpellsWith, value_of_place};
ghost use Rattle.parameters_core.specs.Meaning.{SayInTurn, IsAlike};
ghost use Rattle.binding_core.specs.declared.fault.BindFault.{BindFault};
ghost use Rattle.binding_core.specs.declared.fault.BindFault.TheVariants as faults;
ghost use Rattle.binding_core.specs.Literals.{literals};
ghost use Rattle.binding_core.specs.Standing.{AreNumbersFrom, StandsAt, place_value};
ghost use Rattle.binding_core.specs.Parameters.{IsBound, parameters};
ghost use Rattle.binding_core.specs.Binding.{Binds, IsBindFault};

/// A statement has one line with what is sent for its places.
pub fn one_binding()
    ensures { (text : List ℕ) (types : List ColType) (codes : List ℕ)
        (sent : List (Option (List ℕ))) (line other : List ℕ)
        → Binds text types codes sent line → Binds text types codes sent other → line ≡ other }
{}

/// Where it has one of at most 4,096 bytes, nothing is wrong but that memory is refused.
pub fn binding_or_fault()
    ensures { (text : List ℕ) (types : List ColType) (codes : List ℕ)
        (sent : List (Option (List ℕ))) (line : List ℕ) (fault : BindFault)
        → Binds text types codes sent line → length line ≤ 4096
        → IsBindFault text types codes sent fault → fault ≡ faults.NoMemory }
{}

/// What the line says is what the segments of the text say, each alone, with the literal of the
/// value that is sent for each place between them, whatever bytes are sent.
pub fn values_are_literals()
    ensures { (text last : List ℕ) (types : List ColType) (codes : List ℕ)
        (sent : List (Option (List ℕ))) (line : List ℕ) (parts : List Part) (said : List Lexeme)
        → Binds text types codes sent line → AreParts text parts last → Says line said
        → (values : List Value) × AllZip IsBound (parameters types codes sent) values
        × SayInTurn (value_of_place values) parts last said }
{}

/// So whatever else is sent, the line says the same, one thing after another, but for literals.
pub fn other_values_change_only_literals()
    ensures { (text : List ℕ) (types others : List ColType) (codes more : List ℕ)
        (sent instead : List (Option (List ℕ))) (line other : List ℕ) (said : List Lexeme)
        → Binds text types codes sent line → Binds text others more instead other
        → length other ≤ 4096 → Says line said
        → (changed : List Lexeme) × Says other changed × AllZip IsAlike said changed }
{}

/// Where a place stands by two statements, there is its value, whatever values the text is filled
/// with: so its type is that of the column for which the value is.
pub fn places_have_their_values()
    ensures { (text : List ℕ) (numbers others values : List Value) (ones twos s : Statement)
        (number index : ℕ) → AreNumbersFrom 1 numbers
        → AreProper numbers → AreProper others → AreProper values
        → SpellsWith text numbers ones → SpellsWith text others twos → SpellsWith text values s
        → StandsAt ones twos number index
        → slice_get (literals s) index ≡ Some (place_value values number) }
{}

/// And each place of the text stands somewhere, where the second statement has another value in it.
pub fn places_stand_somewhere()
    ensures { (text last : List ℕ) (numbers others : List Value) (ones twos : Statement)
        (front behind : List Part) (part : Part) → AreNumbersFrom 1 numbers
        → AreProper numbers → AreProper others
        → SpellsWith text numbers ones → SpellsWith text others twos
        → AreParts text (front ++ part ∷ behind) last
        → place_value others (place_number part.place) ≢ Int (pos (place_number part.place))
        → (index : ℕ) × StandsAt ones twos (place_number part.place) index }
{}
