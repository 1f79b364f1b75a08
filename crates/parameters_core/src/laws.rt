//! Laws of statements with places, each the contract of an empty function.
ghost use Rattle.std.specs.Prelude.{◌≡◌, ◌<◌, ◌≤◌, ◌⊎◌, ℕ, Bool, List, [], Option, length, slice_index};
ghost use Rattle.std.specs.List.{AllZip};
ghost use Rattle.base_core.specs.declared.value.ColType.{ColType};
ghost use Rattle.base_core.specs.declared.value.Value.{Value};
ghost use Rattle.lexer_core.specs.Lexing.{Lexeme, Says};
ghost use Rattle.reader_core.specs.declared.statement.Statement.{Statement};
ghost use Rattle.reader_core.specs.Language.{Spells};
ghost use Rattle.parameters_core.specs.declared.fault.FillFault.{FillFault};
ghost use Rattle.parameters_core.specs.declared.fault.FillFault.TheVariants as fill_faults;
ghost use Rattle.parameters_core.specs.declared.fault.ValueFault.{ValueFault};
ghost use Rattle.parameters_core.specs.declared.fault.ValueFault.TheVariants as value_faults;
ghost use Rattle.parameters_core.specs.Statements.{StandsFirst};
ghost use Rattle.parameters_core.specs.Places.{Part, AreParts, HasNoPlace, IsGreatestNumber};
ghost use Rattle.parameters_core.specs.Filling.{AreProper, IsFilled, IsFillFault, SpellsWith, as_line, filled, ones, value_of_place};
ghost use Rattle.parameters_core.specs.Meaning.{SayInTurn, IsAlike};
ghost use Rattle.parameters_core.specs.Positions.{IsSource, origin};
ghost use Rattle.parameters_core.specs.Values.{AreValue, IsValueFault};

/// A text has one first statement, and one rest behind it.
pub fn one_first_statement()
    ensures { (text statement other : List ℕ) (rest tail : Option (List ℕ))
        → StandsFirst text statement rest → StandsFirst text other tail
        → (statement ≡ other) × (rest ≡ tail) }
{}

/// Each text is some parts and a last segment.
pub fn each_text_has_parts()
    ensures { (text : List ℕ)
        → (parts : List Part) × (last : List ℕ) × AreParts text parts last }
{}

/// In one way only.
pub fn one_list_of_parts()
    ensures { (text : List ℕ) (parts others : List Part) (last end : List ℕ)
        → AreParts text parts last → AreParts text others end
        → (parts ≡ others) × (last ≡ end) }
{}

/// A text with values is at most one line.
pub fn one_line()
    ensures { (text : List ℕ) (values : List Value) (line other : List ℕ)
        → IsFilled text values line → IsFilled text values other → line ≡ other }
{}

/// It is one, or a place has no value.
pub fn line_or_no_value()
    ensures { (text : List ℕ) (values : List Value)
        → ((line : List ℕ) × IsFilled text values line)
        ⊎ ((number : ℕ) × IsGreatestNumber text number × (length values < number)) }
{}

/// Never both.
pub fn no_line_without_values()
    ensures { (text : List ℕ) (values : List Value) (line : List ℕ) (number : ℕ)
        → IsFilled text values line → IsGreatestNumber text number → number ≤ length values }
{}

/// Where that line has at most 4,096 bytes, nothing is wrong but that memory is refused.
pub fn line_or_fault()
    ensures { (text : List ℕ) (values : List Value) (line : List ℕ) (fault : FillFault)
        → IsFilled text values line → length line ≤ 4096 → IsFillFault text values fault
        → fault ≡ fill_faults.NoMemory }
{}

/// What a filled line says is what its segments say, each alone, with the literal of its value for
/// each place between them, whatever bytes the texts among the values have. And where its segments
/// say something, the line says that, if it is no longer than a line may be.
pub fn places_say_literals()
    ensures split { (text last : List ℕ) (values : List Value) (parts : List Part)
        (said : List Lexeme) → AreParts text parts last → AreProper values
        → Says (filled (value_of_place values) parts last) said
        → SayInTurn (value_of_place values) parts last said }
    ensures joined { (text last : List ℕ) (values : List Value) (parts : List Part)
        (said : List Lexeme) → AreParts text parts last → AreProper values
        → length (filled (value_of_place values) parts last) ≤ 4096
        → SayInTurn (value_of_place values) parts last said
        → Says (filled (value_of_place values) parts last) said }
{}

/// So other values change nothing that stands around them: the line says the same then, one thing
/// after another, but for literals, if it is no longer than a line may be.
pub fn values_change_only_literals()
    ensures { (text last : List ℕ) (values others : List Value) (parts : List Part)
        (said : List Lexeme) → AreParts text parts last → AreProper values → AreProper others
        → Says (filled (value_of_place values) parts last) said
        → length (filled (value_of_place others) parts last) ≤ 4096
        → (changed : List Lexeme) × Says (filled (value_of_place others) parts last) changed
        × AllZip IsAlike said changed }
{}

/// A byte of a line with ones came from where [`crate::position`] says: from the same byte, from a
/// line end where it is a blank, or from a place.
pub fn bytes_have_sources()
    ensures { (text last : List ℕ) (parts : List Part) (offset : ℕ) → AreParts text parts last
        → offset < length (filled (value_of_place ones) parts last)
        → IsSource (slice_index text (origin parts last offset))
        (slice_index (filled (value_of_place ones) parts last) offset) }
{}

/// A text with values spells at most one statement.
pub fn one_statement_with_values()
    ensures { (text : List ℕ) (values : List Value) (s t : Statement)
        → SpellsWith text values s → SpellsWith text values t → s ≡ t }
{}

/// A text without places spells what it spells with its line ends as blanks.
pub fn text_without_places()
    ensures spelled { (text : List ℕ) (s : Statement) → HasNoPlace text → SpellsWith text [] s
        → Spells (as_line text) s }
    ensures spells { (text : List ℕ) (s : Statement) → HasNoPlace text → Spells (as_line text) s
        → SpellsWith text [] s }
{}

/// Bytes are at most one value.
pub fn one_value()
    ensures { (ty : ColType) (is_binary : Bool) (bytes : List ℕ) (value other : Value)
        → AreValue ty is_binary bytes value → AreValue ty is_binary bytes other → value ≡ other }
{}

/// Bytes that are a value have no fault but that memory is refused.
pub fn value_or_fault()
    ensures { (ty : ColType) (is_binary : Bool) (bytes : List ℕ) (value : Value)
        (fault : ValueFault) → AreValue ty is_binary bytes value
        → IsValueFault ty is_binary bytes fault → fault ≡ value_faults.NoMemory }
{}
