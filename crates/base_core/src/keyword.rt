//! The reserved words.

ghost use Rattle.std.specs.Prelude.{◌≡◌, true, map, option_to_list};
ghost use Rattle.std.specs.List.{filter, list_all};
ghost use Rattle.std.specs.Str.{bytes_eq};
ghost use Rattle.std.specs.Char.{is_ascii_uppercase};
ghost use Rattle.base_core.specs.Words.{all_keywords, is_alike, folded, text_of, is_spelled_by, keyword_of};

/// All bits but the one by which a small letter differs from its capital.
const CAPITAL_BITS: u8 = 0xDF;

#[derive(Clone, Copy, PartialEq, Eq)]
pub enum Keyword {
    And,
    Checkpoint,
    Checkpoints,
    Create,
    Delete,
    Export,
    For,
    From,
    Grant,
    Insert,
    Integer,
    Into,
    On,
    Only,
    Option,
    Revoke,
    Select,
    Set,
    Table,
    Text,
    To,
    Update,
    Values,
    Where,
    With,
}

impl Keyword {
    /// The keyword in capitals.
    pub fn text(self) -> &'static str
        ensures { result.now ≡ text_of self }
    {
        match self {
            Keyword::And => "AND",
            Keyword::Checkpoint => "CHECKPOINT",
            Keyword::Checkpoints => "CHECKPOINTS",
            Keyword::Create => "CREATE",
            Keyword::Delete => "DELETE",
            Keyword::Export => "EXPORT",
            Keyword::For => "FOR",
            Keyword::From => "FROM",
            Keyword::Grant => "GRANT",
            Keyword::Insert => "INSERT",
            Keyword::Integer => "INTEGER",
            Keyword::Into => "INTO",
            Keyword::On => "ON",
            Keyword::Only => "ONLY",
            Keyword::Option => "OPTION",
            Keyword::Revoke => "REVOKE",
            Keyword::Select => "SELECT",
            Keyword::Set => "SET",
            Keyword::Table => "TABLE",
            Keyword::Text => "TEXT",
            Keyword::To => "TO",
            Keyword::Update => "UPDATE",
            Keyword::Values => "VALUES",
            Keyword::Where => "WHERE",
            Keyword::With => "WITH",
        }
    }

    fn is_spelled(self, word: &[u8]) -> bool
        ensures { result ≡ is_spelled_by word.now self }
    {
        spells(word, self.text().as_bytes())
    }

    /// The keyword that a word spells, in any case.
    pub fn read(word: &[u8]) -> Option<Keyword>
        ensures { result ≡ keyword_of word.now }
    {
        let initial = word.first()?.to_ascii_lowercase();
        let keyword = candidate(initial, word.len())?;
        if keyword.is_spelled(word) {
            Some(keyword)
        } else {
            None
        }
    }
}

/// Whether a word in any case spells these capitals: a byte without the bit that makes a letter
/// small is a capital only where it is that letter.
fn spells(word: &[u8], capitals: &[u8]) -> bool
    requires { list_all is_ascii_uppercase capitals.now ≡ true }
    ensures { result ≡ bytes_eq (folded capitals.now) (folded word.now) }
{
    if word.len() != capitals.len() {
        return false;
    }
    for i in 0..word.len() {
        if word[i] & CAPITAL_BITS != capitals[i] {
            return false;
        }
    }
    true
}

/// The keyword that begins with this small letter and has so many: one at most, so that a word is
/// compared with no other.
#[tactic(auto, unfolding(crate::specs::Words::all_keywords))]
fn candidate(initial: u8, len: usize) -> Option<Keyword>
    ensures { option_to_list result ≡ filter (is_alike initial len) all_keywords }
{
    match (initial, len) {
        (b'a', 3) => Some(Keyword::And),
        (b'c', 6) => Some(Keyword::Create),
        (b'c', 10) => Some(Keyword::Checkpoint),
        (b'c', 11) => Some(Keyword::Checkpoints),
        (b'd', 6) => Some(Keyword::Delete),
        (b'e', 6) => Some(Keyword::Export),
        (b'f', 3) => Some(Keyword::For),
        (b'f', 4) => Some(Keyword::From),
        (b'g', 5) => Some(Keyword::Grant),
        (b'i', 4) => Some(Keyword::Into),
        (b'i', 6) => Some(Keyword::Insert),
        (b'i', 7) => Some(Keyword::Integer),
        (b'o', 2) => Some(Keyword::On),
        (b'o', 4) => Some(Keyword::Only),
        (b'o', 6) => Some(Keyword::Option),
        (b'r', 6) => Some(Keyword::Revoke),
        (b's', 3) => Some(Keyword::Set),
        (b's', 6) => Some(Keyword::Select),
        (b't', 2) => Some(Keyword::To),
        (b't', 4) => Some(Keyword::Text),
        (b't', 5) => Some(Keyword::Table),
        (b'u', 6) => Some(Keyword::Update),
        (b'v', 6) => Some(Keyword::Values),
        (b'w', 4) => Some(Keyword::With),
        (b'w', 5) => Some(Keyword::Where),
        _ => None,
    }
}
