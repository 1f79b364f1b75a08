//! What is asked, and how it is answered.
ghost use Rattle.std.specs.Prelude.{◌≡◌, option_map};
ghost use Rattle.explain_text.specs.Questions.{word, user_word, table_word, privilege_words};
ghost use Rattle.explain_text.specs.Questions.{has_graph, has_format};
ghost use Rattle.explain_text.specs.Supposing.{supposed_line};

use explain_words::Format;

/// A question about the rights that a script makes, in the words of the command line.
#[derive(Clone, Copy)]
pub enum Question<'a> {
    /// Why the user holds the privilege on the table, or why he does not.
    Why {
        user: &'a str,
        privilege: &'a str,
        table: &'a str,
    },
    /// Who holds the privileges on the table, or this one alone.
    Who {
        table: &'a str,
        privilege: Option<&'a str>,
    },
    /// Every right in force.
    Rights,
    /// Every grant that fell.
    Fell,
    /// Every grant that was ever made.
    Grants,
    /// What this line would take.
    If {
        line: &'a str,
    },
    /// What would take the privilege from the user.
    Cut {
        user: &'a str,
        privilege: &'a str,
        table: &'a str,
    },
    /// Whom the user could give the privilege to.
    Can {
        user: &'a str,
        privilege: &'a str,
        table: &'a str,
    },
    /// What came, fell and changed since the moment of this number.
    Diff {
        at: u64,
    },
}

impl<'a> Question<'a> {
    /// The word of the command line.
    pub fn word(&self) -> &'static [u8]
        ensures { result.now ≡ word self.now }
    {
        match self {
            Question::Why { .. } => b"why",
            Question::Who { .. } => b"who",
            Question::Rights => b"rights",
            Question::Fell => b"fell",
            Question::Grants => b"grants",
            Question::If { .. } => b"if",
            Question::Cut { .. } => b"cut",
            Question::Can { .. } => b"can",
            Question::Diff { .. } => b"diff",
        }
    }

    /// The word for the user. Nothing, if it has none.
    pub fn user(&self) -> &'a str
        ensures { result.now ≡ user_word self.now }
    {
        match self {
            Question::Why { user, .. } | Question::Cut { user, .. } | Question::Can { user, .. } =>
                *user,
            Question::Who { .. }
            | Question::Rights
            | Question::Fell
            | Question::Grants
            | Question::If { .. }
            | Question::Diff { .. } => "",
        }
    }

    /// The word for the table. Nothing, if it has none.
    pub fn table(&self) -> &'a str
        ensures { result.now ≡ table_word self.now }
    {
        match self {
            Question::Why { table, .. }
            | Question::Who { table, .. }
            | Question::Cut { table, .. }
            | Question::Can { table, .. } => *table,
            Question::Rights
            | Question::Fell
            | Question::Grants
            | Question::If { .. }
            | Question::Diff { .. } => "",
        }
    }

    /// The words for the privilege. Nothing, if it has none.
    pub fn privilege(&self) -> &'a str
        ensures { result.now ≡ privilege_words self.now }
    {
        match self {
            Question::Why { privilege, .. }
            | Question::Cut { privilege, .. }
            | Question::Can { privilege, .. } => *privilege,
            Question::Who {
                privilege: Some(privilege),
                ..
            } => *privilege,
            Question::Who {
                privilege: None,
                ..
            }
            | Question::Rights
            | Question::Fell
            | Question::Grants
            | Question::If { .. }
            | Question::Diff { .. } => "",
        }
    }

    /// The line that it supposes, if it supposes one.
    pub fn line(&self) -> Option<&'a str>
        ensures { option_map (λ line. line.now) result ≡ supposed_line self.now }
    {
        match self {
            Question::If { line } => Some(*line),
            Question::Why { .. }
            | Question::Who { .. }
            | Question::Rights
            | Question::Fell
            | Question::Grants
            | Question::Cut { .. }
            | Question::Can { .. }
            | Question::Diff { .. } => None,
        }
    }

    /// Whether there is a graph of what it asks.
    fn has_graph(&self) -> bool
        ensures { result ≡ has_graph self.now }
    {
        match self {
            Question::Why { .. } | Question::Who { .. } => true,
            Question::Rights
            | Question::Fell
            | Question::Grants
            | Question::If { .. }
            | Question::Cut { .. }
            | Question::Can { .. }
            | Question::Diff { .. } => false,
        }
    }

    /// Whether it can be answered in this form: as a graph only why a user holds a privilege, and
    /// who does.
    pub fn has_format(&self, format: Format) -> bool
        ensures { result ≡ has_format self.now format }
    {
        match format {
            Format::Text | Format::Csv => true,
            Format::Dot => self.has_graph(),
        }
    }
}
