//! Marks of columns.
ghost use Rattle.std.specs.Prelude.{◌≡◌, true, get_or, length, replicate, IfOk, MatchOption};
ghost use Rattle.std.specs.List.{list_all};
ghost use Rattle.export_core.specs.Export.{is_any};
ghost use Rattle.export_core.specs.Marks.{both};

use base_core::NoMemory;
use std::alloc::Global;
use std::marker::Model;

#[derive(Drop)]
enum Kept {
    // So many, all set.
    Whole(usize),
    // Of which one may be not set.
    Cut(Vec<bool>),
}

/// Marks of a table's columns, one for each, in table order. Contracts see the list of them. Where
/// all are set they are counted alone.
#[derive(Drop)]
pub struct Marks {
    kept: Kept,
}

impl Model for Marks {
    ghost use Rattle.std.specs.Prelude.{List, Bool};
    ghost use Rattle.export_core.specs.Marks.{marks_kept};

    ghost Value = { List Bool };

    ghost view = { λ m. marks_kept m.kept };
}

/// Whether the mark at this place is set. Where there is none, nothing is cut: it counts as set.
pub fn is_set(marks: &[bool], at: usize) -> bool
    ensures { result ≡ get_or marks.now at true }
{
    match marks.get(at) {
        Some(mark) => *mark,
        None => true,
    }
}

fn any_set(marks: &[bool]) -> bool
    ensures { result ≡ is_any marks.now }
{
    marks.iter().any(|mark| *mark)
}

fn all_set(marks: &[bool]) -> bool
    ensures { result ≡ list_all (λ mark. mark) marks.now }
{
    marks.iter().all(|mark| *mark)
}

impl Marks {
    /// So many marks, all set. It takes no memory.
    pub fn all(columns: usize) -> Marks
        ensures { result ≡ replicate columns true }
    {
        Marks {
            kept: Kept::Whole(columns),
        }
    }

    /// These marks. Their memory is given back where all are set.
    pub fn of(marks: Vec<bool>) -> Marks
        ensures { result ≡ marks.items }
    {
        if all_set(&marks) {
            return Marks::all(marks.len());
        }
        Marks {
            kept: Kept::Cut(marks),
        }
    }

    fn len(&self) -> usize
        ensures { result ≡ length self.now }
    {
        match &self.kept {
            Kept::Whole(columns) => *columns,
            Kept::Cut(marks) => marks.len(),
        }
    }

    fn is_set(&self, at: usize) -> bool
        ensures { result ≡ get_or self.now at true }
    {
        match &self.kept {
            Kept::Whole(_) => true,
            Kept::Cut(marks) => is_set(marks, at),
        }
    }

    /// Whether one is set.
    pub fn is_any(&self) -> bool
        ensures { result ≡ is_any self.now }
    {
        match &self.kept {
            Kept::Whole(columns) => *columns > 0,
            Kept::Cut(marks) => any_set(marks),
        }
    }

    /// The marks, or None where all are set: then nothing is cut.
    pub fn cut(&self) -> Option<&[bool]>
        ensures { MatchOption result (list_all (λ mark. mark) self.now ≡ true)
            (λ marks. marks.now ≡ self.now) }
    {
        match &self.kept {
            Kept::Whole(_) => None,
            Kept::Cut(marks) => Some(marks),
        }
    }

    /// These marks, but for those that the others don't set. It takes no memory where all of the
    /// others are set.
    pub fn both(self, alloc: Global, others: &Marks) -> Result<Marks, NoMemory>
        ensures { IfOk result (λ marks. marks ≡ both self others.now) }
    {
        let Some(set) = others.cut() else {
            return Ok(self);
        };
        let mut marks = Vec::with_capacity(alloc, self.len())?;
        for at in 0..self.len() {
            marks.push(self.is_set(at) && is_set(set, at))?;
        }
        Ok(Marks::of(marks))
    }
}
