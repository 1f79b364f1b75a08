//! All that was ever granted of some privileges on a table, as a graph in time.
ghost use Rattle.std.specs.Prelude.{◌≡◌};
ghost use Rattle.explain_words.specs.Graphs.{colour};

use crate::folds::{Fold, folds_of};
use crate::past::Past;
use crate::privileges::{have_one_word, put_privilege};
use crate::prose::Prose;
use base_core::{Atom, Name, NoMemory, User};
use explain_core::{Life, Why};
use grants_core::Grant;
use std::alloc::Global;

/// The part that a grant has in what was asked.
#[derive(Clone, Copy, PartialEq, Eq)]
enum Part {
    Beside,
    /// It is of a chain by which the user holds it.
    Holds,
    /// It is of those that led down to a grant which he lost.
    Lost,
}

/// The part of each grant, by its number.
type Parts = Vec<Part>;

/// No grant has a part in it yet.
fn no_parts(alloc: Global, past: &Past<'_>) -> Result<Parts, NoMemory> {
    let mut parts = Vec::new(alloc);
    for _ in past.history.lives() {
        parts.push(Part::Beside)?;
    }
    Ok(parts)
}

fn set_part(parts: &mut Parts, grant: &Grant, part: Part) {
    if let Some(noted) = parts.get_mut(grant.number as usize) {
        *noted = part;
    }
}

/// Notes the grants that lead down to one that fell.
fn note_descent(
    parts: &mut Parts,
    alloc: Global,
    past: &Past<'_>,
    life: &Life,
) -> Result<(), NoMemory> {
    for step in &past.descent_to(alloc, life.grant.number)? {
        set_part(parts, &step.grant, Part::Lost);
    }
    Ok(())
}

fn note_descents(
    parts: &mut Parts,
    alloc: Global,
    past: &Past<'_>,
    given: &[Life],
) -> Result<(), NoMemory> {
    for life in given {
        note_descent(parts, alloc, past, life)?;
    }
    Ok(())
}

/// Notes the grants that tell why the user holds the atom, or why he does not.
fn note_why(
    parts: &mut Parts,
    alloc: Global,
    past: &Past<'_>,
    user: &User,
    atom: &Atom,
) -> Result<(), NoMemory> {
    match past.history.why(alloc, user, atom)? {
        Why::Owns { .. } => Ok(()),
        Why::Holds { chain } => {
            for grant in &chain {
                set_part(parts, grant, Part::Holds);
            }
            Ok(())
        }
        Why::Lacks { given } => note_descents(parts, alloc, past, &given),
    }
}

/// The lives of grants of the atoms which have this part.
fn edges_of(
    alloc: Global,
    past: &Past<'_>,
    atoms: &[Atom],
    parts: &[Part],
    part: Part,
) -> Result<Vec<Life>, NoMemory> {
    let mut edges = Vec::new(alloc);
    let lives = past.history.lives();
    for at in 0..lives.len() {
        if parts.get(at) == Some(&part) && atoms.contains(&lives[at].grant.atom) {
            edges.reserve(1)?;
            edges.push_reserved(lives[at]);
        }
    }
    Ok(edges)
}

/// What stands at an edge: its moments, and its privilege where that is not all that was asked.
fn put_label(text: &mut Prose, past: &Past<'_>, asked: usize, fold: &Fold) {
    text.put_moment(fold.life.grant.moment);
    if let Some(fell) = fold.life.fell {
        text.put(b" - ");
        text.put_moment(fell);
    }
    if fold.atoms.len() < asked {
        text.put(b" ");
        put_privilege(text, past.tables, &fold.atoms);
    }
    match fold.life.option_end {
        Some(end) if fold.life.grant.option && fold.life.fell != Some(end) => {
            text.put(b", option - ");
            text.put_moment(end)
        }
        _ => {}
    }
}

/// How an edge is drawn: dashed if its grant fell, bold if it has the option, or had it to the end.
fn style_of(life: &Life) -> &'static [u8] {
    let is_bold = life.grant.option && life.option_end == life.fell;
    match (is_bold, life.fell.is_some()) {
        (false, false) => b"solid",
        (false, true) => b"dashed",
        (true, false) => b"bold",
        (true, true) => b"\"bold,dashed\"",
    }
}

fn put_edge(text: &mut Prose, past: &Past<'_>, asked: usize, fold: &Fold, colour: &[u8]) {
    let grant = &fold.life.grant;
    text.put_all(&[b"  \"", grant.grantor.0.as_bytes(), b"\" -> \""]);
    text.put_all(&[grant.grantee.0.as_bytes(), b"\" [label=\""]);
    put_label(text, past, asked, fold);
    text.put(b"\", style=");
    text.put(style_of(&fold.life));
    text.put(colour);
    text.put(b"];\n");
}

fn colour_of(part: Part) -> &'static [u8]
    ensures { result.now ≡ colour part }
{
    match part {
        Part::Beside => b"",
        Part::Holds => b", color=blue",
        Part::Lost => b", color=red",
    }
}

/// The edges with this part.
fn put_edges(
    text: &mut Prose,
    alloc: Global,
    past: &Past<'_>,
    atoms: &[Atom],
    parts: &[Part],
    part: Part,
) {
    let lives = text.found(edges_of(alloc, past, atoms, parts, part));
    let folds = text.found(folds_of(alloc, &lives));
    for fold in &folds {
        put_edge(text, past, atoms.len(), fold, colour_of(part));
    }
}

/// The name of the graph: the privilege, if it is one, on the table at the moment.
fn put_title(text: &mut Prose, past: &Past<'_>, table: &Name, atoms: &[Atom]) {
    text.put(b"digraph \"");
    if are_of_one_word(atoms) {
        put_privilege(text, past.tables, atoms);
        text.put(b" on ");
    }
    text.put_all(&[table.as_bytes(), b" "]);
    text.put_moment(past.now());
    text.put(b"\" {\n  rankdir=LR;\n");
}

/// Whether the atoms differ in their columns alone.
fn are_of_one_word(atoms: &[Atom]) -> bool {
    match atoms.first() {
        Some(first) => atoms
            .iter()
            .all(|atom| have_one_word(&first.kind, &atom.kind)),
        None => false,
    }
}

/// Appends the graph, in which noted edges have a colour.
fn put_graph(
    text: &mut Prose,
    alloc: Global,
    past: &Past<'_>,
    table: &Name,
    atoms: &[Atom],
    parts: &[Part],
) {
    put_title(text, past, table, atoms);
    if let Some(owned) = past.owned(table) {
        text.put_all(&[b"  \"", owned.owner.0.as_bytes(), b"\" [peripheries=2];\n"]);
    }
    put_edges(text, alloc, past, atoms, parts, Part::Beside);
    put_edges(text, alloc, past, atoms, parts, Part::Lost);
    put_edges(text, alloc, past, atoms, parts, Part::Holds);
    text.put(b"}\n");
}

/// Appends the graph of the atoms on the table.
pub fn put_grants_graph(
    text: &mut Prose,
    alloc: Global,
    past: &Past<'_>,
    table: &Name,
    atoms: &[Atom],
) {
    let parts = text.found(no_parts(alloc, past));
    put_graph(text, alloc, past, table, atoms, &parts);
}

/// Notes what tells why the user holds the atoms, or how he lost them.
fn note_each(
    parts: &mut Parts,
    alloc: Global,
    past: &Past<'_>,
    user: &User,
    atoms: &[Atom],
) -> Result<(), NoMemory> {
    for atom in atoms {
        note_why(parts, alloc, past, user, atom)?;
    }
    Ok(())
}

/// Appends the graph of the atoms on the table, in which what tells why the user holds them is
/// blue, and what tells how he lost them is red.
pub fn put_why_graph(
    text: &mut Prose,
    alloc: Global,
    past: &Past<'_>,
    user: &User,
    table: &Name,
    atoms: &[Atom],
) -> Result<(), NoMemory> {
    let mut parts = no_parts(alloc, past)?;
    note_each(&mut parts, alloc, past, user, atoms)?;
    put_graph(text, alloc, past, table, atoms, &parts);
    Ok(())
}
