// Which kinds lead to an isolate. The marks spread along the edges first; then turns over all kinds add what is left, and the
// last of them finds that nothing is.
ghost use Rattle.std.specs.Prelude.{◌≡◌, ◌⊎◌, ℕ, length, true, IfOk};
ghost use Rattle.std.specs.List.{All};
ghost use Rattle.vale_code.specs.declared.ty.Ty.TheVariants.{Own};
ghost use Rattle.vale_cert.specs.Types.{marked, reaches_isolate, isolates_under};
ghost use Rattle.vale_marks.specs.Ways.{leads, leads_to_isolate, AreSound, IsEdge};

use crate::edges::{Edge, edges_of};
use crate::way::Way;
use crate::ways::{has_mark, turn};
use std::alloc::Global;
use vale_base::Memory;
use vale_code::Code;

fn same_marks(marks: &[bool], next: &[bool]) -> bool
    requires { length next.now ≡ length marks.now }
    ensures { result ≡ true → (n : ℕ) → marked next.now n ≡ marked marks.now n }
{
    for (n, mark) in marks.iter().enumerate() {
        if next[n] != *mark {
            return false;
        }
    }
    true
}

/// A turn, and whether nothing was to be marked.
fn last_turn(way: Way, code: &Code, marks: &[bool], next: &mut [bool]) -> bool
    requires marks { length marks.now ≡ length code.now.kinds }
    requires next { length next.old ≡ length code.now.kinds }
    ensures next { (n : ℕ) → marked next.new n ≡ leads way code.now (marked marks.now) n }
    ensures last { result ≡ true → (n : ℕ) → marked marks.now n ≡ leads way code.now (marked marks.now) n }
{
    turn(way, code, marks, next);
    same_marks(marks, next)
}

/// Marks a kind, where it isn't yet, and notes it.
fn mark(n: usize, marks: &mut [bool], found: &mut Vec<usize>) -> Result<(), Memory>
    ensures { (k : ℕ) → marked marks.new k ≡ true → (marked marks.old k ≡ true) ⊎ (k ≡ n) }
{
    match marks.get(n) {
        Some(false) => {
            found.push(n)?;
            marks[n] = true;
            Ok(())
        }
        _ => Ok(()),
    }
}

/// Marks those that lead to this kind by the edges to it, which stand first among these.
fn spread_along(
    way: Way,
    code: &Code,
    edges: &[Edge],
    kind: usize,
    marks: &mut [bool],
    found: &mut Vec<usize>,
) -> Result<(), Memory>
    requires edges { All (IsEdge way code.now) edges.now }
    requires sound { AreSound way code.now marks.old }
    requires leads { leads_to_isolate way code.now kind ≡ true }
    ensures { AreSound way code.now marks.new }
{
    for edge in edges {
        if edge.to as usize != kind {
            return Ok(());
        }
        mark(edge.from as usize, marks, found)?;
    }
    Ok(())
}

/// Marks the kinds that lead to this one at once.
fn spread_from(
    way: Way,
    code: &Code,
    edges: &[Edge],
    kind: usize,
    marks: &mut [bool],
    found: &mut Vec<usize>,
) -> Result<(), Memory>
    requires edges { All (IsEdge way code.now) edges.now }
    requires sound { AreSound way code.now marks.old }
    requires leads { leads_to_isolate way code.now kind ≡ true }
    ensures { AreSound way code.now marks.new }
{
    let first = edges.partition_point(|edge| (edge.to as usize) < kind);
    spread_along(way, code, &edges[first..], kind, marks, found)
}

/// The numbers of the marked kinds.
fn marked_of(alloc: Global, marks: &[bool]) -> Result<Vec<usize>, Memory> {
    let mut found = Vec::new(alloc);
    for (n, mark) in marks.iter().enumerate() {
        if *mark {
            found.push(n)?;
        }
    }
    Ok(found)
}

/// Marks what leads to a marked kind, over as many kinds as it takes.
fn spread(
    alloc: Global,
    way: Way,
    code: &Code,
    edges: &[Edge],
    marks: &mut [bool],
) -> Result<(), Memory>
    requires edges { All (IsEdge way code.now) edges.now }
    requires sound { AreSound way code.now marks.old }
    ensures { AreSound way code.now marks.new }
{
    let mut found = marked_of(alloc, marks)?;
    for n in 0..marks.len() {
        let Some(kind) = found.as_slice().get(n).copied() else {
            return Ok(());
        };
        if has_mark(marks, kind) {
            spread_from(way, code, edges, kind, marks, &mut found)?;
        }
    }
    Ok(())
}

/// Marks of kinds that lead to an isolate, which a walk along the edges finds.
fn first_marks(alloc: Global, way: Way, code: &Code) -> Result<Vec<bool>, Memory>
    ensures len { IfOk result (λ marks. length marks.items ≡ length code.now.kinds) }
    ensures sound { IfOk result (λ marks. AreSound way code.now marks.items) }
{
    let count = code.kinds.len();
    let none = vec![in alloc; false; count]?;
    let mut marks = vec![in alloc; false; count]?;
    turn(way, code, &none, &mut marks);
    let edges = edges_of(alloc, way, code)?;
    spread(alloc, way, code, &edges, &mut marks)?;
    Ok(marks)
}

/// A mark for each kind: whether it leads to an isolate.
fn marks_of(alloc: Global, way: Way, code: &Code) -> Result<Vec<bool>, Memory>
    ensures { IfOk result (λ marks. (n : ℕ) → marked marks.items n ≡ leads_to_isolate way code.now n) }
{
    let count = code.kinds.len();
    let mut marks = first_marks(alloc, way, code)?;
    let mut next = vec![in alloc; false; count]?;
    for _turn in 0..count {
        if last_turn(way, code, &marks, &mut next) {
            return Ok(marks);
        }
        std::mem::swap(&mut marks, &mut next);
    }
    Ok(marks)
}

/// A mark for each kind: whether it reaches an isolate.
pub fn iso_marks(alloc: Global, code: &Code) -> Result<Vec<bool>, Memory>
    ensures { IfOk result (λ marks. (n : ℕ) → marked marks.items n ≡ reaches_isolate code.now n) }
{
    marks_of(alloc, Way::Any, code)
}

/// A mark for each kind: whether it is an array of isolates, or of such arrays.
pub fn array_marks(alloc: Global, code: &Code) -> Result<Vec<bool>, Memory>
    ensures { IfOk result (λ marks. (n : ℕ) → marked marks.items n ≡ isolates_under code.now (length code.now.kinds) (Own (record { 0 = n }))) }
{
    marks_of(alloc, Way::Arrays, code)
}
