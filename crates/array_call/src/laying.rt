//! A document as numbers.
ghost use Rattle.std.specs.Prelude.{◌≡◌, ◌+◌, ◌-◌, ◌*◌, ◌^◌, ◌++◌, true, ℤ, List, map, min, All};
ghost use Rattle.std.specs.Prelude.{IfOk, OnOk};
ghost use Rattle.mb_problem.specs.Kinds.{form_of};
ghost use Rattle.array_call.specs.Layout.{status_number, start_number, walk_numbers};
ghost use Rattle.array_call.specs.Layout.{answer_numbers, listed_members, excluding, all_items};
ghost use Rattle.array_call.specs.Layout.{set_list, lists};
ghost use Rattle.array_call.specs.Laid.{HasItemsOf};
ghost use Rattle.doc_format.specs.Items.{is_item, item_number};
ghost use Rattle.array_call.specs.Sheets.{HasItems, IsCountOn};
ghost use Rattle.array_call.specs.Layout.{offsets, head, certificate, numbers_by, numbers_for};

use crate::counts::counts_of;
use doc_format::{DocStatus, Document, DualLine, MemberLine, PathLine, SetItem, SetLine, WalkLine};
use mb_base::OutOfMemory;
use mb_problem::{AnswerForm, Kind};
use solve_answers::Detail;
use std::alloc::Global;

fn status_number(status: DocStatus) -> i64
    ensures { result ≡ status_number status }
{
    match status {
        DocStatus::Optimal => 1,
        DocStatus::Infeasible => 2,
        DocStatus::NonConservative => 3,
    }
}

/// Where a walk starts; 0 if there is none.
fn start_number(walk: &Option<WalkLine>) -> i64
    ensures { result ≡ start_number walk.now }
{
    match walk {
        Some(walk) => walk.start,
        None => 0,
    }
}

fn walk_numbers(alloc: Global, walk: &Option<WalkLine>) -> Result<Vec<i64>, OutOfMemory>
    ensures { IfOk result (λ v. v.items ≡ walk_numbers walk.now) }
{
    match walk {
        Some(walk) => Vec::from_slice(alloc, walk.edges.as_slice()),
        None => Ok(Vec::new(alloc)),
    }
}

/// The count of each edge, or the edges of the walk.
fn answer_numbers(
    alloc: Global,
    form: AnswerForm,
    m: usize,
    document: &Document,
) -> Result<Vec<i64>, OutOfMemory>
    requires { All (IsCountOn m) document.now.counts }
    ensures { IfOk result (λ v. v.items ≡ answer_numbers form m document.now) }
{
    match form {
        AnswerForm::Counts => counts_of(alloc, document.counts.as_slice(), m),
        AnswerForm::Walk => walk_numbers(alloc, &document.walk),
    }
}

/// Puts the members of a set of vertices at the end, if there is one.
fn push_members(numbers: &mut Vec<i64>, set: &Option<MemberLine>) -> Result<(), OutOfMemory>
    ensures { OnOk result (numbers.new.items ≡ numbers.old.items ++ listed_members set.now) }
{
    if let Some(set) = set {
        numbers.extend_from_slice(set.members.as_slice())?;
    }
    Ok(())
}

/// The members of what excludes all answers, or of the barrier beside a best answer.
fn excluding(alloc: Global, document: &Document) -> Result<Vec<i64>, OutOfMemory>
    ensures { IfOk result (λ v. v.items ≡ excluding document.now) }
{
    let mut members = Vec::new(alloc);
    push_members(&mut members, &document.barrier)?;
    push_members(&mut members, &document.odd)?;
    push_members(&mut members, &document.split)?;
    Ok(members)
}

/// Puts the duals of vertices at the end.
fn push_duals(numbers: &mut Vec<i64>, duals: &[DualLine]) -> Result<(), OutOfMemory>
    ensures { OnOk result (numbers.new.items ≡ numbers.old.items ++ map (λ y. y.dual) duals.now) }
{
    for y in duals {
        numbers.push(y.dual)?;
    }
    Ok(())
}

/// Puts the duals of sets at the end.
fn push_set_duals(numbers: &mut Vec<i64>, sets: &[SetLine]) -> Result<(), OutOfMemory>
    ensures { OnOk result (numbers.new.items ≡ numbers.old.items ++ map (λ z. z.dual) sets.now) }
{
    for z in sets {
        numbers.push(z.dual)?;
    }
    Ok(())
}

/// An item of a set: a vertex, or if negative a set before it.
fn item_number(item: SetItem) -> i64
    requires { is_item item ≡ true }
    ensures { result ≡ item_number item }
{
    match item {
        SetItem::Vertex(vertex) => vertex,
        SetItem::Reference(line) => -line,
    }
}

/// Puts the items of a set at the end.
fn push_items(numbers: &mut Vec<i64>, items: &[SetItem]) -> Result<(), OutOfMemory>
    requires { All (λ x. is_item x ≡ true) items.now }
    ensures { OnOk result (numbers.new.items ≡ numbers.old.items ++ map item_number items.now) }
{
    for item in items {
        numbers.push(item_number(*item))?;
    }
    Ok(())
}

/// Puts the vertices of paths at the end.
fn push_starts(numbers: &mut Vec<i64>, paths: &[PathLine]) -> Result<(), OutOfMemory>
    ensures { OnOk result (numbers.new.items ≡ numbers.old.items ++ map (λ r. r.vertex) paths.now) }
{
    for r in paths {
        numbers.push(r.vertex)?;
    }
    Ok(())
}

/// The items of lists, list by list, and where those of each list begin.
#[derive(Drop)]
struct Items {
    offsets: Vec<i64>,
    all: Vec<i64>,
}

/// Puts the items of sets at the end, behind those of other lists.
fn push_sets(items: &mut Items, sets: &[SetLine]) -> Result<(), OutOfMemory>
    requires { All HasItems sets.now }
    ensures { (before : List (List ℤ)) → HasItemsOf before items.old → OnOk result
        (HasItemsOf (before ++ map set_list sets.now) items.new) }
{
    for z in sets {
        items.offsets.push(items.all.len() as i64)?;
        push_items(&mut items.all, z.items.as_slice())?;
    }
    Ok(())
}

/// Puts the edges of paths at the end, behind the items of other lists.
fn push_paths(items: &mut Items, paths: &[PathLine]) -> Result<(), OutOfMemory>
    ensures { (before : List (List ℤ)) → HasItemsOf before items.old → OnOk result
        (HasItemsOf (before ++ map (λ r. r.edges) paths.now) items.new) }
{
    for r in paths {
        items.offsets.push(items.all.len() as i64)?;
        items.all.extend_from_slice(r.edges.as_slice())?;
    }
    Ok(())
}

/// The items of sets and paths, where the last offset is the end of all.
fn items_of(alloc: Global, sets: &[SetLine], paths: &[PathLine]) -> Result<Items, OutOfMemory>
    requires { All HasItems sets.now }
    ensures offsets { IfOk result (λ m. m.offsets.items ≡ offsets (lists sets.now paths.now)) }
    ensures all { IfOk result (λ m. m.all.items ≡ all_items (lists sets.now paths.now)) }
{
    let mut items = Items {
        offsets: Vec::new(alloc),
        all: Vec::new(alloc),
    };
    push_sets(&mut items, sets)?;
    push_paths(&mut items, paths)?;
    items.offsets.push(items.all.len() as i64)?;
    Ok(items)
}

/// What proves an answer.
#[derive(Clone, Copy)]
struct Proof<'a> {
    duals: &'a [DualLine],
    sets: &'a [SetLine],
    paths: &'a [PathLine],
    members: &'a [i64],
}

/// How many numbers there are of each part of a document.
#[derive(Clone, Copy)]
struct Lengths {
    answer: i64,
    duals: i64,
    lists: i64,
    all: i64,
    members: i64,
}

/// Room for the numbers of parts of these lengths, so that they are laid where they stay.
fn room(answer: usize, duals: usize, lists: usize, members: usize) -> usize
    ensures { result ≡ min (2 ^ 64 - 1) (answer + duals + 2 * lists + members + 9) }
{
    answer
        .saturating_add(duals)
        .saturating_add(lists)
        .saturating_add(lists)
        .saturating_add(members)
        .saturating_add(9)
}

/// The numbers that say what follows, with room for so many.
fn head(
    alloc: Global,
    document: &Document,
    lengths: Lengths,
    room: usize,
) -> Result<Vec<i64>, OutOfMemory>
    ensures { IfOk result (λ v. v.items
        ≡ head document.now.status document.now.weight (start_number document.now.walk)
        lengths.answer lengths.duals lengths.lists lengths.all lengths.members) }
{
    let mut numbers = Vec::with_capacity(alloc, room)?;
    numbers.extend_from_slice(&[
        status_number(document.status),
        document.weight,
        start_number(&document.walk),
        lengths.answer,
        lengths.duals,
        lengths.lists,
        lengths.all,
        lengths.members,
    ])?;
    Ok(numbers)
}

/// Puts a certificate at the end, if these are the items of its sets and paths.
fn push_certificate(
    numbers: &mut Vec<i64>,
    proof: &Proof<'_>,
    items: &Items,
) -> Result<(), OutOfMemory>
    requires offsets { items.now.offsets.items
        ≡ offsets (lists proof.now.sets.now proof.now.paths.now) }
    requires all { items.now.all.items
        ≡ all_items (lists proof.now.sets.now proof.now.paths.now) }
    ensures { OnOk result (numbers.new.items ≡ numbers.old.items ++ certificate
        proof.now.duals.now proof.now.sets.now proof.now.paths.now proof.now.members.now) }
{
    push_duals(numbers, proof.duals)?;
    push_set_duals(numbers, proof.sets)?;
    push_starts(numbers, proof.paths)?;
    numbers.extend_from_slice(&items.offsets)?;
    numbers.extend_from_slice(&items.all)?;
    numbers.extend_from_slice(proof.members)?;
    Ok(())
}

/// The numbers of a document with this answer and this certificate.
fn laid(
    alloc: Global,
    document: &Document,
    answer: &[i64],
    proof: &Proof<'_>,
) -> Result<Vec<i64>, OutOfMemory>
    requires { All HasItems proof.now.sets.now }
    ensures { IfOk result (λ v. v.items ≡ numbers_by document.now answer.now proof.now.duals.now
        proof.now.sets.now proof.now.paths.now proof.now.members.now) }
{
    let items = items_of(alloc, proof.sets, proof.paths)?;
    let lists = items.offsets.len() - 1;
    let lengths = Lengths {
        answer: answer.len() as i64,
        duals: proof.duals.len() as i64,
        lists: lists as i64,
        all: items.all.len() as i64,
        members: proof.members.len() as i64,
    };
    let others = items.all.len().saturating_add(proof.members.len());
    let room = room(answer.len(), proof.duals.len(), lists, others);
    let mut numbers = head(alloc, document, lengths, room)?;
    numbers.extend_from_slice(answer)?;
    push_certificate(&mut numbers, proof, &items)?;
    Ok(numbers)
}

/// The numbers of a document of a kind with `m` edges: eight that say what follows, the answer, and
/// unless they are asked for in brief what proves it. It takes time linear in them.
pub fn numbers_of(
    alloc: Global,
    kind: Kind,
    m: usize,
    detail: Detail,
    document: &Document,
) -> Result<Vec<i64>, OutOfMemory>
    requires { All (IsCountOn m) document.now.counts }

    // The numbers of a document.
    ensures { IfOk result (λ v. v.items ≡ numbers_for detail (form_of kind) m document.now) }
{
    let answer = answer_numbers(alloc, kind.form(), m, document)?;
    if detail.is_brief() {
        let none = Proof {
            duals: &[],
            sets: &[],
            paths: &[],
            members: &[],
        };
        return laid(alloc, document, &answer, &none);
    }
    let members = excluding(alloc, document)?;
    let proof = Proof {
        duals: document.duals.as_slice(),
        sets: document.sets.as_slice(),
        paths: document.paths.as_slice(),
        members: &members,
    };
    laid(alloc, document, &answer, &proof)
}
