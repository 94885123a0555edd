//! The document that the parts of numbers are.
ghost use Rattle.std.specs.Prelude.{◌≡◌, ℕ, ◌+◌, ◌<◌, ◌≤◌, ◌++◌, ◌∷◌, ℤ, pos, ◌≤ℤ◌, List, length};
ghost use Rattle.std.specs.Prelude.{map, All, [], true, false, if◌then◌else◌, None, IfOk, IfSome};
ghost use Rattle.std.specs.Prelude.{OnOk};
ghost use Rattle.mb_problem.specs.declared.kind.BestProof.TheVariants.{LighterBarrier, OuterPaths};
ghost use Rattle.mb_problem.specs.Kinds.{are_duals, asks_conservative, form_of, proof_of};
ghost use Rattle.doc_format.specs.Parts.{ascends};
ghost use Rattle.doc_format.specs.Form.{AscendsBy};
ghost use Rattle.doc_format.specs.Items.{is_item, item_number};
ghost use Rattle.doc_format.specs.declared.status.DocStatus.TheVariants.{Optimal};
ghost use Rattle.doc_format.specs.declared.status.DocStatus.TheVariants.{NonConservative};
ghost use Rattle.certificates.specs.Claims.{numbers, counts_of};
ghost use Rattle.document_lines.specs.Lines.{is_used, line_at};
ghost use Rattle.array_call.specs.Sheets.{IsCountOn, HasEdges, AreIn, HasItems, IsAnswerOn};
ghost use Rattle.array_call.specs.Sheets.{IsListAt, number_at, sheet_of};
ghost use Rattle.array_call.specs.Layout.{answer_numbers, listed_members, set_list, walk_numbers};
ghost use Rattle.array_call.specs.Documents.{HasLists, IsFound, StatesNumbers};

use crate::parting::Parts;
use doc_format::{
    CountLine, DocStatus, Document, DualLine, Head, MemberLine, PathLine, SetItem, SetLine,
    WalkLine, is_ascending,
};
use mb_base::{OutOfMemory, Sequence};
use mb_problem::{AnswerForm, BestProof, Kind, Obstruction};
use solve_answers::infeasible_by;
use std::alloc::Global;

/// Whether no number is negative.
fn are_natural(numbers: &[i64]) -> bool
    ensures yes { result ≡ true → All (λ z. pos 0 ≤ℤ z) numbers.now }
    ensures no { result ≡ false → All (λ z. pos 0 ≤ℤ z) numbers.now → ⊥ }
{
    numbers.iter().all(|&number| number >= 0)
}

/// Puts the line of the edge at a place, from 0, at the end where the edge is used.
fn push_used(lines: &mut Vec<CountLine>, counts: &[i64], k: usize) -> Result<(), OutOfMemory>
    requires in_range { k < length counts.now }
    requires natural { All (λ c. pos 0 ≤ℤ c) counts.now }
    ensures { OnOk result (lines.new.items ≡ (if is_used (numbers counts.now) (k + 1)
        then lines.old.items ++ line_at (numbers counts.now) (k + 1) ∷ []
        else lines.old.items)) }
{
    let count = counts[k];
    if count == 0 {
        return Ok(());
    }
    lines.push(CountLine {
        line: 1,
        edge: k as i64 + 1,
        count,
    })?;
    Ok(())
}

/// The `x` lines of counts.
fn count_lines(alloc: Global, counts: &[i64]) -> Result<Vec<CountLine>, OutOfMemory>
    requires natural { All (λ c. pos 0 ≤ℤ c) counts.now }
    ensures ascending { IfOk result (λ v. AscendsBy (λ x. x.edge) v.items) }
    ensures within { IfOk result (λ v. All (IsCountOn (length counts.now)) v.items) }
    ensures counts { IfOk result
        (λ v. map pos (counts_of v.items (length counts.now)) ≡ counts.now) }
{
    let mut lines = Vec::new(alloc);
    for k in 0..counts.len() {
        push_used(&mut lines, counts, k)?;
    }
    Ok(lines)
}

/// The `w` line of a walk, where it has an edge.
fn walk_line(alloc: Global, start: i64, edges: &[i64]) -> Result<Option<WalkLine>, OutOfMemory>
    ensures some { IfOk result HasEdges }
    ensures edges { IfOk result (λ w. walk_numbers w ≡ edges.now) }
    ensures start { IfOk result (λ o. IfSome o (λ w. w.start ≡ start)) }
{
    if edges.is_empty() {
        return Ok(None);
    }
    let edges = Sequence::from_vec(Vec::from_slice(alloc, edges)?);
    Ok(Some(WalkLine {
        line: 1,
        start,
        edges,
    }))
}

/// The `y` lines of duals of vertices.
fn dual_lines(alloc: Global, duals: &[i64]) -> Result<Vec<DualLine>, OutOfMemory>
    ensures ascending { IfOk result (λ v. AscendsBy (λ y. y.vertex) v.items) }
    ensures duals { IfOk result (λ v. map (λ y. y.dual) v.items ≡ duals.now) }
{
    let mut lines = Vec::with_capacity(alloc, duals.len())?;
    for k in 0..duals.len() {
        lines.push(DualLine {
            line: 1,
            vertex: k as i64 + 1,
            dual: duals[k],
        })?;
    }
    Ok(lines)
}

/// The item of a set that a number is: a vertex, or if negative a reference to a set before it. The
/// least number refers to none; as a vertex it is out of range.
fn item_of(number: i64) -> SetItem
    ensures number { item_number result ≡ number }
    ensures item { is_item result ≡ true }
{
    if number >= 0 {
        return SetItem::Vertex(number);
    }
    if number == i64::MIN {
        return SetItem::Vertex(number);
    }
    SetItem::Reference(-number)
}

/// The items of a set that numbers are.
fn items_of(alloc: Global, numbers: &[i64]) -> Result<Vec<SetItem>, OutOfMemory>
    ensures numbers { IfOk result (λ v. map item_number v.items ≡ numbers.now) }
    ensures items { IfOk result (λ v. All (λ x. is_item x ≡ true) v.items) }
{
    let mut items = Vec::with_capacity(alloc, numbers.len())?;
    for k in 0..numbers.len() {
        items.push(item_of(numbers[k]))?;
    }
    Ok(items)
}

/// The `z` line of a set with this dual.
fn set_line(alloc: Global, dual: i64, numbers: &[i64]) -> Result<SetLine, OutOfMemory>
    ensures dual { IfOk result (λ z. z.dual ≡ dual) }
    ensures numbers { IfOk result (λ z. map item_number z.items ≡ numbers.now) }
    ensures items { IfOk result HasItems }
{
    let items = Sequence::from_vec(items_of(alloc, numbers)?);
    Ok(SetLine {
        line: 1,
        dual,
        items,
    })
}

/// The items of the list at a place, where the offsets are some of them.
fn list_at<'a>(offsets: &[i64], items: &'a [i64], k: usize) -> Option<&'a [i64]>
    ensures list { IfSome result (λ list. IsListAt offsets.now items.now k list.now) }
    ensures none { result ≡ None → k + 1 < length offsets.now → (list : List ℤ)
        → (at : IsListAt offsets.now items.now k list)
        → at.first + at.size ≤ length items.now → ⊥ }
{
    let first = *offsets.get(k)?;
    let last = *offsets.get(k + 1)?;
    if first < 0 {
        return None;
    }
    if last < first {
        return None;
    }
    if last as u64 > items.len() as u64 {
        return None;
    }
    Some(&items[first as usize..last as usize])
}

/// The `z` lines of sets, where the offsets are some of their items.
fn set_lines(alloc: Global, parts: &Parts<'_>) -> Result<Option<Vec<SetLine>>, OutOfMemory>
    ensures duals { IfOk result (λ o. IfSome o
        (λ v. map (λ z. z.dual) v.items ≡ parts.now.leads.now)) }
    ensures items { IfOk result (λ o. IfSome o (λ v. All HasItems v.items)) }
    ensures lists { IfOk result (λ o. IfSome o (λ v. (xss : List (List ℤ))
        → HasLists (sheet_of parts.now) xss → map set_list v.items ≡ xss)) }
    ensures none { IfOk result (λ o. o ≡ None → (xss : List (List ℤ))
        → HasLists (sheet_of parts.now) xss → ⊥) }
{
    let mut lines = Vec::with_capacity(alloc, parts.leads.len())?;
    for k in 0..parts.leads.len() {
        let Some(set) = list_at(parts.offsets, parts.items, k) else {
            return Ok(None);
        };
        lines.push(set_line(alloc, parts.leads[k], set)?)?;
    }
    Ok(Some(lines))
}

/// The `r` line of a path.
fn path_line(alloc: Global, vertex: i64, edges: &[i64]) -> Result<PathLine, OutOfMemory>
    ensures vertex { IfOk result (λ r. r.vertex ≡ vertex) }
    ensures edges { IfOk result (λ r. r.edges ≡ edges.now) }
{
    let edges = Sequence::from_vec(Vec::from_slice(alloc, edges)?);
    Ok(PathLine {
        line: 1,
        vertex,
        edges,
    })
}

/// The `r` lines of paths, where the offsets are some of their edges.
fn path_lines(alloc: Global, parts: &Parts<'_>) -> Result<Option<Vec<PathLine>>, OutOfMemory>
    ensures vertices { IfOk result (λ o. IfSome o
        (λ v. map (λ r. r.vertex) v.items ≡ parts.now.leads.now)) }
    ensures lists { IfOk result (λ o. IfSome o (λ v. (xss : List (List ℤ))
        → HasLists (sheet_of parts.now) xss → map (λ r. r.edges) v.items ≡ xss)) }
    ensures none { IfOk result (λ o. o ≡ None → (xss : List (List ℤ))
        → HasLists (sheet_of parts.now) xss → ⊥) }
{
    let mut lines = Vec::with_capacity(alloc, parts.leads.len())?;
    for k in 0..parts.leads.len() {
        let Some(path) = list_at(parts.offsets, parts.items, k) else {
            return Ok(None);
        };
        lines.push(path_line(alloc, parts.leads[k], path)?)?;
    }
    Ok(Some(lines))
}

/// The line of a set of vertices with these members.
fn member_line(alloc: Global, members: &[i64]) -> Result<MemberLine, OutOfMemory>
    ensures { IfOk result (λ u. u.members ≡ members.now) }
{
    let members = Sequence::from_vec(Vec::from_slice(alloc, members)?);
    Ok(MemberLine { line: 1, members })
}

/// The lines of an answer.
#[derive(Drop)]
struct AnswerLines {
    counts: Vec<CountLine>,
    walk: Option<WalkLine>,
}

/// The lines of an answer of this form.
fn answer_lines(
    alloc: Global,
    form: AnswerForm,
    start: i64,
    answer: &[i64],
) -> Result<AnswerLines, OutOfMemory>
    requires answer { IsAnswerOn form (length answer.now) answer.now }
    ensures form { IfOk result (λ l. AreIn form (length answer.now) l.counts.items l.walk) }
    ensures numbers { IfOk result
        (λ l. StatesNumbers form (length answer.now) l.counts.items l.walk answer.now) }
    ensures start { IfOk result (λ l. IfSome l.walk (λ w. w.start ≡ start)) }
{
    match form {
        AnswerForm::Counts => Ok(AnswerLines {
            counts: count_lines(alloc, answer)?,
            walk: None,
        }),
        AnswerForm::Walk => Ok(AnswerLines {
            counts: Vec::new(alloc),
            walk: walk_line(alloc, start, answer)?,
        }),
    }
}

/// Whether numbers are counts of `m` edges.
fn are_counts(numbers: &[i64], m: usize) -> bool
    ensures yes { result ≡ true
        → (length numbers.now ≡ m) × All (λ z. pos 0 ≤ℤ z) numbers.now }
    ensures no { result ≡ false
        → (length numbers.now ≡ m) × All (λ z. pos 0 ≤ℤ z) numbers.now → ⊥ }
{
    if numbers.len() != m {
        return false;
    }
    are_natural(numbers)
}

/// Whether numbers are an answer of this form on `m` edges: counts, or the edges of any walk.
fn is_answer(form: AnswerForm, numbers: &[i64], m: usize) -> bool
    ensures yes { result ≡ true → IsAnswerOn form m numbers.now }
    ensures no { result ≡ false → IsAnswerOn form m numbers.now → ⊥ }
{
    match form {
        AnswerForm::Counts => are_counts(numbers, m),
        AnswerForm::Walk => true,
    }
}

/// The document of a best answer that duals prove, with these sets.
fn optimal(
    alloc: Global,
    kind: Kind,
    m: usize,
    parts: &Parts<'_>,
    sets: Vec<SetLine>,
) -> Result<Document, OutOfMemory>
    requires duals { are_duals (proof_of kind) ≡ true }
    requires answer { IsAnswerOn (form_of kind) m parts.now.answer.now }
    requires head { length parts.now.head.now ≡ 8 }
    requires items { All HasItems sets.items }
    ensures kind { IfOk result (λ d. d.kind ≡ kind) }
    ensures counts { IfOk result (λ d. All (IsCountOn m) d.counts) }
    ensures status { IfOk result (λ d. d.status ≡ Optimal) }
    ensures weight { IfOk result (λ d. d.weight ≡ number_at parts.now.head.now 1) }
    ensures answer { IfOk result
        (λ d. answer_numbers (form_of kind) m d ≡ parts.now.answer.now) }
    ensures start { IfOk result
        (λ d. IfSome d.walk (λ w. w.start ≡ number_at parts.now.head.now 2)) }
    ensures duals { IfOk result (λ d. map (λ y. y.dual) d.duals ≡ parts.now.duals.now) }
    ensures sets { IfOk result (λ d. d.sets ≡ sets.items) }
{
    let answer = answer_lines(alloc, kind.form(), parts.head[2], parts.answer)?;
    let duals = Sequence::from_vec(dual_lines(alloc, parts.duals)?);
    let AnswerLines { counts, walk } = answer;
    let counts = Sequence::from_vec(counts);
    let sets = Sequence::from_vec(sets);
    let head = Head {
        line: 1,
        status: DocStatus::Optimal,
        kind,
        weight: parts.head[1],
    };
    let mut document = Document::new(alloc, head);
    document.counts = counts;
    document.walk = walk;
    document.duals = duals;
    document.sets = sets;
    Ok(document)
}

/// The document of what excludes all answers, if its members ascend and the kind has one.
fn infeasible(alloc: Global, kind: Kind, parts: &Parts<'_>) -> Result<Option<Document>, OutOfMemory>
    requires status { number_at parts.now.head.now 0 ≡ pos 2 }
    ensures kind { IfOk result (λ o. IfSome o (λ d. d.kind ≡ kind)) }
    ensures counts { IfOk result (λ o. IfSome o (λ d. d.counts ≡ [])) }
    ensures found { (m : ℕ) → IfOk result (IsFound kind m (sheet_of parts.now)) }
{
    if kind.obstruction() == Obstruction::Never {
        return Ok(None);
    }
    if !is_ascending(parts.excluding) {
        return Ok(None);
    }
    let line = member_line(alloc, parts.excluding)?;
    Ok(Some(infeasible_by(alloc, kind, line)?))
}

/// The document of a circuit of negative weight.
fn circuit(alloc: Global, kind: Kind, parts: &Parts<'_>) -> Result<Document, OutOfMemory>
    requires asks { asks_conservative kind ≡ true }
    requires head { length parts.now.head.now ≡ 8 }
    ensures kind { IfOk result (λ d. d.kind ≡ kind) }
    ensures counts { IfOk result (λ d. d.counts ≡ []) }
    ensures status { IfOk result (λ d. d.status ≡ NonConservative) }
    ensures edges { IfOk result (λ d. walk_numbers d.walk ≡ parts.now.answer.now) }
    ensures start { IfOk result
        (λ d. IfSome d.walk (λ w. w.start ≡ number_at parts.now.head.now 2)) }
{
    let walk = walk_line(alloc, parts.head[2], parts.answer)?;
    let head = Head {
        line: 1,
        status: DocStatus::NonConservative,
        kind,
        weight: 0,
    };
    let mut document = Document::new(alloc, head);
    document.walk = walk;
    Ok(document)
}

/// The document of a circuit, if the kind asks for conservative weights.
fn nonconservative(
    alloc: Global,
    kind: Kind,
    parts: &Parts<'_>,
) -> Result<Option<Document>, OutOfMemory>
    requires head { length parts.now.head.now ≡ 8 }
    requires status { number_at parts.now.head.now 0 ≡ pos 3 }
    ensures kind { IfOk result (λ o. IfSome o (λ d. d.kind ≡ kind)) }
    ensures counts { IfOk result (λ o. IfSome o (λ d. d.counts ≡ [])) }
    ensures found { (m : ℕ) → IfOk result (IsFound kind m (sheet_of parts.now)) }
{
    if !kind.asks_conservative() {
        return Ok(None);
    }
    Ok(Some(circuit(alloc, kind, parts)?))
}

/// The document of a best answer that duals prove, if its offsets are those of sets.
fn by_duals(
    alloc: Global,
    kind: Kind,
    m: usize,
    parts: &Parts<'_>,
) -> Result<Option<Document>, OutOfMemory>
    requires duals { are_duals (proof_of kind) ≡ true }
    requires answer { IsAnswerOn (form_of kind) m parts.now.answer.now }
    requires head { length parts.now.head.now ≡ 8 }
    requires status { number_at parts.now.head.now 0 ≡ pos 1 }
    ensures kind { IfOk result (λ o. IfSome o (λ d. d.kind ≡ kind)) }
    ensures counts { IfOk result (λ o. IfSome o (λ d. All (IsCountOn m) d.counts)) }
    ensures found { IfOk result (IsFound kind m (sheet_of parts.now)) }
{
    let Some(sets) = set_lines(alloc, parts)? else {
        return Ok(None);
    };
    Ok(Some(optimal(alloc, kind, m, parts, sets)?))
}

/// The document of a best answer that a barrier of the graph of lighter edges proves. It has a `u`
/// line also if there are none.
fn lightest(alloc: Global, kind: Kind, parts: &Parts<'_>) -> Result<Document, OutOfMemory>
    requires proof { proof_of kind ≡ LighterBarrier }
    requires natural { All (λ c. pos 0 ≤ℤ c) parts.now.answer.now }
    requires head { length parts.now.head.now ≡ 8 }
    requires barrier { ascends parts.now.excluding.now ≡ true }
    ensures kind { IfOk result (λ d. d.kind ≡ kind) }
    ensures counts { IfOk result (λ d. All (IsCountOn (length parts.now.answer.now)) d.counts) }
    ensures status { IfOk result (λ d. d.status ≡ Optimal) }
    ensures weight { IfOk result (λ d. d.weight ≡ number_at parts.now.head.now 1) }
    ensures answer { IfOk result (λ d. map pos (counts_of d.counts (length parts.now.answer.now))
        ≡ parts.now.answer.now) }
    ensures barrier { IfOk result (λ d. listed_members d.barrier ≡ parts.now.excluding.now) }
{
    let counts = Sequence::from_vec(count_lines(alloc, parts.answer)?);
    let barrier = member_line(alloc, parts.excluding)?;
    let head = Head {
        line: 1,
        status: DocStatus::Optimal,
        kind,
        weight: parts.head[1],
    };
    let mut document = Document::new(alloc, head);
    document.counts = counts;
    document.barrier = Some(barrier);
    Ok(document)
}

/// The document of a best answer that a barrier of the graph of lighter edges proves, if its
/// members ascend.
fn by_barrier(
    alloc: Global,
    kind: Kind,
    m: usize,
    parts: &Parts<'_>,
) -> Result<Option<Document>, OutOfMemory>
    requires proof { proof_of kind ≡ LighterBarrier }
    requires answer { IsAnswerOn (form_of kind) m parts.now.answer.now }
    requires head { length parts.now.head.now ≡ 8 }
    requires status { number_at parts.now.head.now 0 ≡ pos 1 }
    ensures kind { IfOk result (λ o. IfSome o (λ d. d.kind ≡ kind)) }
    ensures counts { IfOk result (λ o. IfSome o (λ d. All (IsCountOn m) d.counts)) }
    ensures found { IfOk result (IsFound kind m (sheet_of parts.now)) }
{
    if !is_ascending(parts.excluding) {
        return Ok(None);
    }
    Ok(Some(lightest(alloc, kind, parts)?))
}

/// The document of a best answer that paths prove, from each vertex of the `d` line, if these
/// vertices and the members of the `u` line ascend. It has both lines also if there are none.
fn greatest(
    alloc: Global,
    kind: Kind,
    parts: &Parts<'_>,
    paths: Vec<PathLine>,
) -> Result<Document, OutOfMemory>
    requires proof { proof_of kind ≡ OuterPaths }
    requires natural { All (λ c. pos 0 ≤ℤ c) parts.now.answer.now }
    requires head { length parts.now.head.now ≡ 8 }
    requires outer { ascends parts.now.leads.now ≡ true }
    requires border { ascends parts.now.excluding.now ≡ true }
    requires paths { map (λ r. r.vertex) paths.items ≡ parts.now.leads.now }
    ensures kind { IfOk result (λ d. d.kind ≡ kind) }
    ensures counts { IfOk result (λ d. All (IsCountOn (length parts.now.answer.now)) d.counts) }
    ensures status { IfOk result (λ d. d.status ≡ Optimal) }
    ensures weight { IfOk result (λ d. d.weight ≡ number_at parts.now.head.now 1) }
    ensures answer { IfOk result (λ d. map pos (counts_of d.counts (length parts.now.answer.now))
        ≡ parts.now.answer.now) }
    ensures border { IfOk result (λ d. listed_members d.barrier ≡ parts.now.excluding.now) }
    ensures paths { IfOk result (λ d. d.paths ≡ paths.items) }
{
    let counts = Sequence::from_vec(count_lines(alloc, parts.answer)?);
    let outer = member_line(alloc, parts.leads)?;
    let border = member_line(alloc, parts.excluding)?;
    let paths = Sequence::from_vec(paths);
    let head = Head {
        line: 1,
        status: DocStatus::Optimal,
        kind,
        weight: parts.head[1],
    };
    let mut document = Document::new(alloc, head);
    document.counts = counts;
    document.outer = Some(outer);
    document.barrier = Some(border);
    document.paths = paths;
    Ok(document)
}

/// The document of a best answer that paths prove, if its offsets are those of paths, and both sets
/// ascend.
fn by_paths(
    alloc: Global,
    kind: Kind,
    m: usize,
    parts: &Parts<'_>,
) -> Result<Option<Document>, OutOfMemory>
    requires proof { proof_of kind ≡ OuterPaths }
    requires answer { IsAnswerOn (form_of kind) m parts.now.answer.now }
    requires head { length parts.now.head.now ≡ 8 }
    requires status { number_at parts.now.head.now 0 ≡ pos 1 }
    ensures kind { IfOk result (λ o. IfSome o (λ d. d.kind ≡ kind)) }
    ensures counts { IfOk result (λ o. IfSome o (λ d. All (IsCountOn m) d.counts)) }
    ensures found { IfOk result (IsFound kind m (sheet_of parts.now)) }
{
    if !is_ascending(parts.leads) {
        return Ok(None);
    }
    if !is_ascending(parts.excluding) {
        return Ok(None);
    }
    let Some(paths) = path_lines(alloc, parts)? else {
        return Ok(None);
    };
    Ok(Some(greatest(alloc, kind, parts, paths)?))
}

/// The document of a best answer, where its counts are some.
fn best(
    alloc: Global,
    kind: Kind,
    m: usize,
    parts: &Parts<'_>,
) -> Result<Option<Document>, OutOfMemory>
    requires head { length parts.now.head.now ≡ 8 }
    requires status { number_at parts.now.head.now 0 ≡ pos 1 }
    ensures kind { IfOk result (λ o. IfSome o (λ d. d.kind ≡ kind)) }
    ensures counts { IfOk result (λ o. IfSome o (λ d. All (IsCountOn m) d.counts)) }
    ensures found { IfOk result (IsFound kind m (sheet_of parts.now)) }
{
    if !is_answer(kind.form(), parts.answer, m) {
        return Ok(None);
    }
    match kind.proof() {
        BestProof::Duals(_) => by_duals(alloc, kind, m, parts),
        BestProof::LighterBarrier => by_barrier(alloc, kind, m, parts),
        BestProof::OuterPaths => by_paths(alloc, kind, m, parts),
    }
}

/// The document of the parts of numbers on `m` edges, if there is one. Whether the numbers are its
/// own is for the caller to compare.
pub fn document_of(
    alloc: Global,
    kind: Kind,
    m: usize,
    parts: &Parts<'_>,
) -> Result<Option<Document>, OutOfMemory>
    requires head { length parts.now.head.now ≡ 8 }
    ensures kind { IfOk result (λ o. IfSome o (λ d. d.kind ≡ kind)) }
    ensures counts { IfOk result (λ o. IfSome o (λ d. All (IsCountOn m) d.counts)) }
    ensures found { IfOk result (IsFound kind m (sheet_of parts.now)) }
{
    match parts.head[0] {
        1 => best(alloc, kind, m, parts),
        2 => infeasible(alloc, kind, parts),
        3 => nonconservative(alloc, kind, parts),
        _ => Ok(None),
    }
}
