ghost use Rattle.std.specs.Prelude.{◌≡◌, ◌≤◌, [], ◌∷◌, length, pos, true, IfOk};
ghost use Rattle.solve_answers.specs.Details.{is_brief};
ghost use Rattle.solve_answers.specs.Settled.{SettlesFor};
ghost use Rattle.array_call.specs.Arrays.{arrays_of, edge_count, network_of};
ghost use Rattle.array_call.specs.Answers.{IsAnswerable, counted, fault_numbers, size_numbers};
ghost use Rattle.array_call.specs.Answers.{size_without_proof};
ghost use Rattle.array_call.specs.Answers.{Gives, GivesSize, IsBriefFor, CountsCall, CountsEnded};
ghost use Rattle.array_call.specs.Checks.{GivesVerdict};
ghost use Rattle.array_call.specs.Rules.{number_of_document_rule};

use crate::arrays::InstanceArrays;
use crate::checking::check_arrays;
use crate::error::ArrayError;
use crate::laying::numbers_of;
use crate::making::instance_of;
use crate::rule::ArrayFault;
use crate::solving::solve_for;
use cert_check::DocRule;
use doc_format::Document;
use mb_base::{OutOfMemory, Steps};
use mb_problem::{Kind, gadget_size};
use solve_answers::Detail;
use std::alloc::{AllocError, Global};
use std::sync::ledger::Ledger;

/// How a call over arrays ended.
#[derive(Clone, Copy)]
pub enum ArrayStatus {
    /// The numbers are the answer.
    Done,
    /// The answer doesn't prove what it states: the numbers are that of a rule, and 0.
    Rejected,
    /// The arrays are no instance: the numbers are those of the first rule that they break, and of
    /// the edge or vertex.
    Malformed,
    /// The certificate graph is past a limit: the numbers are its vertices and edges.
    TooLarge,
    /// There isn't enough memory, and there are no numbers.
    OutOfMemory,
}

/// What a call over arrays answers.
#[derive(Drop)]
pub struct ArrayAnswer {
    pub numbers: Vec<i64>,
    pub status: ArrayStatus,
}

fn pair(alloc: Global, one: i64, other: i64) -> Result<Vec<i64>, OutOfMemory>
    ensures { IfOk result (λ v. v.items ≡ one ∷ other ∷ []) }
{
    Vec::from_slice(alloc, &[one, other])
}

/// The answer to a fault.
fn malformed(alloc: Global, fault: ArrayFault) -> Result<ArrayAnswer, OutOfMemory>
    ensures numbers { IfOk result (λ a. a.numbers.items ≡ fault_numbers fault) }
    ensures status { IfOk result (λ a. a.status ≡ ArrayStatus.Malformed) }
{
    let numbers = pair(
        alloc,
        i64::from(fault.rule.number()),
        i64::from(fault.place),
    )?;
    let status = ArrayStatus::Malformed;
    Ok(ArrayAnswer { numbers, status })
}

/// A count as a number of 64 bits.
fn counted(count: u64) -> i64
    ensures { result ≡ counted count }
{
    count.min(i64::MAX as u64) as i64
}

/// The two numbers of a size.
fn sized(
    alloc: Global,
    vertices: u64,
    edges: u64,
    status: ArrayStatus,
) -> Result<ArrayAnswer, OutOfMemory>
    ensures numbers { IfOk result (λ a. a.numbers.items
        ≡ size_numbers (record { vertices = vertices; edges = edges })) }
    ensures status { IfOk result (λ a. a.status ≡ status) }
{
    let numbers = pair(alloc, counted(vertices), counted(edges))?;
    Ok(ArrayAnswer { numbers, status })
}

/// The answer that is a document, in full or in brief.
fn solved(
    alloc: Global,
    detail: Detail,
    kind: Kind,
    arrays: &InstanceArrays<'_>,
    document: &Document,
) -> Result<ArrayAnswer, OutOfMemory>
    requires answerable { IsAnswerable kind (arrays_of arrays.now) }
    requires settles { SettlesFor detail kind (network_of kind (arrays_of arrays.now))
        document.now }
    ensures { IfOk result (λ a. Gives detail kind (arrays_of arrays.now) a.numbers.items a.status) }
{
    let numbers = numbers_of(alloc, kind, arrays.from.len(), detail, document)?;
    let status = ArrayStatus::Done;
    Ok(ArrayAnswer { numbers, status })
}

/// What is answered to arrays, unless memory runs out.
fn answer<L: Ledger>(
    alloc: Global,
    detail: Detail,
    kind: Kind,
    arrays: &InstanceArrays<'_>,
    steps: &mut Steps<L>,
) -> Result<ArrayAnswer, OutOfMemory>
    ensures answer { IfOk result (λ a. Gives detail kind (arrays_of arrays.now) a.numbers.items
        a.status) }
    ensures steps { CountsEnded kind (arrays_of arrays.now) steps.old steps.new result }
{
    match solve_for(alloc, kind, detail, arrays, steps) {
        Ok(document) => {
            let answer = solved(alloc, detail, kind, arrays, &document);
            drop(document);
            answer
        }
        Err(ArrayError::Malformed(fault)) => malformed(alloc, fault),
        Err(ArrayError::TooLarge { vertices, edges }) => {
            sized(alloc, vertices, edges, ArrayStatus::TooLarge)
        }
        Err(ArrayError::OutOfMemory) => Err(AllocError),
    }
}

/// Solves the instance that arrays are for a kind, as `solve_arrays` does, and answers in numbers:
/// those of the document, in brief without what proves it, of the first fault, or of the size of a
/// graph past a limit. If there isn't enough memory the status is that, and there are no numbers.
pub fn answer_to<L: Ledger>(
    alloc: Global,
    detail: Detail,
    kind: Kind,
    arrays: &InstanceArrays<'_>,
    steps: &mut Steps<L>,
) -> ArrayAnswer
    // Such a document as numbers; a fault as the numbers of its rule and its index; a size as two
    // numbers.
    ensures answer { Gives detail kind (arrays_of arrays.now) result.numbers.items result.status }

    // Without certificate there are no duals, no sets and no members of an obstruction.
    ensures brief { IsBriefFor (is_brief detail) result.numbers.items result.status }

    // Without certificate there are at most 9 + 2m numbers for m edges, however the call ends.
    ensures room { is_brief detail ≡ true → length result.numbers.items
        ≤ size_without_proof (edge_count (arrays_of arrays.now)) }

    // Steps within the same bounds.
    ensures steps { CountsCall kind (arrays_of arrays.now) steps.old steps.new result.status }
{
    match answer(alloc, detail, kind, arrays, steps) {
        Ok(answer) => answer,
        Err(_) => ArrayAnswer {
            numbers: Vec::new(alloc),
            status: ArrayStatus::OutOfMemory,
        },
    }
}

/// What is answered to arrays whose size is asked for, unless memory runs out.
fn size(alloc: Global, kind: Kind, arrays: &InstanceArrays<'_>) -> Result<ArrayAnswer, OutOfMemory>
    ensures { IfOk result (λ a. GivesSize kind (arrays_of arrays.now) a.numbers.items a.status) }
{
    match instance_of(alloc, kind, arrays) {
        Ok(instance) => {
            let (vertices, edges) = gadget_size(&instance, kind);
            sized(alloc, vertices, edges, ArrayStatus::Done)
        }
        Err(ArrayError::Malformed(fault)) => malformed(alloc, fault),
        Err(_) => Err(AllocError),
    }
}

/// The vertices and edges of the certificate graph of arrays, also past a limit, or the first
/// fault. It takes time linear in vertices and edges.
pub fn size_to(alloc: Global, kind: Kind, arrays: &InstanceArrays<'_>) -> ArrayAnswer
    // The size of the certificate graph, also past the limits, or the first fault.
    ensures { GivesSize kind (arrays_of arrays.now) result.numbers.items result.status }
{
    match size(alloc, kind, arrays) {
        Ok(answer) => answer,
        Err(_) => ArrayAnswer {
            numbers: Vec::new(alloc),
            status: ArrayStatus::OutOfMemory,
        },
    }
}

/// The number of a rule of documents, by which C names it.
fn rule_number(rule: DocRule) -> i64
    ensures { result ≡ pos (number_of_document_rule rule) }
{
    match rule {
        DocRule::DocForm => 1,
        DocRule::KindDiffers => 2,
        DocRule::DocRange => 3,
        DocRule::NotFeasible => 4,
        DocRule::WeightDiffers => 5,
        DocRule::DualMissing => 6,
        DocRule::SetForm => 7,
        DocRule::Slack => 8,
        DocRule::ValueDiffers => 9,
        DocRule::NotBarrier => 10,
        DocRule::NotClosed => 11,
        DocRule::NotCircuit => 12,
        DocRule::PathForm => 13,
        DocRule::PathMissing => 14,
    }
}

/// The answer to numbers that are accepted.
fn accepted(alloc: Global) -> ArrayAnswer
    ensures numbers { result.numbers.items ≡ [] }
    ensures status { result.status ≡ ArrayStatus.Done }
{
    ArrayAnswer {
        numbers: Vec::new(alloc),
        status: ArrayStatus::Done,
    }
}

/// The answer to numbers that break a rule.
fn rejected(alloc: Global, rule: DocRule) -> Result<ArrayAnswer, OutOfMemory>
    ensures numbers { IfOk result (λ a. a.numbers.items
        ≡ pos (number_of_document_rule rule) ∷ pos 0 ∷ []) }
    ensures status { IfOk result (λ a. a.status ≡ ArrayStatus.Rejected) }
{
    let numbers = pair(alloc, rule_number(rule), 0)?;
    let status = ArrayStatus::Rejected;
    Ok(ArrayAnswer { numbers, status })
}

/// What is answered to the numbers of an answer, unless memory runs out.
fn verdict(
    alloc: Global,
    kind: Kind,
    arrays: &InstanceArrays<'_>,
    numbers: &[i64],
) -> Result<ArrayAnswer, OutOfMemory>
    ensures { IfOk result (λ a. GivesVerdict kind (arrays_of arrays.now) numbers.now
        a.numbers.items a.status) }
{
    match check_arrays(alloc, kind, arrays, numbers) {
        Ok(None) => Ok(accepted(alloc)),
        Ok(Some(rule)) => rejected(alloc, rule),
        Err(ArrayError::Malformed(fault)) => malformed(alloc, fault),
        Err(ArrayError::TooLarge { vertices, edges }) => {
            sized(alloc, vertices, edges, ArrayStatus::TooLarge)
        }
        Err(ArrayError::OutOfMemory) => Err(AllocError),
    }
}

/// Judges the numbers of an answer, in full, for the instance that arrays are, as `check_arrays`
/// does: no numbers where it is accepted, else the number of a rule, and as by `answer_to`.
pub fn check_to(
    alloc: Global,
    kind: Kind,
    arrays: &InstanceArrays<'_>,
    numbers: &[i64],
) -> ArrayAnswer
    // The same verdict in numbers.
    ensures { GivesVerdict kind (arrays_of arrays.now) numbers.now result.numbers.items
        result.status }
{
    match verdict(alloc, kind, arrays, numbers) {
        Ok(answer) => answer,
        Err(_) => ArrayAnswer {
            numbers: Vec::new(alloc),
            status: ArrayStatus::OutOfMemory,
        },
    }
}
