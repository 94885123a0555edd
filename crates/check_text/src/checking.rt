ghost use Rattle.std.specs.Prelude.{◌≡◌, ℕ, ◌+◌, ◌<◌, ◌≤◌, ◌^◌, List, length, IfOk};
ghost use Rattle.graph_theory.specs.Limits.{IsWithinLimits};
ghost use Rattle.mb_problem.specs.Size.{size_of};
ghost use Rattle.mb_problem.specs.Ready.{IsReady};
ghost use Rattle.dimacs_read.specs.Reading.{Reads};
ghost use Rattle.doc_format.specs.Reading.{Reads as ReadsDocument};
ghost use Rattle.check_text.specs.Answers.{Decides};
ghost use Rattle.check_text.specs.Checking.{DecidesDocument, DecidesRest, DecidesInstance};

use crate::output::Output;
use crate::refusal::{malformed, too_large};
use crate::verdict::{judged, rejected};
use cert_check::{DocRule, judge};
use certificates::is_within_limits;
use dimacs_read::{InstanceError, Rest, read};
use doc_format::{DocError, Document};
use mb_base::OutOfMemory;
use mb_problem::{Instance, Kind, gadget_size};
use std::alloc::{AllocError, Global};

/// The answer to a document of an instance.
fn check_document(
    alloc: Global,
    kind: Kind,
    instance: &Instance,
    document: &Document,
) -> Result<Output, OutOfMemory>
    requires limits { IsWithinLimits (size_of kind instance.now) }
    requires well_formed { IsReady kind instance.now }
    ensures { IfOk result (DecidesDocument kind instance.now document.now) }
{
    let verdict = judge(alloc, instance, kind, document)?;
    judged(alloc, verdict)
}

/// The document in what follows an instance, whose bytes aren't kept.
fn read_document(alloc: Global, rest: Rest) -> Result<Document, DocError>
    requires low { 1 ≤ rest.line }
    requires high { rest.line ≤ 2 ^ 62 }
    ensures { ReadsDocument rest.line rest.bytes result }
{
    doc_format::read(alloc, rest.bytes.as_slice(), rest.line)
}

/// The answer to what follows an instance.
fn check_rest(
    alloc: Global,
    kind: Kind,
    instance: &Instance,
    rest: Rest,
) -> Result<Output, OutOfMemory>
    requires limits { IsWithinLimits (size_of kind instance.now) }
    requires well_formed { IsReady kind instance.now }
    requires low { 1 ≤ rest.line }
    requires high { rest.line ≤ 2 ^ 62 }
    ensures { IfOk result (DecidesRest kind instance.now rest.line rest.bytes) }
{
    match read_document(alloc, rest) {
        Ok(document) => {
            let reply = check_document(alloc, kind, instance, &document);
            drop(document);
            reply
        }
        Err(DocError::DocForm { line }) => rejected(alloc, DocRule::DocForm, line),
        Err(DocError::OutOfMemory) => Err(AllocError),
    }
}

/// The answer to an instance and what follows it: the size is tested first.
fn check_instance(
    alloc: Global,
    kind: Kind,
    instance: &Instance,
    rest: Rest,
) -> Result<Output, OutOfMemory>
    requires well_formed { IsReady kind instance.now }
    requires low { 1 ≤ rest.line }
    requires high { rest.line ≤ 2 ^ 62 }
    ensures { IfOk result (DecidesInstance kind instance.now rest.line rest.bytes) }
{
    let (vertices, edges) = gadget_size(instance, kind);
    if !is_within_limits(vertices, edges) {
        return too_large(alloc, vertices, edges);
    }
    check_rest(alloc, kind, instance, rest)
}

/// The answer to what was read of an input, whatever its bytes are.
fn check_parts(
    alloc: Global,
    kind: Kind,
    parts: Result<(Instance, Rest), InstanceError>,
) -> Result<Output, OutOfMemory>
    requires well_formed { IfOk parts (λ p. IsReady kind p.0) }
    requires lines { IfOk parts (λ p. (1 ≤ p.1.line) × (p.1.line ≤ 2 ^ 62)) }
    ensures { (bytes : List ℕ) → Reads kind bytes parts
        → IfOk result (λ a. Decides kind bytes a.text.items a.status) }
{
    match parts {
        Ok((instance, rest)) => {
            let reply = check_instance(alloc, kind, &instance, rest);
            drop(instance);
            reply
        }
        Err(InstanceError::Malformed { rule, line }) => malformed(alloc, rule, line),
        Err(InstanceError::OutOfMemory) => Err(AllocError),
    }
}

/// What `check` answers to bytes within its limit, an instance and a document: the first rule that
/// they break, and its line, or that the document is accepted, as it proves what it states of the
/// instance (Schrijver, Combinatorial Optimization, volume A, chapters 24 to 33).
///
/// # Errors
///
/// `OutOfMemory` if an allocation fails.
pub fn check(alloc: Global, kind: Kind, bytes: &[u8]) -> Result<Output, OutOfMemory>
    requires { length bytes.now ≤ 2 ^ 32 }

    // What `check` answers to an instance and a document, as text and status.
    ensures { IfOk result (λ a. Decides kind bytes.now a.text.items a.status) }
{
    let parts = read(alloc, bytes, kind);
    check_parts(alloc, kind, parts)
}

/// What `check` answers to an input within its limit that isn't kept: its bytes go before the
/// document is read. The answer is the one of `check`.
///
/// # Errors
///
/// `OutOfMemory` if an allocation fails.
pub fn check_input(alloc: Global, kind: Kind, input: Vec<u8>) -> Result<Output, OutOfMemory>
    requires { length input.items ≤ 2 ^ 32 }

    // What `check` answers to bytes.
    ensures { IfOk result (λ a. Decides kind input.items a.text.items a.status) }
{
    let parts = read(alloc, &input, kind);
    drop(input);
    check_parts(alloc, kind, parts)
}
