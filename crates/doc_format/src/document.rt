ghost use Rattle.std.specs.Prelude.{◌≡◌, Some};
ghost use Rattle.doc_format.specs.Form.{IsDocument};

use crate::head::Head;
use crate::line_writing::{put_duals, put_paths, put_sets, put_vertices};
use crate::part::{CountLine, DualLine, MemberLine, Part, PathLine, SetLine, WalkLine};
use crate::spelling::put_number_and_members;
use crate::status::DocStatus;
use mb_base::{OutOfMemory, Sequence};
use mb_problem::{BestProof, Kind};
use std::alloc::Global;

/// What a text claims of an instance, and the answer and certificate that it claims it by. Each
/// part keeps the number of its line; `line` is that of the first.
#[derive(Drop)]
pub struct Document {
    pub status: DocStatus,
    pub kind: Kind,
    /// The weight of the answer; 0 unless the status is `Optimal`.
    pub weight: i64,
    pub line: u64,
    /// How often each edge is used, edges ascending.
    pub counts: Sequence<CountLine>,
    /// The walk that is the answer, or a circuit of negative weight.
    pub walk: Option<WalkLine>,
    /// Duals of vertices, vertices ascending.
    pub duals: Sequence<DualLine>,
    /// Duals of sets.
    pub sets: Sequence<SetLine>,
    /// The vertices that some greatest matching misses, members ascending.
    pub outer: Option<MemberLine>,
    /// A barrier, or the neighbours of those; members ascending.
    pub barrier: Option<MemberLine>,
    /// Vertices that no edge leaves, with an odd number of T; members ascending.
    pub odd: Option<MemberLine>,
    /// Vertices that no edge leaves, with edges inside and outside; members ascending.
    pub split: Option<MemberLine>,
    /// Paths along the matching in turn to a vertex that it misses, vertices ascending.
    pub paths: Sequence<PathLine>,
    pub ghost form: { IsDocument status kind weight (record {
      counts = counts;
      walk = walk;
      duals = duals;
      sets = sets;
      outer = outer;
      barrier = barrier;
      odd = odd;
      split = split;
      paths = paths;
    }) },
}

/// Makes this the one line of its letter.
fn set_line(slot: &mut Option<MemberLine>, line: MemberLine)
    ensures { slot.new ≡ Some line }
{
    *slot = Some(line);
}

impl Document {
    ghost use Rattle.std.specs.Prelude.{◌∷◌, [], ◌++◌, true, OnOk, OnErr};
    ghost use Rattle.doc_format.specs.Form.{parts_of, at_most_one, blank, with_part, is_formed};
    ghost use Rattle.doc_format.specs.Parts.{certificate};
    ghost use Rattle.doc_format.specs.Rows.{IsTabled};
    ghost use Rattle.doc_format.specs.Reading.{body_of, head_of, may_stand};
    ghost use Rattle.doc_format.specs.Spelling.{asked, parts_text};
    ghost use Rattle.mb_problem.specs.Kinds.{proof_of};

    /// A document of its first line alone.
    pub fn new(alloc: Global, head: Head) -> Document
        requires table { IsTabled head }
        ensures head { head_of result ≡ head }
        ensures body { body_of result ≡ blank }
    {
        Document {
            status: head.status,
            kind: head.kind,
            weight: head.weight,
            line: head.line,
            counts: Sequence::new(alloc),
            walk: None,
            duals: Sequence::new(alloc),
            sets: Sequence::new(alloc),
            outer: None,
            barrier: None,
            odd: None,
            split: None,
            paths: Sequence::new(alloc),
        }
    }

    /// Puts a part at the end of the document.
    pub fn add(&mut self, part: Part) -> Result<(), OutOfMemory>
        requires order { may_stand (head_of self.old) (parts_of (body_of self.old)) part ≡ true }
        requires form { is_formed part ≡ true }
        ensures head { OnOk result (head_of self.new ≡ head_of self.old) }
        ensures body { OnOk result (body_of self.new ≡ with_part (body_of self.old) part) }
        ensures parts { OnOk result
            (parts_of (body_of self.new) ≡ parts_of (body_of self.old) ++ part ∷ []) }
        ensures unchanged { OnErr result (self.new ≡ self.old) }
    {
        match part {
            Part::Count(x) => return self.counts.push(x),
            Part::Walk(w) => self.walk = Some(w),
            Part::Dual(y) => return self.duals.push(y),
            Part::Set(z) => return self.sets.push(z),
            Part::Outer(d) => set_line(&mut self.outer, d),
            Part::Barrier(u) => set_line(&mut self.barrier, u),
            Part::Odd(t) => set_line(&mut self.odd, t),
            Part::Split(q) => set_line(&mut self.split, q),
            Part::Even(r) => return self.paths.push(r),
        }
        Ok(())
    }

    /// The line of a walk.
    pub(crate) fn put_walk(&self, out: &mut Vec<u8>) -> Result<(), OutOfMemory>
        ensures { OnOk result (out.new.items ≡ out.old.items
            ++ parts_text (at_most_one Part.Walk self.now.walk)) }
    {
        match &self.walk {
            Some(w) => put_number_and_members(out, b'w', w.start, w.edges.as_slice()),
            None => Ok(()),
        }
    }

    /// The line of outer vertices.
    fn put_outer(&self, out: &mut Vec<u8>) -> Result<(), OutOfMemory>
        ensures { OnOk result (out.new.items ≡ out.old.items
            ++ parts_text (at_most_one Part.Outer self.now.outer)) }
    {
        put_vertices(out, b'd', &self.outer)
    }

    /// The line of a barrier.
    fn put_barrier(&self, out: &mut Vec<u8>) -> Result<(), OutOfMemory>
        ensures { OnOk result (out.new.items ≡ out.old.items
            ++ parts_text (at_most_one Part.Barrier self.now.barrier)) }
    {
        put_vertices(out, b'u', &self.barrier)
    }

    /// The line of an odd part.
    fn put_odd(&self, out: &mut Vec<u8>) -> Result<(), OutOfMemory>
        ensures { OnOk result (out.new.items ≡ out.old.items
            ++ parts_text (at_most_one Part.Odd self.now.odd)) }
    {
        put_vertices(out, b't', &self.odd)
    }

    /// The line of a split part.
    fn put_split(&self, out: &mut Vec<u8>) -> Result<(), OutOfMemory>
        ensures { OnOk result (out.new.items ≡ out.old.items
            ++ parts_text (at_most_one Part.Split self.now.split)) }
    {
        put_vertices(out, b'q', &self.split)
    }

    /// The line of a walk, and those of the sets that are asked for beside an answer.
    pub(crate) fn put_asked(&self, out: &mut Vec<u8>) -> Result<(), OutOfMemory>
        ensures { OnOk result (out.new.items ≡ out.old.items
            ++ parts_text (asked (proof_of self.now.kind) (body_of self.now))) }
    {
        self.put_walk(out)?;
        match self.kind.proof() {
            BestProof::Duals(_) => Ok(()),
            BestProof::LighterBarrier => Ok(()),
            BestProof::OuterPaths => {
                self.put_outer(out)?;
                self.put_barrier(out)
            }
        }
    }

    /// All lines behind the answer: duals, sets of vertices and paths.
    pub(crate) fn put_certificate(&self, out: &mut Vec<u8>) -> Result<(), OutOfMemory>
        ensures { OnOk result (out.new.items ≡ out.old.items
            ++ parts_text (certificate (body_of self.now))) }
    {
        put_duals(out, self.duals.as_slice())?;
        put_sets(out, self.sets.as_slice())?;
        self.put_outer(out)?;
        self.put_barrier(out)?;
        self.put_odd(out)?;
        self.put_split(out)?;
        put_paths(out, self.paths.as_slice())
    }
}
