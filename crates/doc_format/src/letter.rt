ghost use Rattle.std.specs.Prelude.{◌≡◌, ◌∷◌, [], bytes_eq};
ghost use Rattle.doc_format.specs.Parts.{letter_named, rank, repeats};
ghost use Rattle.doc_format.specs.Parts.{answers, proves_best, excludes, is_circuit};

use mb_problem::{AnswerForm, BestProof, Obstruction};

/// A letter that lines after the first begin with, in the order in which they stand.
#[derive(Clone, Copy)]
pub enum Letter {
    /// `x`
    Count,
    /// `w`
    Walk,
    /// `y`
    Dual,
    /// `z`
    Set,
    /// `d`
    Outer,
    /// `u`
    Barrier,
    /// `t`
    Odd,
    /// `q`
    Split,
    /// `r`
    Even,
}

/// Whether a field is this byte alone.
fn is_byte(word: &[u8], byte: u8) -> bool
    ensures { result ≡ bytes_eq word.now (byte ∷ []) }
{
    word == [byte].as_slice()
}

impl Letter {
    /// The letter that a field is, if it is one.
    pub fn named(word: &[u8]) -> Option<Letter>
        ensures { result ≡ letter_named word.now }
    {
        if is_byte(word, b'x') {
            return Some(Letter::Count);
        }
        if is_byte(word, b'w') {
            return Some(Letter::Walk);
        }
        if is_byte(word, b'y') {
            return Some(Letter::Dual);
        }
        if is_byte(word, b'z') {
            return Some(Letter::Set);
        }
        if is_byte(word, b'd') {
            return Some(Letter::Outer);
        }
        if is_byte(word, b'u') {
            return Some(Letter::Barrier);
        }
        if is_byte(word, b't') {
            return Some(Letter::Odd);
        }
        if is_byte(word, b'q') {
            return Some(Letter::Split);
        }
        if is_byte(word, b'r') {
            return Some(Letter::Even);
        }
        None
    }

    /// The letter's place in the order of lines.
    pub fn rank(self) -> u8
        ensures { result ≡ rank self }
    {
        match self {
            Letter::Count => 1,
            Letter::Walk => 2,
            Letter::Dual => 3,
            Letter::Set => 4,
            Letter::Outer => 5,
            Letter::Barrier => 6,
            Letter::Odd => 7,
            Letter::Split => 8,
            Letter::Even => 9,
        }
    }

    /// Whether any number of its lines may follow one another.
    pub fn repeats(self) -> bool
        ensures { result ≡ repeats self }
    {
        match self {
            Letter::Count => false,
            Letter::Walk => false,
            Letter::Dual => false,
            Letter::Set => true,
            Letter::Outer => false,
            Letter::Barrier => false,
            Letter::Odd => false,
            Letter::Split => false,
            Letter::Even => false,
        }
    }

    /// Whether an answer of this form has the letter.
    pub fn answers(self, form: AnswerForm) -> bool
        ensures { result ≡ answers self form }
    {
        match self {
            Letter::Count => form == AnswerForm::Counts,
            Letter::Walk => form == AnswerForm::Walk,
            Letter::Dual => false,
            Letter::Set => false,
            Letter::Outer => false,
            Letter::Barrier => false,
            Letter::Odd => false,
            Letter::Split => false,
            Letter::Even => false,
        }
    }

    /// Whether what proves an answer best in this way has the letter.
    pub fn proves_best(self, proof: BestProof) -> bool
        ensures { result ≡ proves_best self proof }
    {
        let by_duals = proof.are_duals();
        let by_paths = proof == BestProof::OuterPaths;
        match self {
            Letter::Count => false,
            Letter::Walk => false,
            Letter::Dual => by_duals,
            Letter::Set => by_duals,
            Letter::Outer => by_paths,
            Letter::Barrier => !by_duals,
            Letter::Odd => false,
            Letter::Split => false,
            Letter::Even => by_paths,
        }
    }

    /// Whether what excludes all answers in this way has the letter.
    pub fn excludes(self, obstruction: Obstruction) -> bool
        ensures { result ≡ excludes self obstruction }
    {
        match self {
            Letter::Count => false,
            Letter::Walk => false,
            Letter::Dual => false,
            Letter::Set => false,
            Letter::Outer => false,
            Letter::Barrier => obstruction == Obstruction::Barrier,
            Letter::Odd => obstruction == Obstruction::OddPart,
            Letter::Split => obstruction == Obstruction::SplitPart,
            Letter::Even => false,
        }
    }

    /// Whether a circuit that weighs less than 0 has the letter.
    pub fn is_circuit(self) -> bool
        ensures { result ≡ is_circuit self }
    {
        match self {
            Letter::Count => false,
            Letter::Walk => true,
            Letter::Dual => false,
            Letter::Set => false,
            Letter::Outer => false,
            Letter::Barrier => false,
            Letter::Odd => false,
            Letter::Split => false,
            Letter::Even => false,
        }
    }
}
