ghost use Rattle.std.specs.Prelude.{◌≡◌, bytes_eq};
ghost use Rattle.doc_format.specs.Status.{status_text, status_named};

/// What a document claims of an instance.
#[derive(Clone, Copy, PartialEq, Eq)]
pub enum DocStatus {
    /// The answer is a best one.
    Optimal,
    /// There is no answer.
    Infeasible,
    /// Some circuit weighs less than 0.
    NonConservative,
}

impl DocStatus {
    /// The word for the status.
    pub fn name(self) -> &'static [u8]
        ensures { result.now ≡ status_text self }
    {
        match self {
            DocStatus::Optimal => b"OPTIMAL",
            DocStatus::Infeasible => b"INFEASIBLE",
            DocStatus::NonConservative => b"NONCONSERVATIVE",
        }
    }

    /// Whether this is the word for the status.
    fn is_named(self, name: &[u8]) -> bool
        ensures { result ≡ bytes_eq name.now (status_text self) }
    {
        name == self.name()
    }

    /// The status that a word names, if it names one.
    pub fn named(name: &[u8]) -> Option<DocStatus>
        ensures { result ≡ status_named name.now }
    {
        if DocStatus::Optimal.is_named(name) {
            return Some(DocStatus::Optimal);
        }
        if DocStatus::Infeasible.is_named(name) {
            return Some(DocStatus::Infeasible);
        }
        if DocStatus::NonConservative.is_named(name) {
            return Some(DocStatus::NonConservative);
        }
        None
    }
}
