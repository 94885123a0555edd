ghost use Rattle.std.specs.Prelude.{◌≡◌};
ghost use Rattle.solve_answers.specs.Details.{is_brief};

/// How much of an answer a document states.
#[derive(Clone, Copy)]
pub enum Detail {
    /// The answer with its certificate.
    Full,
    /// The answer without its certificate.
    Brief,
}

impl Detail {
    /// Whether the certificate is left out.
    pub fn is_brief(self) -> bool
        ensures brief { result ≡ is_brief self }
    {
        match self {
            Detail::Full => false,
            Detail::Brief => true,
        }
    }
}
