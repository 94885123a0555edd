ghost use Rattle.certificates.specs.Laws.{ProvedIsTrue};

/// It does nothing. Its contract holds what certificates rest on: what a document proves is true of
/// the instance (Schrijver, Combinatorial Optimization A, chapters 24 to 26 and 29), where the
/// certificate graph is one and each feasible answer has its perfect matching there, as `certified`
/// says.
pub fn laws()
    // What a document proves is true of its instance, if each feasible answer has its perfect
    // matching in the certificate graph.
    ensures proved { ProvedIsTrue }
{
    gallai_theory::laws();
}
