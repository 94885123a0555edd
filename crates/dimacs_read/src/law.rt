ghost use Rattle.dimacs_read.specs.Law.{EachIsRead, OneFault, NoInstanceAndFault, OneInstance};
ghost use Rattle.dimacs_read.specs.Law.{OneRest};

/// The lines of a text have exactly one reading for each kind: one instance or one first fault.
/// What follows the instance in a text is one too.
pub fn one_reading()
    // A text is one instance or has one first fault: exactly one of the two, and only one.
    ensures read { EachIsRead }
    ensures fault { OneFault }
    ensures instance { OneInstance }
    ensures apart { NoInstanceAndFault }
    ensures rest { OneRest }
{}
