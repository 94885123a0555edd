ghost use Rattle.doc_format.specs.Law.{ReadsBack};

/// The full text of a document whose numbers lie within the limit of numbers is read as the
/// document again, line numbers aside, wherever it begins.
pub fn reads_back()
    // The full text of a document reads back as the document.
    ensures { ReadsBack }
{}
