//! Laws of texts. The functions do nothing: the contract is the law.
ghost use Rattle.refined_text.specs.read.Laws.{RefinedTextsAreTold};

/// A text is that of a certificate by refined price lists in range, or has a fault.
pub fn refined_texts_are_told()
    ensures { RefinedTextsAreTold }
{}
