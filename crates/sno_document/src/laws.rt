//! Laws of the definitions. The functions do nothing; each contract is the law.
ghost use Rattle.sno_document.specs.Laws.{OneResult};

/// Bytes are one document, or are not a document and have one first fault.
#[tactic(auto, using(crate::proofs::DocumentLaw::one_result))]
pub fn one_result()
    ensures { OneResult }
{}
