//! Laws of the definitions. The functions do nothing; each contract is the law.
ghost use Rattle.sno_rewrite.specs.Serial.{HasSerial};

/// Each document has a serial run.
#[tactic(auto, using(crate::proofs::SerialLemmas::has_serial))]
pub fn each_document_has_a_serial_run()
    ensures { HasSerial }
{}
