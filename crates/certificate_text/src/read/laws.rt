//! Laws of texts.
ghost use Rattle.certificate_text.specs.read.Laws.{TextsAreTold};

use crate::laws::lead_to_certificates;

/// A text is that of a certificate in range, or has a fault.
pub fn texts_are_told()
    ensures told { TextsAreTold }
{
    lead_to_certificates();
}
