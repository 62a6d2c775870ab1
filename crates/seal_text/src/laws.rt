//! The laws of receipts and of texts, each the contract of a function without parameters.

ghost use Rattle.seal_text.specs.Laws.{SameTextsLaw, ReceiptOpensLaw};

/// The opening that a receipt has of a member's leaf climbs from that leaf to the root that the receipt names.
pub fn law_receipt_opens()
    ensures { ReceiptOpensLaw }
{}

/// Two dockets with the same number of programmes, whose members' texts before the match are the same, have the same
/// members: each has the same name, quota, list, withdrawal and real name in both.
pub fn law_same_texts()
    ensures { SameTextsLaw }
{}
