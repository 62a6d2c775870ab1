//! The law of receipts, the contract of a function without parameters.
ghost use Rattle.receipt_check.specs.Good.{GoodLaw};

/// The check finds nothing wrong with a receipt exactly if it is a good receipt.
pub fn law_good_receipt()
    ensures { GoodLaw }
{}
