//! The laws of what is sealed, and of receipts.

ghost use Rattle.receipt_theorem.specs.Laws.{AgreeingReceiptsLaw, GoodReceiptsLaw, OneSealingLaw, RootsLaw, SealedReceiptLaw};

use match_reasons::law_pairs;

/// The rows of roots that are written for some files are the roots of what is sealed from these
/// files.
pub fn law_published_roots()
    ensures { RootsLaw }
{}

/// The same files always give the same sealed texts. So receipts and roots that are written for the same files
/// belong together.
pub fn law_one_sealing()
    ensures { OneSealingLaw }
{}

/// Each receipt that is written is good under the published roots.
pub fn law_good_receipts()
    ensures { GoodReceiptsLaw }
{}

/// A receipt that passes the check under the published roots has the texts that were sealed for the member with
/// its number, and the right number of members. Or two lists of hashed bytes collide, and the law names them.
pub fn law_sealed_receipt()
    ensures { SealedReceiptLaw }
{}

/// Let each member's receipt be good under the root of the docket's lists and under one root of a result, and let the
/// receipts of each resident and each programme agree. Then the placement in the receipts is stable. Or two lists of
/// hashed bytes collide, and the law names them.
pub fn law_agreeing_receipts()
    ensures { AgreeingReceiptsLaw }
{
    law_pairs();
}
