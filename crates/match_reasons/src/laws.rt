//! The laws of receipts that agree: what all members' receipts together show of a placement.

ghost use Rattle.match_reasons.specs.Pairs.{HonestLaw, PairsLaw, RoomLaw};

/// If each member's receipt is good and each pair's receipts agree, the placement in the receipts is
/// stable.
pub fn law_pairs()
    ensures { PairsLaw }
{}

/// If a placement is stable and each reason is the first answer that is true, all receipts are good, and
/// each pair's receipts agree.
pub fn law_honest()
    ensures { HonestLaw }
{}

/// If an answer `full` with a last rank fits a programme's good receipt, this last rank, counted from 1, is
/// at least the number of places.
pub fn law_room()
    ensures { RoomLaw }
{}
