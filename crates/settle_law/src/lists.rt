//! Laws about every legal list of events, whatever the order of its events.

ghost use Rattle.settle_law.specs.ListLaws.{OrderlyLaw, BoundLaw, NoJamLaw, ClosesLaw};

/// Every legal list of events is orderly, and so are its beginnings. In an orderly list offers go down the rankings.
/// Takes and hears follow what was sent, and answers follow what was due. No programme has more offers out than its
/// quota, and no event follows a close.
pub fn law_orderly()
    ensures { OrderlyLaw }
{}

/// A legal list of events has at most six events for each acceptable pair, and one close.
pub fn law_bound()
    ensures { BoundLaw }
{}

/// After a legal list of events that is not closed, some event may follow, for every valid capacity. So no exchange
/// gets stuck.
pub fn law_no_jam()
    ensures { NoJamLaw }
{}

/// Every legal list of events can be continued to a closed list, whichever events came first, for every valid capacity.
pub fn law_closes()
    ensures { ClosesLaw }
{}
