//! The members' names: those that answers show, and those that questions may use.
ghost use Rattle.std.specs.Prelude.{◌≡◌, ◌≤◌, length, IfOk};
ghost use Rattle.reasons_text.specs.Lines.{has_withdrawn};
ghost use Rattle.reasons_text.specs.Naming.{IsMeant, also_of, means, naming_of, names_in, shown, shown_programme, shown_resident, side_of};
ghost use Rattle.reasons_text.specs.Naming.{member_count as member_count_in};

use crate::key::{Key, SideKey, label_text, text_in};
use crate::side::{Side, docket_name, member_count};
use docket::Docket;
use match_model::{ProgrammeNo, ResidentNo};
use std::alloc::{AllocError, Global};

/// Which members a text means, by number.
#[derive(Clone, Copy, Debug, PartialEq, Eq)]
pub(crate) enum Meant {
    /// Nobody.
    Nobody,
    /// Exactly one member.
    One(usize),
    /// More than one member.
    Several,
}

/// The members' names as answers show them: the key's name of a member, or the docket's name if the key has none. If the
/// name also means another member, the label is shown.
#[derive(Clone, Copy)]
pub(crate) struct Names<'a> {
    pub(crate) docket: &'a Docket,
    pub(crate) key: &'a Key,
}

// Whom a text means if it means this member in addition to `meant`.
fn with_member(meant: Meant, number: usize) -> Meant
    ensures { result ≡ also_of meant number }
{
    match meant {
        Meant::Nobody => Meant::One(number),
        Meant::One(_) | Meant::Several => Meant::Several,
    }
}

impl Names<'_> {
    // The names that the key has for this side.
    fn side_key(&self, side: Side) -> &SideKey
        ensures { side_of result.now ≡ names_in (naming_of self.now) side }
    {
        match side {
            Side::Programmes => &self.key.programmes,
            Side::Residents => &self.key.residents,
        }
    }

    // The number of members on a side that may have names: those of the docket, and those whom only the key has.
    pub(crate) fn named_count(&self, side: Side) -> usize
        ensures members { member_count_in self.now.docket.now side ≤ result }
        ensures rows { length (names_in (naming_of self.now) side).names ≤ result }
    {
        let docket_member_count = member_count(self.docket, side) as usize;
        docket_member_count.max(self.side_key(side).names.len())
    }

    /// The name that is shown for a member, or an empty name for a number without a member.
    #[tactic(auto, unfolding(crate::specs::Naming::shown))]
    pub(crate) fn shown_name(&self, side: Side, number: u32) -> &str
        ensures { result.now ≡ shown (naming_of self.now) side number }
    {
        let side_key = self.side_key(side);
        let index = number as usize;
        if let Some(label) = text_in(side_key.labels.as_slice(), index) {
            return label;
        }
        match text_in(side_key.names.as_slice(), index) {
            Some(name) => name,
            None => docket_name(self.docket, side, number),
        }
    }

    /// The key's real name of a member, or the docket's name if the key has none.
    pub(crate) fn real_name(&self, side: Side, number: u32) -> &str {
        match text_in(self.side_key(side).names.as_slice(), number as usize) {
            Some(name) => name,
            None => docket_name(self.docket, side, number),
        }
    }

    /// The name that is shown for a resident.
    pub(crate) fn resident(&self, resident: ResidentNo) -> &str
        ensures { result.now ≡ shown_resident (naming_of self.now) resident }
    {
        self.shown_name(Side::Residents, resident.0)
    }

    /// The name that is shown for a programme.
    pub(crate) fn programme(&self, programme: ProgrammeNo) -> &str
        ensures { result.now ≡ shown_programme (naming_of self.now) programme }
    {
        self.shown_name(Side::Programmes, programme.0)
    }

    /// Whether a resident withdrew.
    pub(crate) fn resident_withdrew(&self, resident: ResidentNo) -> bool
        ensures { result ≡ has_withdrawn (naming_of self.now) resident }
    {
        let inst = self.docket.instance();
        resident.0 < inst.residents() && inst.resident_withdrawn(resident)
    }

    /// How a member is shown among members of the same name: by the label, or by the docket's name if the key has no
    /// row for the member.
    pub(crate) fn label(
        &self,
        alloc: Global,
        side: Side,
        number: usize,
    ) -> Result<String, AllocError> {
        let side_key = self.side_key(side);
        let Some(name) = text_in(side_key.names.as_slice(), number) else {
            return match u32::try_from(number) {
                Ok(number) => String::from_str(alloc, docket_name(self.docket, side, number)),
                Err(_) => Ok(String::new(alloc)),
            };
        };
        let sign = text_in(side_key.signs.as_slice(), number).unwrap_or("");
        label_text(alloc, name, sign)
    }

    /// Whether a text means a member: it is the member's name in the docket, its real name, its ID or its label.
    #[tactic(auto, unfolding(crate::specs::Naming::is_meant, crate::specs::Naming::is_by_key))]
    pub(crate) fn means(
        &self,
        alloc: Global,
        side: Side,
        text: &str,
        number: usize,
    ) -> Result<bool, AllocError>
        ensures { IfOk result (λ is_meant.
            is_meant ≡ means (naming_of self.now) side text.now number) }
    {
        let docket_member_count = member_count(self.docket, side) as usize;
        if number < docket_member_count && docket_name(self.docket, side, number as u32) == text {
            return Ok(true);
        }
        let side_key = self.side_key(side);
        let Some(name) = text_in(side_key.names.as_slice(), number) else {
            return Ok(false);
        };
        let sign = text_in(side_key.signs.as_slice(), number).unwrap_or("");
        if name == text || sign == text {
            return Ok(true);
        }
        let label = label_text(alloc, name, sign)?;
        Ok(label.as_str() == text)
    }

    /// Whom on this side a text means.
    pub(crate) fn meant(&self, alloc: Global, side: Side, text: &str) -> Result<Meant, AllocError>
        ensures { IfOk result (IsMeant (naming_of self.now) side text.now) }
    {
        let mut meant = Meant::Nobody;
        for number in 0..self.named_count(side) {
            if self.means(alloc, side, text, number)? {
                meant = with_member(meant, number);
            }
        }
        Ok(meant)
    }
}
