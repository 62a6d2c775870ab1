//! How a member is found by the docket's name.
ghost use Rattle.std.specs.Prelude.{◌≡◌, if◌then◌else◌, IfOk, List, None, OnOk, Some, bytes_eq, ℕ};
ghost use Rattle.std.specs.Option.{option_or};
ghost use Rattle.reasons_text.specs.Keys.{first_named};
ghost use Rattle.reasons_text.specs.Naming.{member_count as member_count_in};
ghost use Rattle.reasons_text.specs.Numbers.{AreNumbers, AreNumbersOf, number_in};

use crate::side::{Side, docket_name, member_count};
use docket::Docket;
use std::alloc::{AllocError, Global};
use std::collections::HashMap;
use std::hash::RandomState;

// For each name of a docket, the number of the first member of a side with this name. The names are hashed with
// random keys, as in a docket.
type Numbers<'a> = HashMap<&'a [u8], u32, RandomState>;

/// For both sides of a docket, the number of the first member with each name.
#[derive(Drop)]
pub(crate) struct MemberNumbers<'a> {
    /// The docket.
    pub(crate) docket: &'a Docket,
    residents: Numbers<'a>,
    programmes: Numbers<'a>,
}

// The number of the member with this name, if there is such a member.
fn number_at(numbers: &Numbers, name: &[u8]) -> Option<u32>
    ensures { result ≡ number_in numbers.now name.now }
{
    numbers.get(name).copied()
}

// Sets the number for this name, unless the name already has a number.
fn put_first<'a>(numbers: &mut Numbers<'a>, name: &'a [u8], number: u32) -> Result<(), AllocError>
    ensures { OnOk result ((text : List ℕ) → number_in numbers.new text ≡ option_or
        (number_in numbers.old text) (if bytes_eq text name.entry.now then Some number else None)) }
{
    if number_at(numbers, name).is_some() {
        return Ok(());
    }
    numbers.insert(name, number)?;
    Ok(())
}

// For each name on one side of a docket, the number of the first member with this name.
fn numbers_of<'a>(
    alloc: Global,
    hash_keys: RandomState,
    docket: &'a Docket,
    side: Side,
) -> Result<Numbers<'a>, AllocError>
    ensures { IfOk result (AreNumbersOf docket.entry.now side) }
{
    let mut numbers = HashMap::with_hasher(alloc, hash_keys);
    for number in 0..member_count(docket, side) {
        let name = docket_name(docket, side, number).as_bytes();
        put_first(&mut numbers, name, number)?;
    }
    Ok(numbers)
}

impl<'a> MemberNumbers<'a> {
    /// For each name on both sides of a docket, the number of the first member with this name.
    pub(crate) fn of(
        alloc: Global,
        hash_keys: RandomState,
        docket: &'a Docket,
    ) -> Result<MemberNumbers<'a>, AllocError>
        ensures numbers { IfOk result AreNumbers }
        ensures docket { IfOk result (λ numbers. numbers.docket.now ≡ docket.entry.now) }
    {
        Ok(MemberNumbers {
            docket,
            residents: numbers_of(alloc, hash_keys, docket, Side::Residents)?,
            programmes: numbers_of(alloc, hash_keys, docket, Side::Programmes)?,
        })
    }

    /// The number of the first member of this side whose name in the docket is this name.
    pub(crate) fn number(&self, side: Side, name: &[u8]) -> Option<u32>
        requires { AreNumbers self.now }
        ensures { result ≡ first_named self.now.docket.now side name.now
            (member_count_in self.now.docket.now side) }
    {
        let numbers = match side {
            Side::Programmes => &self.programmes,
            Side::Residents => &self.residents,
        };
        number_at(numbers, name)
    }
}
