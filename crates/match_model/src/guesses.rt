//! Tables of guesses, and walks for a wrong guess.
ghost use Rattle.std.specs.Prelude.{◌≡◌, ◌≤◌, ◌^◌, length};
ghost use Rattle.match_model.specs.Instance.{rank};

use crate::member::{ProgrammeNo, ResidentNo};

/// Notes the low 32 bits of a guess at this index, if the table has the index.
#[inline(always)]
pub(crate) fn note_guess(guesses: &mut [u32], index: usize, guess: usize) {
    if let Some(entry) = guesses.get_mut(index) {
        *entry = (guess % 4_294_967_296) as u32;
    }
}

/// The guess at this index, or 0 if the table does not have the index.
#[inline(always)]
pub(crate) fn guess_at(guesses: &[u32], index: usize) -> u32 {
    guesses.get(index).copied().unwrap_or(0)
}

/// The rank of a programme in a list, if it is listed, by a walk along the list.
#[inline(always)]
pub(crate) fn rank_of_programme(list: &[ProgrammeNo], programme: ProgrammeNo) -> Option<u32>
    requires { length list.now ≤ 2 ^ 32 }
    ensures { result ≡ rank list.now programme }
{
    for i in 0..list.len() {
        if list[i] == programme {
            return Some(i as u32);
        }
    }
    None
}

/// The rank of a resident in a list, if the resident is listed, by a walk along the list.
pub(crate) fn rank_of_resident(list: &[ResidentNo], resident: ResidentNo) -> Option<u32>
    requires { length list.now ≤ 2 ^ 32 }
    ensures { result ≡ rank list.now resident }
{
    for i in 0..list.len() {
        if list[i] == resident {
            return Some(i as u32);
        }
    }
    None
}
