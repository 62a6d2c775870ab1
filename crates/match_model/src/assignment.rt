//! Which resident is matched with which programme.
ghost use Rattle.std.specs.Prelude.{◌≡◌, ℕ, ◌<◌, ◌^◌, Option, None, List, length, replicate, vec_len, IfOk, IsOkUnless, slice_set};
ghost use Rattle.match_model.specs.Placement.{programme_of};

use crate::fault::ModelFault;
use crate::member::{ProgrammeNo, ResidentNo};
use std::alloc::Global;
use std::marker::Model;

/// For each resident the programme with which the resident is matched, or none.
#[derive(Debug, Drop)]
pub struct Assignment {
    places: Vec<Option<ProgrammeNo>>,
}

impl Model for Assignment {
    ghost Value = { List (Option ℕ) };

    ghost view = { λ a. a.places.items };

    ghost invariant = { λ a. length a.places.items < 2 ^ 32 };
}

impl Assignment {
    /// An assignment that matches nobody. The only error is `Memory`.
    pub fn new(alloc: Global, residents: u32) -> Result<Assignment, ModelFault>
        ensures nobody { IfOk result (λ a. a ≡ replicate residents None) }
        ensures err { IsOkUnless result ModelFault.Memory }
    {
        Ok(Assignment {
            places: vec![in alloc; None; residents as usize]?,
        })
    }

    /// The number of residents.
    pub fn len(&self) -> u32
        ensures { result ≡ length self.now }
    {
        self.places.len() as u32
    }

    /// The programme of a resident, or none. The resident is below `len`.
    pub fn get(&self, resident: ResidentNo) -> Option<ProgrammeNo>
        requires { resident < length self.now }
        ensures { result ≡ programme_of self.now resident }
    {
        let place = resident.0 as usize;
        self.places[place]
    }

    /// Gives a resident a programme, or none. The resident is below `len`.
    pub fn set(&mut self, resident: ResidentNo, programme: Option<ProgrammeNo>)
        requires { resident < length self.old }
        ensures { self.new ≡ slice_set self.old resident programme }
    {
        self.places[resident.0 as usize] = programme;
    }
}
