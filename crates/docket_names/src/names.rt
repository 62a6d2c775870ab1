//! The names of a docket's members, found by number.
ghost use Rattle.std.specs.Prelude.{◌≡◌, ◌<◌, Some, length, slice_get};
ghost use Rattle.docket_names.specs.Texts.{texts_at, AreNames};

use crate::members::Members;
use crate::texts::Texts;
use std::marker::Model;
use std::str;

/// The names of the members of both sides. A name is stored as the number of its text among the docket's different
/// texts.
pub struct Names {
    texts: Texts,
    programmes: Members,
    residents: Members,
}

impl Model for Names {
    ghost use Rattle.docket_names.specs.Texts.{NamesBySide};
    ghost use Rattle.docket_names.specs.Texts.{texts_at, AreNames};

    ghost Value = { NamesBySide };

    ghost view = { λ a. record {
      programmes = texts_at a.texts a.programmes;
      residents = texts_at a.texts a.residents;
    } };

    ghost invariant = { λ a. AreNames a.texts a.programmes (texts_at a.texts a.programmes)
        × AreNames a.texts a.residents (texts_at a.texts a.residents) };
}

// One function drops all names: callers prove nothing about their parts.
impl Drop for Names {
    fn drop(self) {
        let Names {
            texts: _,
            programmes: _,
            residents: _,
        } = self;
    }
}

// The name of the member with this number.
fn name_of<'a>(texts: &'a Texts, members: &Members, number: usize) -> &'a str
    requires names { AreNames texts.now members.now (texts_at texts.now members.now) }
    requires member { number < length members.now }
    ensures { slice_get (texts_at texts.now members.now) number ≡ Some result.now }
{
    match str::from_utf8(texts.text(members.text(number))) {
        Ok(text) => text,
        Err(_) => unreachable!("a name is ASCII"),
    }
}

impl Names {
    /// The names of these programmes and residents, among these texts.
    pub fn new(texts: Texts, programmes: Members, residents: Members) -> Names
        requires programmes { AreNames texts programmes (texts_at texts programmes) }
        requires residents { AreNames texts residents (texts_at texts residents) }
        ensures programmes { result.programmes ≡ texts_at texts programmes }
        ensures residents { result.residents ≡ texts_at texts residents }
    {
        Names {
            texts,
            programmes,
            residents,
        }
    }

    /// The name of the programme with this number.
    pub fn programme_name(&self, number: usize) -> &str
        requires { number < length self.now.programmes }
        ensures { slice_get self.now.programmes number ≡ Some result.now }
    {
        name_of(&self.texts, &self.programmes, number)
    }

    /// The name of the resident with this number.
    pub fn resident_name(&self, number: usize) -> &str
        requires { number < length self.now.residents }
        ensures { slice_get self.now.residents number ≡ Some result.now }
    {
        name_of(&self.texts, &self.residents, number)
    }
}
