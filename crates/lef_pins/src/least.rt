//! The least places of faults.
ghost use Rattle.std.specs.Prelude.{◌≡◌};
ghost use Rattle.lef_pins.specs.Reading.{with_syntax, with_number, with_twice};

use list_laws::{found_if, lesser_place};

/// The least place of each kind of fault so far.
#[derive(Clone, Copy)]
pub(crate) struct Least {
    pub(crate) syntax: Option<u32>,
    pub(crate) number: Option<u32>,
    pub(crate) twice: Option<u32>,
}

impl Least {
    /// With a statement of no form or an open block, where it is one.
    #[tactic(auto, unfolding(crate::specs::Reading::with_syntax))]
    pub(crate) fn with_syntax(self, bad: bool, place: u32) -> Least
        ensures value { result ≡ with_syntax self bad place }
    {
        Least {
            syntax: lesser_place(self.syntax, found_if(bad, place)),
            number: self.number,
            twice: self.twice,
        }
    }

    /// With a statement that has a number without a value, where it is one.
    #[tactic(auto, unfolding(crate::specs::Reading::with_number))]
    pub(crate) fn with_number(self, far: bool, place: u32) -> Least
        ensures value { result ≡ with_number self far place }
    {
        Least {
            syntax: self.syntax,
            number: lesser_place(self.number, found_if(far, place)),
            twice: self.twice,
        }
    }

    /// With a name that stood before, where it is one.
    #[tactic(auto, unfolding(crate::specs::Reading::with_twice))]
    pub(crate) fn with_twice(self, again: bool, place: u32) -> Least
        ensures value { result ≡ with_twice self again place }
    {
        Least {
            syntax: self.syntax,
            number: self.number,
            twice: lesser_place(self.twice, found_if(again, place)),
        }
    }
}
