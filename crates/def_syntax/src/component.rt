//! The statements of COMPONENTS.
ghost use Rattle.std.specs.Prelude.{◌≡◌, false, Option, Some, None};
ghost use Rattle.token_forms.specs.Laws.{IsStatement};
ghost use Rattle.def_syntax.specs.OptionForms.{component_option};
ghost use Rattle.def_syntax.specs.Grammar.{component};
ghost use Rattle.def_syntax.specs.Pieces.{put_component};

use crate::kinds::{InComponents, Name};
use crate::options::unread;
use crate::placement::Placement;
use base_types::Stop;
use token_forms::{Gather, Parser, Read, Statement, TokenText};

/// `- name cell option .. ;`: a component, and its place where the first option that speaks of it gives one: `PLACED`, `FIXED`
/// and `COVER` do, and `UNPLACED` says that there is none.
#[derive(Drop)]
pub struct Component<'a> {
    pub name: TokenText<'a>,
    pub cell: TokenText<'a>,
    pub place: Option<Placement<'a>>,
}

/// An option of a component.
#[derive(Drop)]
pub(crate) enum ComponentOption<'a> {
    Placed(Placement<'a>),
    Unplaced,
    /// One that isn't read.
    Other,
}

/// A component as far as its options are read, with its place once that is decided.
#[derive(Drop)]
pub(crate) struct SoFar<'a> {
    name: TokenText<'a>,
    cell: TokenText<'a>,
    place: Option<Option<Placement<'a>>>,
}

impl<'a> Read<'a> for ComponentOption<'a> {
    ghost form = { component_option false };

    #[tactic(auto, unfolding(crate::specs::OptionForms::component_option))]
    fn begins(parser: &Parser<'a, '_>) -> bool {
        parser.begins_word(b"+")
    }

    #[tactic(auto, unfolding(crate::specs::OptionForms::component_option))]
    fn read(parser: &mut Parser<'a, '_>) -> Result<ComponentOption<'a>, Stop> {
        parser.word(b"+")?;
        if Placement::begins(parser) {
            return Ok(ComponentOption::Placed(Placement::read(parser)?));
        }
        if parser.begins_word(b"UNPLACED") {
            parser.word(b"UNPLACED")?;
            return Ok(ComponentOption::Unplaced);
        }
        unread::<InComponents>(parser)?;
        Ok(ComponentOption::Other)
    }
}

impl<'a> Gather<ComponentOption<'a>> for SoFar<'a> {
    ghost put = { put_component };

    fn add(mut self, piece: ComponentOption<'a>) -> Result<SoFar<'a>, Stop> {
        match piece {
            ComponentOption::Placed(place) if self.place.is_none() => self.place = Some(Some(
                place,
            )),
            ComponentOption::Unplaced if self.place.is_none() => self.place = Some(None),
            _ => {}
        }
        Ok(self)
    }
}

impl<'a> Read<'a> for Component<'a> {
    ghost form = { component };

    #[tactic(auto, unfolding(crate::specs::Grammar::component, crate::specs::OptionForms::component_form))]
    fn begins(parser: &Parser<'a, '_>) -> bool {
        parser.begins_word(b"-")
    }

    #[tactic(auto, unfolding(crate::specs::Grammar::component, crate::specs::OptionForms::component_form))]
    fn read(parser: &mut Parser<'a, '_>) -> Result<Component<'a>, Stop> {
        parser.word(b"-")?;
        let name = parser.text::<Name>()?;
        let cell = parser.text::<Name>()?;
        let read = parser.gather(SoFar {
            name,
            cell,
            place: None,
        })?;
        parser.word(b";")?;
        Ok(Component {
            name: read.name,
            cell: read.cell,
            place: read.place.unwrap_or(None),
        })
    }
}

impl<'a> Statement<'a> for Component<'a> {
    #[tactic(auto, using(crate::proofs::Lawful::component_statement))]
    fn is_statement()
        ensures law { IsStatement component }
    {}
}
