//! Components as COMPONENTS writes them.
ghost use Rattle.std.specs.Prelude.{◌≡◌, IfOk, option_map};
ghost use Rattle.std.specs.List.{find};
ghost use Rattle.std.specs.Str.{bytes_eq};
ghost use Rattle.def_edit.specs.Words.{component_word, unless_mark, end_word};

use base_types::{NoMemory, plain_name};
use def_reader::{Component, NamedRows};
use std::alloc::Global;
use std::marker::Model;

/// The components of a design. Contracts see these.
#[derive(Drop)]
pub(crate) struct Components<'d> {
    components: &'d NamedRows<Component>,
}

impl<'d> Model for Components<'d> {
    ghost use Rattle.std.specs.Prelude.{List};
    ghost use Rattle.def_reader.specs.declared.design.Component.{Component};

    ghost Value = { List Component };

    ghost view = { λ c. c.components.now };
}

/// A word, or another one where it would be read as more than a component: as `PIN` or `*`.
fn unless_mark<'w>(text: &'w [u8], word: &'w [u8]) -> &'w [u8]
    ensures value { result.now ≡ unless_mark text.now word.now }
{
    if text == b"PIN".as_slice() || text == b"*".as_slice() {
        word
    } else {
        text
    }
}

impl<'d> Components<'d> {
    /// The components of a design.
    pub(crate) fn of(components: &'d NamedRows<Component>) -> Components<'d>
        ensures value { result ≡ components.now }
    {
        Components { components }
    }

    /// How the first component of a plain name is written.
    fn text_of(&self, name: &[u8]) -> Option<&[u8]>
        ensures value { option_map (λ text. text.now) result ≡ option_map (λ c. c.text) (find (λ c. bytes_eq c.name name.now) self.now) }
    {
        match self.components.find(name) {
            Some(component) => Some(component.text.bytes()),
            None => None,
        }
    }

    /// The word of the first component of a plain name; another word where none has it.
    pub(crate) fn word_of<'w>(&'w self, name: &[u8], other: &'w [u8]) -> &'w [u8]
        ensures value { result.now ≡ component_word self.now name.now other.now }
    {
        match self.text_of(name) {
            Some(text) => text,
            None => other,
        }
    }

    /// The word of the component that this word names, where that is read as a component; `PIN` stays.
    pub(crate) fn end_word<'w>(
        &'w self,
        alloc: Global,
        word: &'w [u8],
    ) -> Result<&'w [u8], NoMemory>
        ensures value { IfOk result (λ text. text.now ≡ end_word self.now word.now) }
    {
        if word == b"PIN".as_slice() {
            return Ok(word);
        }
        let name = plain_name(alloc, word)?;
        Ok(unless_mark(self.word_of(name.bytes(), word), word))
    }
}
