//! The data of a scan call, by its tokens.
ghost use Rattle.std.specs.Prelude.{◌≡◌, ◌<◌, ◌++◌, ◌∷◌, [], length, OnOk, IfOk};
ghost use Rattle.token_forms.specs.Parsing.{Gives};
ghost use Rattle.token_forms.specs.Laws.{IsStatement};
ghost use Rattle.stil_syntax.specs.Grammar.{data_token, put_token, fresh_item, item, entry, put_entry, block, call_end};

use crate::name::NameText;
use crate::words::{InData, NoMark};
use base_types::{Name, NoMemory, Stop};
use std::alloc::Global;
use std::marker::Model;
use token_forms::{Gather, Parser, Read, Statement, TokenText};

/// The tokens of data, with a blank behind each, which contracts see as these bytes.
#[derive(Drop)]
pub struct Data {
    bytes: Vec<u8>,
}

impl Model for Data {
    ghost use Rattle.std.specs.Prelude.{List, ℕ};

    ghost Value = { List ℕ };

    ghost view = { λ d. d.bytes.items };
}

impl Data {
    fn new(alloc: Global) -> Data
        ensures value { result ≡ [] }
    {
        Data {
            bytes: Vec::new(alloc),
        }
    }

    /// Its bytes.
    pub fn bytes(&self) -> &[u8]
        ensures value { result.now ≡ self.now }
    {
        self.bytes.as_slice()
    }

    fn with(self, token: &[u8]) -> Result<Data, NoMemory>
        ensures value { IfOk result (λ d. d ≡ self ++ (token.now ++ 32 ∷ [])) }
    {
        let mut bytes = self.bytes;
        bytes.reserve(token.len() + 1)?;
        bytes.extend_from_slice(token)?;
        bytes.push(b' ')?;
        Ok(Data { bytes })
    }
}

/// `name = data ;`
#[derive(Drop)]
pub struct Item {
    /// Without its backslashes.
    pub name: Name,
    pub data: Data,
}

/// A token of data.
#[derive(Drop)]
pub(crate) struct DataToken<'a> {
    text: TokenText<'a>,
}

impl<'a> Model for DataToken<'a> {
    ghost use Rattle.std.specs.Prelude.{List, ℕ};

    ghost Value = { List ℕ };

    ghost view = { λ t. t.text };
}

/// An item, or an empty one.
#[derive(Drop)]
pub enum Entry {
    Empty,
    Given(Item),
}

/// The items of a scan call, which contracts see as their list.
#[derive(Drop)]
pub struct Items {
    items: Vec<Item>,
}

impl Model for Items {
    ghost use Rattle.std.specs.Prelude.{List};
    ghost use Rattle.stil_syntax.specs.declared.item.Item.{Item};

    ghost Value = { List Item };

    ghost view = { λ i. i.items.items };
}

impl Items {
    fn new(alloc: Global) -> Items
        ensures value { result ≡ [] }
    {
        Items {
            items: Vec::new(alloc),
        }
    }

    /// The items in order.
    pub fn as_slice(&self) -> &[Item]
        ensures value { result.now ≡ self.now }
    {
        self.items.as_slice()
    }
}

impl<'a> Read<'a> for DataToken<'a> {
    ghost form = { data_token };

    fn begins(parser: &Parser<'a, '_>) -> bool {
        parser.begins_text::<InData>()
    }

    fn read(parser: &mut Parser<'a, '_>) -> Result<DataToken<'a>, Stop> {
        let text = parser.text::<InData>()?;
        Ok(DataToken { text })
    }
}

impl<'a> Gather<DataToken<'a>> for Item {
    ghost put = { put_token };

    fn add(self, piece: DataToken<'a>) -> Result<Item, Stop> {
        let data = self.data.with(piece.text.text())?;
        Ok(Item {
            name: self.name,
            data,
        })
    }
}

/// An item without data yet.
fn fresh_item(alloc: Global, name: &NameText<'_>) -> Result<Item, NoMemory>
    ensures value { IfOk result (λ i. i ≡ fresh_item name.now) }
{
    Ok(Item {
        name: name.to_plain_name(alloc)?,
        data: Data::new(alloc),
    })
}

impl<'a> Read<'a> for Item {
    ghost form = { item };

    #[tactic(auto, unfolding(crate::specs::Grammar::item))]
    fn begins(parser: &Parser<'a, '_>) -> bool {
        parser.begins_text::<NoMark>()
    }

    #[tactic(auto, unfolding(crate::specs::Grammar::item))]
    fn read(parser: &mut Parser<'a, '_>) -> Result<Item, Stop> {
        let name = NameText::read(parser)?;
        parser.word(b"=")?;
        let fresh = fresh_item(parser.alloc, &name)?;
        let item = parser.gather(fresh)?;
        parser.word(b";")?;
        Ok(item)
    }
}

impl<'a> Read<'a> for Entry {
    ghost form = { entry };

    #[tactic(auto, unfolding(crate::specs::Grammar::entry, crate::specs::Grammar::item))]
    fn begins(parser: &Parser<'a, '_>) -> bool {
        parser.begins_word(b";") || parser.begins_text::<NoMark>()
    }

    #[tactic(auto, unfolding(crate::specs::Grammar::entry))]
    fn read(parser: &mut Parser<'a, '_>) -> Result<Entry, Stop> {
        if parser.begins_word(b";") {
            parser.word(b";")?;
            return Ok(Entry::Empty);
        }
        let item = Item::read(parser)?;
        Ok(Entry::Given(item))
    }
}

impl Gather<Entry> for Items {
    ghost put = { put_entry };

    fn add(mut self, piece: Entry) -> Result<Items, Stop> {
        match piece {
            Entry::Empty => Ok(self),
            Entry::Given(item) => {
                self.items.push(item)?;
                Ok(self)
            }
        }
    }
}

#[tactic(auto, unfolding(crate::specs::Grammar::block))]
fn block(parser: &mut Parser<'_, '_>) -> Result<Items, Stop>
    ensures value { Gives result parser.new.tokens (block.reads parser.old.tokens) }
    ensures shorter { OnOk result (length parser.new.tokens < length parser.old.tokens) }
{
    parser.word(b"{")?;
    let items = parser.gather::<Items, Entry>(Items::new(parser.alloc))?;
    parser.word(b"}")?;
    Ok(items)
}

impl<'a> Read<'a> for Items {
    ghost form = { call_end };

    #[tactic(auto, unfolding(crate::specs::Grammar::call_end, crate::specs::Grammar::block))]
    fn begins(parser: &Parser<'a, '_>) -> bool {
        parser.begins_word(b";") || parser.begins_word(b"{")
    }

    #[tactic(auto, unfolding(crate::specs::Grammar::call_end))]
    fn read(parser: &mut Parser<'a, '_>) -> Result<Items, Stop> {
        if parser.begins_word(b";") {
            parser.word(b";")?;
            return Ok(Items::new(parser.alloc));
        }
        block(parser)
    }
}

impl<'a> Statement<'a> for Items {
    #[tactic(auto, using(crate::proofs::Lawful::call_statement))]
    fn is_statement()
        ensures law { IsStatement call_end }
    {}
}
