//! The statements of SCANCHAINS.
ghost use Rattle.std.specs.Prelude.{◌≡◌, ◌<◌, ◌≤◌, ◌&&◌, not, length, OnOk};
ghost use Rattle.std.specs.List.{list_any};
ghost use Rattle.token_forms.specs.Parsing.{Gives, GivesAll};
ghost use Rattle.token_forms.specs.Forms.{maybe, ◌▸◌};
ghost use Rattle.token_forms.specs.Laws.{IsStatement};
ghost use Rattle.def_syntax.specs.Words.{name, number};
ghost use Rattle.def_syntax.specs.Grammar.{terminal, partition, common_pins, clause, chain};
ghost use Rattle.def_syntax.specs.Pieces.{put_common, put_clause, is_floating, some_list, chain_of};

use crate::element::{Bracket, ElementList, element_list};
use crate::kinds::{CellName, Name, Number};
use base_types::{Rows, Stop};
use token_forms::{Gather, Parser, Read, Statement, TokenText};

/// Where a chain starts or stops: `PIN pin` for a design pin, or `component pin`, where the pin may be left out.
#[derive(Drop)]
pub enum Terminal<'a> {
    AtPin(TokenText<'a>),
    AtCell {
        component: TokenText<'a>,
        pin: Option<TokenText<'a>>,
    },
}

/// `PARTITION name MAXBITS n`, where `MAXBITS` may be left out. The number is digits of any value, as it is written.
#[derive(Drop)]
pub struct Partition<'a> {
    pub name: TokenText<'a>,
    pub max_bits: Option<TokenText<'a>>,
}

/// `COMMONSCANPINS ( IN pin ) ( OUT pin )`, where each may be left out.
#[derive(Drop)]
pub struct CommonPins<'a> {
    pub input: Option<TokenText<'a>>,
    pub output: Option<TokenText<'a>>,
}

/// A clause of a chain.
#[derive(Drop)]
pub(crate) enum Clause<'a> {
    Partition(Partition<'a>),
    CommonPins(CommonPins<'a>),
    Start(Terminal<'a>),
    Stop(Terminal<'a>),
    List(ElementList<'a>),
}

/// A chain as far as its clauses are read.
#[derive(Drop)]
pub(crate) struct SoFar<'a> {
    name: TokenText<'a>,
    partition: Option<Partition<'a>>,
    common_pins: Option<CommonPins<'a>>,
    start: Option<Terminal<'a>>,
    stop: Option<Terminal<'a>>,
    lists: Rows<ElementList<'a>>,
}

/// `- name clause .. ;`: a scan chain, with its lists in the order in which they stand. At most one of them is FLOATING, and none
/// is empty.
#[derive(Drop)]
pub struct Chain<'a> {
    pub name: TokenText<'a>,
    pub partition: Option<Partition<'a>>,
    pub common_pins: Option<CommonPins<'a>>,
    pub start: Terminal<'a>,
    pub stop: Terminal<'a>,
    pub lists: Rows<ElementList<'a>>,
}

fn any_name<'a>(parser: &mut Parser<'a, '_>) -> Result<Option<TokenText<'a>>, Stop>
    ensures value { Gives result parser.new.tokens ((maybe name).reads parser.old.tokens) }
    ensures shorter { OnOk result (length parser.new.tokens ≤ length parser.old.tokens) }
{
    if parser.begins_text::<Name>() {
        Ok(Some(parser.text::<Name>()?))
    } else {
        Ok(None)
    }
}

impl<'a> Read<'a> for Terminal<'a> {
    ghost form = { terminal };

    #[tactic(auto, unfolding(crate::specs::Grammar::terminal))]
    fn begins(parser: &Parser<'a, '_>) -> bool {
        parser.begins_word(b"PIN") || parser.begins_text::<CellName>()
    }

    #[tactic(auto, unfolding(crate::specs::Grammar::terminal))]
    fn read(parser: &mut Parser<'a, '_>) -> Result<Terminal<'a>, Stop> {
        if parser.begins_word(b"PIN") {
            parser.word(b"PIN")?;
            return Ok(Terminal::AtPin(parser.text::<Name>()?));
        }
        let component = parser.text::<CellName>()?;
        let pin = any_name(parser)?;
        Ok(Terminal::AtCell { component, pin })
    }
}

fn max_bits<'a>(parser: &mut Parser<'a, '_>) -> Result<Option<TokenText<'a>>, Stop>
    ensures value { Gives result parser.new.tokens ((maybe ("MAXBITS" ▸ number)).reads parser.old.tokens) }
    ensures shorter { OnOk result (length parser.new.tokens ≤ length parser.old.tokens) }
{
    if !parser.begins_word(b"MAXBITS") {
        return Ok(None);
    }
    parser.word(b"MAXBITS")?;
    Ok(Some(parser.text::<Number>()?))
}

impl<'a> Read<'a> for Partition<'a> {
    ghost form = { partition };

    #[tactic(auto, unfolding(crate::specs::Grammar::partition))]
    fn begins(parser: &Parser<'a, '_>) -> bool {
        parser.begins_word(b"PARTITION")
    }

    #[tactic(auto, unfolding(crate::specs::Grammar::partition))]
    fn read(parser: &mut Parser<'a, '_>) -> Result<Partition<'a>, Stop> {
        parser.word(b"PARTITION")?;
        let name = parser.text::<Name>()?;
        let max_bits = max_bits(parser)?;
        Ok(Partition { name, max_bits })
    }
}

impl<'a> Gather<Bracket<'a>> for CommonPins<'a> {
    ghost put = { put_common };

    fn add(mut self, piece: Bracket<'a>) -> Result<CommonPins<'a>, Stop> {
        match piece {
            Bracket::In(pin) if self.input.is_none() && self.output.is_none() => {
                self.input = Some(pin)
            }
            Bracket::Out(pin) if self.output.is_none() => self.output = Some(pin),
            _ => return Err(Stop::NoForm),
        }
        Ok(self)
    }
}

impl<'a> Read<'a> for CommonPins<'a> {
    ghost form = { common_pins };

    #[tactic(auto, unfolding(crate::specs::Grammar::common_pins))]
    fn begins(parser: &Parser<'a, '_>) -> bool {
        parser.begins_word(b"COMMONSCANPINS")
    }

    #[tactic(auto, unfolding(crate::specs::Grammar::common_pins))]
    fn read(parser: &mut Parser<'a, '_>) -> Result<CommonPins<'a>, Stop> {
        parser.word(b"COMMONSCANPINS")?;
        parser.gather(CommonPins {
            input: None,
            output: None,
        })
    }
}

impl<'a> Read<'a> for Clause<'a> {
    ghost form = { clause };

    #[tactic(auto, unfolding(crate::specs::Grammar::clause))]
    fn begins(parser: &Parser<'a, '_>) -> bool {
        parser.begins_word(b"+")
    }

    #[tactic(auto, unfolding(crate::specs::Grammar::clause))]
    fn read(parser: &mut Parser<'a, '_>) -> Result<Clause<'a>, Stop> {
        parser.word(b"+")?;
        if Partition::begins(parser) {
            return Ok(Clause::Partition(Partition::read(parser)?));
        }
        if CommonPins::begins(parser) {
            return Ok(Clause::CommonPins(CommonPins::read(parser)?));
        }
        if parser.begins_word(b"START") {
            parser.word(b"START")?;
            return Ok(Clause::Start(Terminal::read(parser)?));
        }
        if parser.begins_word(b"STOP") {
            parser.word(b"STOP")?;
            return Ok(Clause::Stop(Terminal::read(parser)?));
        }
        Ok(Clause::List(element_list(parser)?))
    }
}

fn is_floating(list: &ElementList<'_>) -> bool
    ensures value { result ≡ is_floating list.now }
{
    matches!(list, ElementList::Floating(_))
}

fn any_floating(lists: &[ElementList<'_>]) -> bool
    ensures value { result ≡ list_any is_floating lists.now }
{
    lists.iter().any(is_floating)
}

impl<'a> SoFar<'a> {
    /// Whether the list may stand beside those that are read: FLOATING stands once.
    fn takes(&self, list: &ElementList<'a>) -> bool
        ensures value { result ≡ not (is_floating list.now && list_any is_floating self.now.lists) }
    {
        !(is_floating(list) && any_floating(self.lists.as_slice()))
    }
}

impl<'a> Gather<Clause<'a>> for SoFar<'a> {
    ghost put = { put_clause };

    fn add(mut self, piece: Clause<'a>) -> Result<SoFar<'a>, Stop> {
        match piece {
            Clause::Partition(partition) if self.partition.is_none() => {
                self.partition = Some(partition)
            }
            Clause::CommonPins(pins) if self.common_pins.is_none() => self.common_pins = Some(pins),
            Clause::Start(start) if self.start.is_none() => self.start = Some(start),
            Clause::Stop(stop) if self.stop.is_none() => self.stop = Some(stop),
            Clause::List(list) if self.takes(&list) => self.lists.push(list)?,
            _ => return Err(Stop::NoForm),
        }
        Ok(self)
    }
}

/// A chain whose clauses are read, where START, STOP and a list are among them.
fn chain_of(read: SoFar<'_>) -> Result<Chain<'_>, Stop>
    ensures value { GivesAll result (chain_of read.entry) }
{
    let start = read.start.ok_or(Stop::NoForm)?;
    let stop = read.stop.ok_or(Stop::NoForm)?;
    if read.lists.as_slice().is_empty() {
        return Err(Stop::NoForm);
    }
    Ok(Chain {
        name: read.name,
        partition: read.partition,
        common_pins: read.common_pins,
        start,
        stop,
        lists: read.lists,
    })
}

impl<'a> Read<'a> for Chain<'a> {
    ghost form = { chain };

    #[tactic(auto, unfolding(crate::specs::Grammar::chain))]
    fn begins(parser: &Parser<'a, '_>) -> bool {
        parser.begins_word(b"-")
    }

    #[tactic(auto, unfolding(crate::specs::Grammar::chain))]
    fn read(parser: &mut Parser<'a, '_>) -> Result<Chain<'a>, Stop> {
        parser.word(b"-")?;
        let name = parser.text::<Name>()?;
        let read = parser.gather(SoFar {
            name,
            partition: None,
            common_pins: None,
            start: None,
            stop: None,
            lists: Rows::new(parser.alloc),
        })?;
        parser.word(b";")?;
        chain_of(read)
    }
}

impl<'a> Statement<'a> for Chain<'a> {
    #[tactic(auto, using(crate::proofs::Lawful::chain_statement))]
    fn is_statement()
        ensures law { IsStatement chain }
    {}
}
