//! Chains in their words.
ghost use Rattle.std.specs.Prelude.{◌≡◌, map, option_map, unwrap_or, length, IfOk};
ghost use Rattle.def_reader.specs.Numbers.{between, bits_of};
ghost use Rattle.def_edit.specs.NewChains.{element_layout, terminal_layout, max_bits, partition_layout, chain_layout, chain_layouts};
ghost use Rattle.def_edit.specs.Layouts.{laid_element, laid_list, laid_terminal, laid_partition, laid_chain};

use crate::chains::{NewChain, NewElement};
use crate::components::Components;
use crate::words::word_for;
use base_types::{Name, NoMemory, Rows};
use def_layout::{ChainLayout, ElementLayout, PartitionLayout, TerminalLayout};
use def_syntax::{Chain, Located, Partition, Terminal};
use def_tokens::read_integer;
use std::alloc::Global;
use token_forms::TokenText;

/// An element, whose pins are words of its own.
#[derive(Drop)]
struct ElementWords<'a> {
    name: &'a [u8],
    input: Name,
    output: Name,
    bits: u32,
}

/// A start or a stop.
#[derive(Drop)]
enum TerminalWords {
    AtPin(Name),
    AtCell { component: Name, pin: Name },
}

/// A partition.
#[derive(Drop)]
struct PartitionWords {
    name: Name,
    max_bits: Option<u32>,
}

/// A chain in words of its own.
#[derive(Drop)]
pub(crate) struct ChainWords<'a> {
    name: &'a [u8],
    partition: Option<PartitionWords>,
    start: TerminalWords,
    stop: TerminalWords,
    floating: Rows<ElementWords<'a>>,
    ordered: Rows<Rows<ElementWords<'a>>>,
}

fn element_words<'a>(
    alloc: Global,
    components: &'a Components<'_>,
    element: &'a NewElement<'_>,
) -> Result<ElementWords<'a>, NoMemory>
    ensures value { IfOk result (λ words. laid_element words ≡ element_layout components.now element.now) }
{
    let component = element.component.text();
    Ok(ElementWords {
        name: components.word_of(component, component),
        input: word_for(alloc, element.input.text())?,
        output: word_for(alloc, element.output.text())?,
        bits: element.bits,
    })
}

fn list_words<'a>(
    alloc: Global,
    components: &'a Components<'_>,
    elements: &'a [NewElement<'_>],
) -> Result<Rows<ElementWords<'a>>, NoMemory>
    ensures value { IfOk result (λ words. laid_list words ≡ map (element_layout components.now) elements.now) }
{
    let mut words = Rows::with_room(alloc, elements.len())?;
    for element in elements {
        words.push(element_words(alloc, components, element)?)?;
    }
    Ok(words)
}

fn lists_words<'a>(
    alloc: Global,
    components: &'a Components<'_>,
    lists: &'a [Rows<NewElement<'_>>],
) -> Result<Rows<Rows<ElementWords<'a>>>, NoMemory>
    ensures value { IfOk result (λ words. map laid_list words ≡ map (map (element_layout components.now)) lists.now) }
{
    let mut words = Rows::with_room(alloc, lists.len())?;
    for list in lists {
        words.push(list_words(alloc, components, list.as_slice())?)?;
    }
    Ok(words)
}

/// A start or a stop: at a design pin as it was written, at a component with this pin.
fn terminal_words(
    alloc: Global,
    components: &Components<'_>,
    terminal: &Terminal<'_>,
    pin: &[u8],
) -> Result<TerminalWords, NoMemory>
    ensures value { IfOk result (λ words. laid_terminal words ≡ terminal_layout components.now terminal.now pin.now) }
{
    match terminal {
        Terminal::AtPin(port) => Ok(TerminalWords::AtPin(word_for(alloc, port.text())?)),
        Terminal::AtCell { component, .. } => {
            let component = components.end_word(alloc, component.text())?;
            Ok(TerminalWords::AtCell {
                component: word_for(alloc, component)?,
                pin: word_for(alloc, pin)?,
            })
        }
    }
}

/// An integer of 0 to 262144.
fn few(value: Option<i64>) -> Option<u32>
    ensures value { result ≡ between 0 262144 value }
{
    let value = u32::try_from(value?).ok()?;
    if value <= 262_144 { Some(value) } else { None }
}

/// The number of a `MAXBITS`; 0 where it exceeds 262144.
fn number_of(word: &[u8]) -> u32
    ensures value { result ≡ unwrap_or (bits_of word.now) 0 }
{
    match few(read_integer(word)) {
        Some(number) => number,
        None => 0,
    }
}

fn max_bits(word: &Option<TokenText<'_>>) -> Option<u32>
    ensures value { result ≡ max_bits word.now }
{
    match word {
        Some(word) => Some(number_of(word.text())),
        None => None,
    }
}

fn partition_words(
    alloc: Global,
    partition: &Option<Partition<'_>>,
) -> Result<Option<PartitionWords>, NoMemory>
    ensures value { IfOk result (λ words. option_map laid_partition words ≡ option_map partition_layout partition.now) }
{
    let Some(partition) = partition else {
        return Ok(None);
    };
    Ok(Some(PartitionWords {
        name: word_for(alloc, partition.name.text())?,
        max_bits: max_bits(&partition.max_bits),
    }))
}

fn chain_words<'a>(
    alloc: Global,
    components: &'a Components<'_>,
    chain: &'a Chain<'_>,
    new: &'a NewChain<'_>,
) -> Result<ChainWords<'a>, NoMemory>
    ensures value { IfOk result (λ words. laid_chain words ≡ chain_layout components.now chain.now new.now) }
{
    Ok(ChainWords {
        name: chain.name.text(),
        partition: partition_words(alloc, &chain.partition)?,
        start: terminal_words(alloc, components, &chain.start, new.start.text())?,
        stop: terminal_words(alloc, components, &chain.stop, new.stop.text())?,
        floating: list_words(alloc, components, new.floating.as_slice())?,
        ordered: lists_words(alloc, components, new.ordered.as_slice())?,
    })
}

/// The chains of statements with other elements, in their words.
#[tactic(auto, using(crate::proofs::Steps::no_chains, crate::proofs::Steps::next_chain))]
pub(crate) fn chains_words<'a>(
    alloc: Global,
    components: &'a Components<'_>,
    chains: &'a [Located<Chain<'_>>],
    news: &'a [NewChain<'_>],
) -> Result<Vec<ChainWords<'a>>, NoMemory>
    requires long { length news.now ≡ length chains.now }
    ensures value { IfOk result (λ words. map laid_chain words.items ≡ chain_layouts components.now chains.now news.now) }
{
    let mut words = Vec::new(alloc);
    for (place, chain) in chains.iter().enumerate() {
        words.push(chain_words(alloc, components, &chain.statement, &news[place])?)?;
    }
    Ok(words)
}

fn element_layout<'w>(element: &'w ElementWords<'_>) -> ElementLayout<'w>
    ensures value { result ≡ laid_element element.now }
{
    ElementLayout {
        name: TokenText::of(element.name),
        input: TokenText::of(element.input.bytes()),
        output: TokenText::of(element.output.bytes()),
        bits: element.bits,
    }
}

fn list_layout<'w>(
    alloc: Global,
    elements: &'w [ElementWords<'_>],
) -> Result<Rows<ElementLayout<'w>>, NoMemory>
    ensures value { IfOk result (λ layouts. layouts ≡ laid_list elements.now) }
{
    let mut layouts = Rows::with_room(alloc, elements.len())?;
    for element in elements {
        layouts.push(element_layout(element))?;
    }
    Ok(layouts)
}

fn lists_layout<'w>(
    alloc: Global,
    lists: &'w [Rows<ElementWords<'_>>],
) -> Result<Rows<Rows<ElementLayout<'w>>>, NoMemory>
    ensures value { IfOk result (λ layouts. layouts ≡ map laid_list lists.now) }
{
    let mut layouts = Rows::with_room(alloc, lists.len())?;
    for list in lists {
        layouts.push(list_layout(alloc, list.as_slice())?)?;
    }
    Ok(layouts)
}

fn terminal_layout<'w>(terminal: &'w TerminalWords) -> TerminalLayout<'w>
    ensures value { result ≡ laid_terminal terminal.now }
{
    match terminal {
        TerminalWords::AtPin(pin) => TerminalLayout::AtPin(TokenText::of(pin.bytes())),
        TerminalWords::AtCell { component, pin } => TerminalLayout::AtCell {
            component: TokenText::of(component.bytes()),
            pin: TokenText::of(pin.bytes()),
        },
    }
}

fn partition_layout<'w>(partition: &'w Option<PartitionWords>) -> Option<PartitionLayout<'w>>
    ensures value { result ≡ option_map laid_partition partition.now }
{
    match partition {
        Some(partition) => Some(PartitionLayout {
            name: TokenText::of(partition.name.bytes()),
            max_bits: partition.max_bits,
        }),
        None => None,
    }
}

fn chain_layout<'w>(alloc: Global, chain: &'w ChainWords<'_>) -> Result<ChainLayout<'w>, NoMemory>
    ensures value { IfOk result (λ layout. layout ≡ laid_chain chain.now) }
{
    Ok(ChainLayout {
        name: TokenText::of(chain.name),
        partition: partition_layout(&chain.partition),
        start: terminal_layout(&chain.start),
        stop: terminal_layout(&chain.stop),
        floating: list_layout(alloc, chain.floating.as_slice())?,
        ordered: lists_layout(alloc, chain.ordered.as_slice())?,
    })
}

/// The chains as they are laid out.
pub(crate) fn chain_layouts<'w>(
    alloc: Global,
    chains: &'w [ChainWords<'_>],
) -> Result<Vec<ChainLayout<'w>>, NoMemory>
    ensures value { IfOk result (λ layouts. layouts.items ≡ map laid_chain chains.now) }
{
    let mut layouts = Vec::new(alloc);
    for chain in chains {
        layouts.push(chain_layout(alloc, chain)?)?;
    }
    Ok(layouts)
}
