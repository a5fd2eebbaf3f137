//! The text of the section SCANCHAINS.
ghost use Rattle.std.specs.Prelude.{◌≡◌, ◌++◌, ◌∷◌, [], true, OnOk, IfOk, map, decimal, codes};
ghost use Rattle.std.specs.List.{flat_map, list_all};
ghost use Rattle.def_layout.specs.Words.{spaced};
ghost use Rattle.def_layout.specs.Sections.{line_text, element_line, list_lines, floating_lines, partition_lines, terminal_line, chain_lines, section_text};
ghost use Rattle.def_layout.specs.SectionForms.{is_written_well, IsSectionText};

use crate::chains::{ChainLayout, ElementLayout, PartitionLayout, TerminalLayout};
use crate::words::{push_number, push_word};
use base_types::{NoMemory, Rows, Text};
use std::alloc::Global;

/// Appends `( word value )` behind a blank.
fn push_bracket(out: &mut Vec<u8>, word: &[u8], value: &[u8]) -> Result<(), NoMemory>
    ensures value { OnOk result (out.new.items ≡ out.old.items ++ spaced (codes "(" ∷ word.now ∷ value.now ∷ codes ")" ∷ [])) }
{
    out.extend_from_slice(b" (")?;
    push_word(out, word)?;
    push_word(out, value)?;
    out.extend_from_slice(b" )")?;
    Ok(())
}

fn push_element(
    alloc: Global,
    out: &mut Vec<u8>,
    element: &ElementLayout<'_>,
) -> Result<(), NoMemory>
    ensures value { OnOk result (out.new.items ≡ out.old.items ++ line_text (element_line element.now)) }
{
    let bits = element.bits;
    let bits = format!(in alloc; "{bits}")?;
    out.extend_from_slice(b"\n   ")?;
    push_word(out, element.name.text())?;
    push_bracket(out, b"IN", element.input.text())?;
    push_bracket(out, b"OUT", element.output.text())?;
    push_bracket(out, b"BITS", bits.as_bytes())?;
    Ok(())
}

fn push_elements(
    alloc: Global,
    out: &mut Vec<u8>,
    elements: &[ElementLayout<'_>],
) -> Result<(), NoMemory>
    ensures value { OnOk result (out.new.items ≡ out.old.items ++ flat_map line_text (map element_line elements.now)) }
{
    for element in elements {
        push_element(alloc, out, element)?;
    }
    Ok(())
}

#[tactic(auto, unfolding(crate::specs::Sections::list_lines))]
fn push_list(
    alloc: Global,
    out: &mut Vec<u8>,
    word: &[u8],
    elements: &[ElementLayout<'_>],
) -> Result<(), NoMemory>
    ensures value { OnOk result (out.new.items ≡ out.old.items ++ flat_map line_text (list_lines word.now elements.now)) }
{
    out.extend_from_slice(b"\n  +")?;
    push_word(out, word)?;
    push_elements(alloc, out, elements)
}

fn push_floating(
    alloc: Global,
    out: &mut Vec<u8>,
    elements: &[ElementLayout<'_>],
) -> Result<(), NoMemory>
    ensures value { OnOk result (out.new.items ≡ out.old.items ++ flat_map line_text (floating_lines elements.now)) }
{
    if elements.is_empty() {
        return Ok(());
    }
    push_list(alloc, out, b"FLOATING", elements)
}

#[tactic(auto, using(crate::proofs::Appends::appends))]
fn push_ordered(
    alloc: Global,
    out: &mut Vec<u8>,
    lists: &[Rows<ElementLayout<'_>>],
) -> Result<(), NoMemory>
    ensures value { OnOk result (out.new.items ≡ out.old.items ++ flat_map line_text (flat_map (list_lines (codes "ORDERED")) lists.now)) }
{
    for list in lists {
        push_list(alloc, out, b"ORDERED", list.as_slice())?;
    }
    Ok(())
}

fn push_partition(
    alloc: Global,
    out: &mut Vec<u8>,
    partition: &Option<PartitionLayout<'_>>,
) -> Result<(), NoMemory>
    ensures value { OnOk result (out.new.items ≡ out.old.items ++ flat_map line_text (partition_lines partition.now)) }
{
    let Some(partition) = partition else {
        return Ok(());
    };
    out.extend_from_slice(b"\n  + PARTITION")?;
    push_word(out, partition.name.text())?;
    if let Some(bits) = partition.max_bits {
        out.extend_from_slice(b" MAXBITS")?;
        push_number(alloc, out, bits)?;
    }
    Ok(())
}

fn push_terminal(
    out: &mut Vec<u8>,
    word: &[u8],
    terminal: &TerminalLayout<'_>,
) -> Result<(), NoMemory>
    ensures value { OnOk result (out.new.items ≡ out.old.items ++ line_text (terminal_line word.now terminal.now)) }
{
    out.extend_from_slice(b"\n  +")?;
    push_word(out, word)?;
    match terminal {
        TerminalLayout::AtPin(pin) => {
            push_word(out, b"PIN")?;
            push_word(out, pin.text())?;
        }
        TerminalLayout::AtCell { component, pin } => {
            push_word(out, component.text())?;
            push_word(out, pin.text())?;
        }
    }
    Ok(())
}

fn push_chain(alloc: Global, out: &mut Vec<u8>, chain: &ChainLayout<'_>) -> Result<(), NoMemory>
    ensures value { OnOk result (out.new.items ≡ out.old.items ++ flat_map line_text (chain_lines chain.now)) }
{
    out.extend_from_slice(b"\n-")?;
    push_word(out, chain.name.text())?;
    push_partition(alloc, out, &chain.partition)?;
    push_terminal(out, b"START", &chain.start)?;
    push_floating(alloc, out, chain.floating.as_slice())?;
    push_ordered(alloc, out, chain.ordered.as_slice())?;
    push_terminal(out, b"STOP", &chain.stop)?;
    out.extend_from_slice(b"\n ;")?;
    Ok(())
}

#[tactic(auto, using(crate::proofs::Appends::appends))]
fn push_chains(alloc: Global, out: &mut Vec<u8>, chains: &[ChainLayout<'_>]) -> Result<(), NoMemory>
    ensures value { OnOk result (out.new.items ≡ out.old.items ++ flat_map line_text (flat_map chain_lines chains.now)) }
{
    for chain in chains {
        push_chain(alloc, out, chain)?;
    }
    Ok(())
}

fn written_section(alloc: Global, chains: &[ChainLayout<'_>]) -> Result<Text, NoMemory>
    ensures value { IfOk result (λ text. text ≡ section_text chains.now) }
{
    let count = chains.len();
    let head = format!(in alloc; "SCANCHAINS {count} ;")?;
    let mut out = Vec::from_slice(alloc, head.as_bytes())?;
    push_chains(alloc, &mut out, chains)?;
    out.extend_from_slice(b"\nEND SCANCHAINS")?;
    Ok(Text::of(out))
}

/// The section SCANCHAINS with these chains, from its first word to its END, or want of memory: a line for each clause and each
/// element. Where each chain has an element, no ordered list is empty, and each word is a name that a blank ends, the text is
/// read as the section of these chains.
pub fn section_text(alloc: Global, chains: &[ChainLayout<'_>]) -> Result<Text, NoMemory>
    ensures value { IfOk result (λ text. text ≡ section_text chains.now) }
    ensures reads { list_all is_written_well chains.now ≡ true → IfOk result (IsSectionText chains.now) }
{
    written_section(alloc, chains)
}
