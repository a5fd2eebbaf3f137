//! The text of a net's statement.
ghost use Rattle.std.specs.Prelude.{◌≡◌, ◌<◌, ◌+◌, ◌^◌, ◌++◌, ◌∷◌, [], ◌&&◌, ◌||◌, not, length, drop, true, false, if◌then◌else◌, map, OnOk, IfOk, codes};
ghost use Rattle.std.specs.List.{flat_map};
ghost use Rattle.std.specs.Str.{bytes_eq};
ghost use Rattle.token_forms.specs.Classes.{is_among};
ghost use Rattle.token_forms.specs.Parts.{token_texts};
ghost use Rattle.token_forms.specs.Runs.{bytes_of};
ghost use Rattle.def_tokens.specs.DefTokens.{has_end, tokens_in};
ghost use Rattle.def_syntax.specs.Options.{open_behind};
ghost use Rattle.def_layout.specs.Words.{texts, spaced};
ghost use Rattle.def_layout.specs.Nets.{synthesized_words, connection_words, connection_in, first_stays, kept, wiring, begins_wiring, stays_at, begins_option, other_words, has_wiring, closed, net_text};
ghost use Rattle.def_layout.specs.NetForms.{IsNetLayout, IsReadBack};

use crate::words::push_word;
use base_types::{NoMemory, Stop, Text};
use def_syntax::{Connection, Net, NetStatement};
use def_tokens::def_tokens;
use std::alloc::Global;
use token_forms::{TokenText, Tokens, read_all};

/// A connection in its words: its component, which may be `PIN` or `*`, its pin, and whether `+ SYNTHESIZED` stands behind it.
#[derive(Drop)]
pub struct ConnectionLayout<'a> {
    pub component: TokenText<'a>,
    pub pin: TokenText<'a>,
    pub synthesized: bool,
}

/// A net's statement that is written anew, and whether wiring was left out of it.
#[derive(Drop)]
pub struct NetLayout {
    pub text: Text,
    pub is_cut: bool,
}

/// What stands behind the pin.
fn behind_pin(synthesized: bool) -> &'static [u8]
    ensures value { result.now ≡ spaced (synthesized_words synthesized ++ codes ")" ∷ []) }
{
    if synthesized {
        b" + SYNTHESIZED )"
    } else {
        b" )"
    }
}

fn push_connection(
    out: &mut Vec<u8>,
    component: &[u8],
    pin: &[u8],
    synthesized: bool,
) -> Result<(), NoMemory>
    ensures value { OnOk result (out.new.items ≡ out.old.items ++ spaced (connection_words (record { component = component.now; pin = pin.now; synthesized = synthesized }))) }
{
    out.extend_from_slice(b" (")?;
    push_word(out, component)?;
    push_word(out, pin)?;
    out.extend_from_slice(behind_pin(synthesized))?;
    Ok(())
}

/// Whether the first one stays.
fn first_stays(marks: &[bool]) -> bool
    ensures value { result ≡ first_stays marks.now }
{
    match marks.first() {
        Some(stays) => *stays,
        None => true,
    }
}

/// The marks behind the first.
fn later(marks: &[bool]) -> &[bool]
    ensures value { result.now ≡ drop 1 marks.now }
{
    match marks.split_first() {
        Some((_, rest)) => rest,
        None => marks,
    }
}

/// Appends a connection where it stays.
fn push_if(
    out: &mut Vec<u8>,
    text: &[u8],
    connection: &Connection,
    stays: bool,
) -> Result<(), NoMemory>
    ensures value { OnOk result (out.new.items ≡ out.old.items ++ spaced (flat_map connection_words (if stays then connection_in text.now connection.now ∷ [] else []))) }
{
    if !stays {
        return Ok(());
    }
    push_connection(
        out,
        connection.component_in(text),
        connection.pin_in(text),
        connection.synthesized,
    )
}

fn push_kept(
    out: &mut Vec<u8>,
    text: &[u8],
    connections: &[Connection],
    stays: &[bool],
) -> Result<(), NoMemory>
    ensures value { OnOk result (out.new.items ≡ out.old.items ++ spaced (flat_map connection_words (kept stays.now (map (connection_in text.now) connections.now)))) }
{
    let mut marks = stays;
    for connection in connections {
        push_if(out, text, connection, first_stays(marks))?;
        marks = later(marks);
    }
    Ok(())
}

fn push_added(out: &mut Vec<u8>, added: &[ConnectionLayout<'_>]) -> Result<(), NoMemory>
    ensures value { OnOk result (out.new.items ≡ out.old.items ++ spaced (flat_map connection_words added.now)) }
{
    for connection in added {
        push_connection(
            out,
            connection.component.text(),
            connection.pin.text(),
            connection.synthesized,
        )?;
    }
    Ok(())
}

/// How many brackets are open behind a word.
fn open_behind(depth: usize, word: &[u8]) -> usize
    requires room { depth + 1 < 2 ^ 64 }
    ensures value { result ≡ open_behind depth word.now }
{
    match word {
        [b'('] => depth + 1,
        [b')'] => depth.saturating_sub(1),
        _ => depth,
    }
}

/// Whether an option begins with the word.
fn begins_option(depth: usize, word: &[u8]) -> bool
    ensures value { result ≡ begins_option depth word.now }
{
    word == b"+".as_slice() && depth == 0
}

fn is_wiring(word: &[u8]) -> bool
    ensures value { result ≡ is_among wiring word.now }
{
    word == b"ROUTED".as_slice()
        || word == b"FIXED".as_slice()
        || word == b"COVER".as_slice()
        || word == b"NOSHIELD".as_slice()
        || word == b"SUBNET".as_slice()
        || word == b"VPIN".as_slice()
}

/// Whether wiring begins with the first token.
fn begins_wiring(tokens: &Tokens<'_, '_>) -> bool
    ensures value { result ≡ begins_wiring (token_texts tokens.now) }
{
    match tokens.first() {
        Some(token) => is_wiring(token.text),
        None => false,
    }
}

/// Appends the word where it stays and doesn't end the statement.
fn push_staying(out: &mut Vec<u8>, word: &[u8], stays: bool) -> Result<(), NoMemory>
    ensures value { OnOk result (out.new.items ≡ out.old.items ++ spaced (if stays && not (bytes_eq word.now (codes ";")) then word.now ∷ [] else [])) }
{
    if stays && word != b";".as_slice() {
        push_word(out, word)?;
    }
    Ok(())
}

/// Where a word stands: how many brackets are open before it, whether the words before it stay, and whether one of the options
/// so far is wiring.
#[derive(Clone, Copy)]
struct Place {
    depth: usize,
    stays: bool,
    wiring: bool,
}

/// The place behind a word, before these tokens; the word stays where those behind it do.
fn place_behind(place: Place, word: &[u8], behind: &Tokens<'_, '_>) -> Place
    requires room { place.depth + 1 < 2 ^ 64 }
    ensures depth { result.depth ≡ open_behind place.depth word.now }
    ensures stays { result.stays ≡ stays_at place.depth place.stays word.now (token_texts behind.now) }
    ensures wiring { result.wiring ≡ (place.wiring || (begins_option place.depth word.now && begins_wiring (token_texts behind.now))) }
{
    let begins = begins_option(place.depth, word);
    let wiring = begins && begins_wiring(behind);
    Place {
        depth: open_behind(place.depth, word),
        stays: if begins { !wiring } else { place.stays },
        wiring: place.wiring || wiring,
    }
}

/// Appends the words of the options that aren't wiring, and gives whether one of them is.
fn push_others(out: &mut Vec<u8>, statement: Tokens<'_, '_>) -> Result<bool, NoMemory>
    ensures value { OnOk result (out.new.items ≡ out.old.items ++ spaced (other_words 0 false (token_texts statement.entry))) }
    ensures wiring { IfOk result (λ wiring. wiring ≡ has_wiring 0 (token_texts statement.entry)) }
{
    let mut tokens = statement;
    let mut place = Place {
        depth: 0,
        stays: false,
        wiring: false,
    };
    let most = tokens.len();
    while let Some(token) = tokens.next() {
        place = place_behind(place, token.text, &tokens);
        push_staying(out, token.text, place.stays)?;
    }
    Ok(place.wiring)
}

/// Whether a semicolon ends the bytes, behind a byte that is no backslash.
fn has_end(bytes: &[u8]) -> bool
    ensures value { result ≡ has_end bytes.now }
{
    let len = bytes.len();
    2 <= len && bytes[len - 1] == b';' && bytes[len - 2] != b'\\'
}

/// Appends the semicolon of a statement.
fn close(out: &mut Vec<u8>) -> Result<(), NoMemory>
    ensures value { OnOk result (out.new.items ≡ closed out.old.items) }
{
    let end: &[u8] = if has_end(out.as_slice()) { b";" } else { b" ;" };
    out.extend_from_slice(end)?;
    Ok(())
}

/// The words of a net and its options.
fn net_of(
    alloc: Global,
    text: &[u8],
    net: &Net<'_>,
    stays: &[bool],
    added: &[ConnectionLayout<'_>],
    tokens: Tokens<'_, '_>,
) -> Result<NetLayout, NoMemory>
    requires all { tokens ≡ tokens_in text.now }
    ensures text { IfOk result (λ layout. layout.text ≡ net_text text.now net.now stays.now added.now) }
    ensures cut { IfOk result (λ layout. layout.is_cut ≡ has_wiring 0 (texts text.now)) }
{
    let mut out = Vec::from_slice(alloc, b"-")?;
    push_word(&mut out, net.name.text())?;
    push_kept(&mut out, text, net.connections.as_slice(), stays)?;
    push_added(&mut out, added)?;
    let is_cut = push_others(&mut out, tokens)?;
    close(&mut out)?;
    Ok(NetLayout {
        text: Text::of(out),
        is_cut,
    })
}

fn written_net(
    alloc: Global,
    statement: &[u8],
    stays: &[bool],
    added: &[ConnectionLayout<'_>],
) -> Result<NetLayout, Stop>
    requires small { length statement.now < 2 ^ 32 }
    ensures value { IsNetLayout statement.now stays.now added.now result }
{
    let spans = def_tokens(alloc, statement)?;
    let tokens = Tokens::of(statement, spans.as_slice());
    let NetStatement::Net(net) = read_all(alloc, tokens.again())? else {
        return Err(Stop::NoForm);
    };
    Ok(net_of(alloc, statement, &net, stays, added, tokens)?)
}

/// The statement of a net from its bytes, written anew: its name, the connections that stay, in their order, the added ones, and
/// its options but for wiring. A connection stays where its mark says so or where it has none. NoForm where the bytes aren't the
/// statement of a net, as `- MUSTJOIN .. ;` isn't one. What is written is read back as what was meant, where the net that was
/// read has a connection and names are added.
pub fn net_text(
    alloc: Global,
    statement: &[u8],
    stays: &[bool],
    added: &[ConnectionLayout<'_>],
) -> Result<NetLayout, Stop>
    requires small { length statement.now < 2 ^ 32 }
    ensures value { IsNetLayout statement.now stays.now added.now result }
    ensures reads { IfOk result (IsReadBack statement.now stays.now added.now) }
{
    written_net(alloc, statement, stays, added)
}
