//! The nets that pins leave or come to.
ghost use Rattle.std.specs.Prelude.{◌≡◌, ◌<◌, ◌≤◌, ◌^◌, ◌++◌, ◌∷◌, [], ◌+◌, ◌==◌, ℕ, List, Some, not, if◌then◌else◌, map, filter, length, option_map, slice_get, is_some, IfOk, OnOk, All};
ghost use Rattle.std.specs.HashMap.{get};
ghost use Rattle.token_forms.specs.Runs.{bytes_of};
ghost use Rattle.def_layout.specs.Nets.{connection_in};
ghost use Rattle.def_layout.specs.NetForms.{IsLayout};
ghost use Rattle.def_edit.specs.NetChanges.{is_counted, moving_connection, added_for, added_list, added_with, stays_by, net_change, moves_from, moves_to, is_touched};
ghost use Rattle.def_syntax.specs.declared.net.NetStatement.TheVariants.{Net as one_net};
ghost use Rattle.def_edit.specs.declared.pin_moves.PinMove.{PinMove as one_move};
ghost use Rattle.def_edit.specs.Lookups.{words_in, rows_of, leaves_at, HasGroups, IsOwnNet, IsOwn, maybe_edit};
ghost use Rattle.def_edit.specs.Pushed.{net_words, cut_of, edits_from, cuts_from};
ghost use Rattle.def_edit.specs.MovedText.{statement_edit};
ghost use Rattle.def_edit.specs.Groups.{group_of};

use crate::PinMove;
use crate::components::Components;
use crate::groups::group_at;
use base_types::{Name, NoMemory, Rows, Span};
use def_layout::{ConnectionLayout, NetLayout, net_text};
use def_reader::Design;
use def_syntax::{Connection, Located, Net, NetStatement};
use splice::Edit;
use std::alloc::Global;
use std::collections::HashMap;
use token_forms::TokenText;

/// A net of a statement: its name and its connections.
#[derive(Drop)]
pub(crate) struct NetRow<'t> {
    pub(crate) name: &'t [u8],
    pub(crate) connections: &'t [Connection],
}

/// The nets of statements: MUSTJOIN is none.
pub(crate) fn nets_of<'t>(
    alloc: Global,
    statements: &'t [Located<NetStatement<'_>>],
) -> Result<Vec<NetRow<'t>>, NoMemory>
    ensures value { IfOk result (λ rows. (text : List ℕ) → rows_of text rows.items ≡ words_in text statements.now) }
{
    let mut rows = Vec::new(alloc);
    for statement in statements {
        if let NetStatement::Net(net) = &statement.statement {
            rows.push(NetRow {
                name: net.name.text(),
                connections: net.connections.as_slice(),
            })?;
        }
    }
    Ok(rows)
}

/// Whether a connection connects a pin, and not the pins of this name of all components.
fn is_counted(bytes: &[u8], connection: &Connection) -> bool
    ensures value { result ≡ is_counted (connection_in bytes.now connection.now) }
{
    connection.component_in(bytes) != b"*".as_slice()
}

/// The connection of a net's pin.
fn counted_at<'n>(
    bytes: &[u8],
    connections: &'n [Connection],
    place: usize,
) -> Option<&'n Connection>
    ensures value { option_map (λ c. connection_in bytes.now c.now) result ≡ slice_get (filter is_counted (map (connection_in bytes.now) connections.now)) place }
{
    let mut left = place;
    for connection in connections {
        if !is_counted(bytes, connection) {
            continue;
        }
        if left == 0 {
            return Some(connection);
        }
        left -= 1;
    }
    None
}

/// The connection that moves. It costs a pass over its net.
fn moving_connection<'n>(
    bytes: &[u8],
    nets: &[NetRow<'n>],
    pin_move: PinMove,
) -> Option<&'n Connection>
    ensures value { option_map (λ c. connection_in bytes.now c.now) result ≡ moving_connection (rows_of bytes.now nets.now) pin_move }
{
    match nets.get(pin_move.from as usize) {
        Some(net) => counted_at(bytes, net.connections, pin_move.place as usize),
        None => None,
    }
}

/// A connection as it is written in another net.
fn added_for<'w>(
    alloc: Global,
    bytes: &'w [u8],
    components: &'w Components<'_>,
    connection: &Connection,
) -> Result<ConnectionLayout<'w>, NoMemory>
    ensures value { IfOk result (λ layout. layout ≡ added_for components.now (connection_in bytes.now connection.now)) }
{
    let component = components.end_word(alloc, connection.component_in(bytes))?;
    Ok(ConnectionLayout {
        component: TokenText::of(component),
        pin: TokenText::of(connection.pin_in(bytes)),
        synthesized: false,
    })
}

/// Puts the connection that comes with a move behind others.
fn push_added<'w>(
    alloc: Global,
    added: &mut Vec<ConnectionLayout<'w>>,
    bytes: &'w [u8],
    components: &'w Components<'_>,
    nets: &[NetRow<'_>],
    pin_move: PinMove,
) -> Result<(), NoMemory>
    ensures value { OnOk result (added.new.items ≡ added.old.items ++ added_list components.now (moving_connection (rows_of bytes.now nets.now) pin_move)) }
{
    let Some(connection) = moving_connection(bytes, nets, pin_move) else {
        return Ok(());
    };
    added.push(added_for(alloc, bytes, components, connection)?)?;
    Ok(())
}

/// The connections that come with some moves.
fn added_with<'w>(
    alloc: Global,
    bytes: &'w [u8],
    components: &'w Components<'_>,
    nets: &[NetRow<'_>],
    moves: &[PinMove],
) -> Result<Vec<ConnectionLayout<'w>>, NoMemory>
    ensures value { IfOk result (λ added. added.items ≡ added_with components.now (rows_of bytes.now nets.now) moves.now) }
{
    let mut added = Vec::new(alloc);
    for pin_move in moves {
        push_added(alloc, &mut added, bytes, components, nets, *pin_move)?;
    }
    Ok(added)
}

/// Whether a pin of these that leave one net stands at this place.
fn leaves_at(leaving: &[PinMove], place: usize) -> bool
    ensures value { result ≡ leaves_at leaving.now place }
{
    leaving
        .iter()
        .any(|pin_move| pin_move.place as usize == place)
}

/// Which connections of a net stay, where these moves are those from it.
#[tactic(auto, unfolding(crate::specs::NetChanges::stays_by))]
fn stays_from(
    alloc: Global,
    bytes: &[u8],
    leaving: &[PinMove],
    connections: &[Connection],
) -> Result<Vec<bool>, NoMemory>
    ensures value { IfOk result (λ stays. stays.items ≡ stays_by (leaves_at leaving.now) 0 (map (connection_in bytes.now) connections.now)) }
{
    let mut stays = Vec::new(alloc);
    let mut place = 0;
    for connection in connections {
        if !is_counted(bytes, connection) {
            stays.push(true)?;
            continue;
        }
        stays.push(!leaves_at(leaving, place))?;
        place += 1;
    }
    Ok(stays)
}

/// What the statements are edited by.
#[derive(Drop)]
pub(crate) struct Lookup<'n> {
    pub(crate) bytes: &'n [u8],
    pub(crate) design: &'n Design,
    pub(crate) moves: &'n [PinMove],
    pub(crate) components: Components<'n>,
    pub(crate) nets: Vec<NetRow<'n>>,
    pub(crate) leaving: HashMap<u32, Rows<PinMove>>,
    pub(crate) coming: HashMap<u32, Rows<PinMove>>,
    pub(crate) ports: HashMap<&'n [u8], usize>,
}

/// The text of a net's statement where these pins leave it and these come, and whether it lost wiring. The bytes are those of the statement.
fn moved_net(
    alloc: Global,
    by: &Lookup<'_>,
    leaving: &[PinMove],
    coming: &[PinMove],
    statement: &[u8],
    connections: &[Connection],
) -> Result<NetLayout, NoMemory>
    requires small { length statement.now < 2 ^ 32 }
    ensures value { IfOk result (IsLayout statement.now (stays_by (leaves_at leaving.now) 0 (map (connection_in by.now.bytes.now) connections.now)) (added_with by.now.components (rows_of by.now.bytes.now by.now.nets.items) coming.now)) }
{
    let stays = stays_from(alloc, by.bytes, leaving, connections)?;
    let added = added_with(alloc, by.bytes, &by.components, &by.nets, coming)?;
    match net_text(alloc, statement, &stays, &added) {
        Ok(layout) => Ok(layout),
        Err(_) => Err(NoMemory),
    }
}

/// The bytes at a place, as far as it lies in the text.
fn part_of(bytes: &[u8], place: Span) -> &[u8]
    ensures value { result.now ≡ bytes_of bytes.now place }
{
    let start = bytes.len().min(place.start as usize);
    let rest = &bytes[start..];
    let len = rest
        .len()
        .min(place.end.saturating_sub(place.start) as usize);
    &rest[..len]
}

/// Whether pins leave a net or come to it, where these do.
#[tactic(auto, using(crate::proofs::NetTexts::touched_first, crate::proofs::NetTexts::touched_second))]
fn touches(leaving: &[PinMove], coming: &[PinMove]) -> bool
    ensures value { (moves : List one_move) (net : ℕ) → leaving.now ≡ moves_from net moves → coming.now ≡ moves_to net moves → result ≡ is_touched moves net }
{
    !leaving.is_empty() || !coming.is_empty()
}

/// Puts the new text of a net's statement behind the edits, where a pin leaves it or comes to it, and gives how many texts lost wiring.
fn push_net(
    alloc: Global,
    out: &mut Vec<Edit>,
    by: &Lookup<'_>,
    number: u32,
    span: Span,
    net: &Net<'_>,
) -> Result<u64, NoMemory>
    requires size { length by.now.bytes.now < 2 ^ 32 }
    requires groups { HasGroups by.now.moves.now by.now.leaving by.now.coming }
    requires own { IsOwnNet by.now.bytes.now span (one_net net.now) }
    ensures value { OnOk result (out.new.items ≡ out.old.items ++ maybe_edit (statement_edit by.now.bytes.now span (one_net net.now)) (net_change by.now.components (rows_of by.now.bytes.now by.now.nets.items) by.now.moves.now number (net_words by.now.bytes.now net.now))) }
    ensures cut { IfOk result (λ cut. cut ≡ cut_of by.now.bytes.now span (net_change by.now.components (rows_of by.now.bytes.now by.now.nets.items) by.now.moves.now number (net_words by.now.bytes.now net.now))) }
    ensures few { IfOk result (λ cut. cut ≤ 1) }
{
    let leaving = group_at(&by.leaving, number);
    let coming = group_at(&by.coming, number);
    if !touches(leaving, coming) {
        return Ok(0);
    }
    let statement = part_of(by.bytes, span);
    let connections = net.connections.as_slice();
    let layout = moved_net(alloc, by, leaving, coming, statement, connections)?;
    out.push(Edit {
        span,
        text: Name::copy(alloc, layout.text.bytes())?,
    })?;
    Ok(u64::from(layout.is_cut))
}

/// Puts the edits of the nets behind those so far, and gives how many of the nets lost wiring.
pub(crate) fn push_nets(
    alloc: Global,
    out: &mut Vec<Edit>,
    by: &Lookup<'_>,
    statements: &[Located<NetStatement<'_>>],
) -> Result<u64, NoMemory>
    requires size { length by.now.bytes.now < 2 ^ 32 }
    requires groups { HasGroups by.now.moves.now by.now.leaving by.now.coming }
    requires own { All (IsOwn by.now.bytes.now) statements.now }
    ensures value { OnOk result (out.new.items ≡ out.old.items ++ edits_from by.now.bytes.now by.now.components (rows_of by.now.bytes.now by.now.nets.items) by.now.moves.now 0 statements.now) }
    ensures cut { IfOk result (λ cut. cut ≡ cuts_from by.now.bytes.now by.now.components (rows_of by.now.bytes.now by.now.nets.items) by.now.moves.now 0 statements.now) }
{
    let mut number = 0u32;
    let mut cut = 0u64;
    for statement in statements {
        if let NetStatement::Net(net) = &statement.statement {
            cut += push_net(alloc, out, by, number, statement.span, net)?;
            number = match number.checked_add(1) {
                Some(next) => next,
                None => return Err(NoMemory),
            };
        }
    }
    Ok(cut)
}
