//! Expressions: their items, and which of them are one.
ghost use Rattle.std.specs.Prelude.{◌≡◌, ◌+◌, ◌<◌, ◌≤◌, ◌^◌, ◌∷◌, Some, length, OnOk};
ghost use Rattle.std.specs.List.{list_any};
ghost use Rattle.token_forms.specs.Parsing.{Gives, GivesAll};
ghost use Rattle.token_forms.specs.Forms.{made, maybe, many, at, between, ◌▸◌, ◌only_if◌};
ghost use Rattle.verilog_syntax.specs.Items.{selected, operand_of, depth_behind, ends_one, may_stand, nests, is_expression, is_any_expression, is_a_constant, is_target};
ghost use Rattle.verilog_syntax.specs.Words.{begins_number};
ghost use Rattle.verilog_syntax.specs.Grammar.{decimal, select, operand, item, expression_of};

use crate::item_list::Items;
use crate::kinds::{Decimal, OperandWord};
use crate::statement::{Expression, Item};
use crate::words::begins_number;
use base_types::{Boxed, Stop};
use std::alloc::Global;
use token_forms::{Parser, Read, TokenText};

/// `[index]` or `[left:right]`.
#[derive(Drop)]
pub(crate) struct Select<'a> {
    left: TokenText<'a>,
    right: Option<TokenText<'a>>,
}

fn second_bound<'a>(parser: &mut Parser<'a, '_>) -> Result<Option<TokenText<'a>>, Stop>
    ensures value { Gives result parser.new.tokens ((maybe (":" ▸ decimal)).reads parser.old.tokens) }
    ensures shorter { OnOk result (length parser.new.tokens ≤ length parser.old.tokens) }
{
    if !parser.begins_word(b":") {
        return Ok(None);
    }
    parser.word(b":")?;
    let bound = parser.text::<Decimal>()?;
    Ok(Some(bound))
}

impl<'a> Read<'a> for Select<'a> {
    ghost form = { select };

    #[inline(always)]
    #[tactic(auto, unfolding(crate::specs::Grammar::select))]
    fn begins(parser: &Parser<'a, '_>) -> bool {
        parser.begins_word(b"[")
    }

    #[tactic(auto, unfolding(crate::specs::Grammar::select))]
    fn read(parser: &mut Parser<'a, '_>) -> Result<Select<'a>, Stop> {
        parser.word(b"[")?;
        let left = parser.text::<Decimal>()?;
        let right = second_bound(parser)?;
        parser.word(b"]")?;
        Ok(Select { left, right })
    }
}

#[inline(always)]
fn any_select<'a>(parser: &mut Parser<'a, '_>) -> Result<Option<Select<'a>>, Stop>
    ensures value { Gives result parser.new.tokens ((maybe select).reads parser.old.tokens) }
    ensures shorter { OnOk result (length parser.new.tokens ≤ length parser.old.tokens) }
{
    if Select::begins(parser) {
        Ok(Some(Select::read(parser)?))
    } else {
        Ok(None)
    }
}

/// A bit or a part of a name.
fn selected<'a>(
    alloc: Global,
    name: TokenText<'a>,
    left: TokenText<'a>,
    right: Option<TokenText<'a>>,
) -> Result<Item<'a>, Stop>
    ensures value { GivesAll result (Some (selected name.entry left.entry right.entry)) }
{
    match right {
        None => Ok(Item::Bit { name, index: left }),
        Some(right) => Ok(Item::Part {
            name,
            left: Boxed::of(alloc, left)?,
            right: Boxed::of(alloc, right)?,
        }),
    }
}

/// The operand of a word that is a name or a constant, and the select behind it.
#[inline(always)]
fn operand_of<'a>(
    alloc: Global,
    word: TokenText<'a>,
    select: Option<Select<'a>>,
) -> Result<Item<'a>, Stop>
    ensures value { GivesAll result (operand_of word.entry select.entry) }
{
    if begins_number(word.text()) {
        return match select {
            None => Ok(Item::Constant(word)),
            Some(_) => Err(Stop::NoForm),
        };
    }
    match select {
        None => Ok(Item::Name(word)),
        Some(select) => selected(alloc, word, select.left, select.right),
    }
}

#[inline(always)]
#[tactic(auto, unfolding(crate::specs::Grammar::operand))]
fn operand<'a>(parser: &mut Parser<'a, '_>) -> Result<Item<'a>, Stop>
    ensures value { Gives result parser.new.tokens (operand.reads parser.old.tokens) }
    ensures shorter { OnOk result (length parser.new.tokens < length parser.old.tokens) }
{
    let word = parser.text::<OperandWord>()?;
    let select = any_select(parser)?;
    operand_of(parser.alloc, word, select)
}

impl<'a> Read<'a> for Item<'a> {
    ghost form = { item };

    #[inline(always)]
    #[tactic(auto, unfolding(crate::specs::Grammar::item, crate::specs::Grammar::operand))]
    fn begins(parser: &Parser<'a, '_>) -> bool {
        parser.begins_word(b"{")
            || parser.begins_word(b",")
            || parser.begins_word(b"}")
            || parser.begins_text::<OperandWord>()
    }

    #[inline(always)]
    #[tactic(auto, unfolding(crate::specs::Grammar::item))]
    fn read(parser: &mut Parser<'a, '_>) -> Result<Item<'a>, Stop> {
        if parser.begins_word(b"{") {
            parser.word(b"{")?;
            return Ok(Item::Open);
        }
        if parser.begins_word(b",") {
            parser.word(b",")?;
            return Ok(Item::Comma);
        }
        if parser.begins_word(b"}") {
            parser.word(b"}")?;
            return Ok(Item::Close);
        }
        operand(parser)
    }
}

/// The items behind a first one.
fn items_behind<'a>(parser: &mut Parser<'a, '_>, first: Item<'a>) -> Result<Items<'a>, Stop>
    ensures value { Gives result parser.new.tokens ((made (λ xs. first.entry ∷ xs) (many item)).reads parser.old.tokens) }
    ensures shorter { OnOk result (length parser.new.tokens ≤ length parser.old.tokens) }
{
    let mut front = Vec::new(parser.alloc);
    front.push(first)?;
    let items = parser.many_more(front)?;
    Ok(Items::of(items.into_vec()))
}

/// As many items as there are: one lies in the value itself.
#[inline(always)]
fn items<'a>(parser: &mut Parser<'a, '_>) -> Result<Items<'a>, Stop>
    ensures value { Gives result parser.new.tokens ((many item).reads parser.old.tokens) }
    ensures shorter { OnOk result (length parser.new.tokens ≤ length parser.old.tokens) }
{
    if !Item::begins(parser) {
        return Ok(Items::new());
    }
    let first = Item::read(parser)?;
    if !Item::begins(parser) {
        return Ok(Items::one(first));
    }
    items_behind(parser, first)
}

/// How many braces are open behind an item.
fn depth_behind(depth: usize, item: &Item<'_>) -> usize
    requires room { depth + 1 < 2 ^ 64 }
    ensures value { result ≡ depth_behind depth item.now }
{
    match item {
        Item::Open => depth + 1,
        Item::Close => depth.saturating_sub(1),
        _ => depth,
    }
}

/// Whether an expression ends with the item.
fn ends_one(item: &Item<'_>) -> bool
    ensures value { result ≡ ends_one item.now }
{
    !matches!(item, Item::Open | Item::Comma)
}

/// Whether the item may stand where so many braces are open, and an expression has just ended or not.
fn may_stand(depth: usize, ended: bool, item: &Item<'_>) -> bool
    ensures value { result ≡ may_stand depth ended item.now }
{
    match item {
        Item::Comma | Item::Close => ended && 0 < depth,
        _ => !ended,
    }
}

/// Whether the items are one expression.
fn is_expression(items: &[Item<'_>]) -> bool
    ensures value { result ≡ is_expression items.now }
{
    let mut depth = 0;
    let mut ended = false;
    for item in items {
        if !may_stand(depth, ended, item) {
            return false;
        }
        depth = depth_behind(depth, item);
        ended = ends_one(item);
    }
    ended && depth == 0
}

fn is_any_expression(items: &[Item<'_>]) -> bool
    ensures value { result ≡ is_any_expression items.now }
{
    items.is_empty() || is_expression(items)
}

fn is_a_constant(item: &Item<'_>) -> bool
    ensures value { result ≡ is_a_constant item.now }
{
    matches!(item, Item::Constant(_))
}

fn has_constant(items: &[Item<'_>]) -> bool
    ensures value { result ≡ list_any is_a_constant items.now }
{
    items.iter().any(|item| is_a_constant(item))
}

/// Whether they are one without a constant.
fn is_target(items: &[Item<'_>]) -> bool
    ensures value { result ≡ is_target items.now }
{
    is_expression(items) && !has_constant(items)
}

/// `( expression )` or `( )`.
#[inline(always)]
pub(crate) fn pin_expression<'a>(parser: &mut Parser<'a, '_>) -> Result<Expression<'a>, Stop>
    ensures value { Gives result parser.new.tokens ((made expression_of (between "(" (many item only_if is_any_expression) ")")).reads parser.old.tokens) }
    ensures shorter { OnOk result (length parser.new.tokens < length parser.old.tokens) }
{
    parser.word(b"(")?;
    let before = parser.tokens.again();
    let items = items(parser)?;
    let span = before.run_place(&parser.tokens);
    if !is_any_expression(items.as_slice()) {
        return Err(Stop::NoForm);
    }
    parser.word(b")")?;
    Ok(Expression { items, span })
}

/// The right side of an assign: `= expression ;`.
pub(crate) fn assigned<'a>(parser: &mut Parser<'a, '_>) -> Result<Expression<'a>, Stop>
    ensures value { Gives result parser.new.tokens ((made expression_of (between "=" (many item only_if is_expression) ";")).reads parser.old.tokens) }
    ensures shorter { OnOk result (length parser.new.tokens < length parser.old.tokens) }
{
    parser.word(b"=")?;
    let before = parser.tokens.again();
    let items = items(parser)?;
    let span = before.run_place(&parser.tokens);
    if !is_expression(items.as_slice()) {
        return Err(Stop::NoForm);
    }
    parser.word(b";")?;
    Ok(Expression { items, span })
}

/// The left side of an assign.
pub(crate) fn target<'a>(parser: &mut Parser<'a, '_>) -> Result<Expression<'a>, Stop>
    ensures value { Gives result parser.new.tokens ((made expression_of (at (many item only_if is_target))).reads parser.old.tokens) }
    ensures shorter { OnOk result (length parser.new.tokens ≤ length parser.old.tokens) }
{
    let before = parser.tokens.again();
    let items = items(parser)?;
    let span = before.place_before(parser.tokens.len());
    if !is_target(items.as_slice()) {
        return Err(Stop::NoForm);
    }
    Ok(Expression { items, span })
}
