//! The data of a scan call as repeats of characters, of which none is written out.
ghost use Rattle.std.specs.Prelude.{◌≡◌, ◌∷◌, [], ◌++◌, ◌<◌, ◌≤◌, ◌+◌, ◌^◌, ◌-◌, ℕ, true, false, List, min, replicate, length, take, drop, slice_index, MatchOption, IfSome, IfOk};
ghost use Rattle.std.specs.List.{list_all};
ghost use Rattle.lane_kernels.specs.Kernels.{is_allowed};
ghost use Rattle.stil_calls.specs.declared.repeats.Repeat.{Repeat as ghost_repeat};
ghost use Rattle.stil_calls.specs.Repeats.{repeats_from, repeats_of, whole_from, singly, alphabet, is_character, is_sound, count_of, reach_from, written};
ghost use Rattle.stil_calls.specs.Reaches.{Reaching};
ghost use Rattle.stil_types.specs.Calls.{is_expectation};

use crate::escape::{behind, completed, is_character, is_outside};
use base_types::{NoMemory, Text};
use lane_kernels::any_byte_outside;
use memchr::{memchr2, memrchr2};
use std::alloc::Global;

/// A character so many times.
#[derive(Clone, Copy)]
pub struct Repeat {
    pub times: u64,
    pub character: u8,
}

/// Where a place of data stands.
#[derive(Clone, Copy)]
pub enum Escape {
    /// A character may begin.
    Outside,
    /// Behind a backslash.
    Slash,
    /// Behind `\r` and digits of this number.
    Count(u64),
    /// Behind a blank behind these.
    Waits(u64),
    /// Behind an escape that isn't one.
    Broken,
}

/// What data are for: to be shifted in, or compared with what is shifted out.
#[derive(Clone, Copy)]
pub enum Side {
    Load,
    Compare,
}

/// How many bytes stand before the first blank or backslash: outside an escape they stand for themselves.
fn unescaped_len(bytes: &[u8]) -> usize
    ensures within { result ≤ length bytes.now }
    ensures value { repeats_of bytes.now ≡ singly (take result bytes.now) ++ repeats_of (drop result bytes.now) }
{
    match memchr2(b' ', b'\\', bytes) {
        Some(before) => before,
        None => bytes.len(),
    }
}

/// How many bytes at the front stand for themselves.
#[inline(always)]
fn plain_len(escape: Escape, bytes: &[u8]) -> usize
    ensures within { result ≤ length bytes.now }
    ensures value { repeats_from escape bytes.now ≡ singly (take result bytes.now) ++ repeats_from escape (drop result bytes.now) }
{
    match escape {
        Escape::Outside => unescaped_len(bytes),
        _ => 0,
    }
}

/// The characters of a side.
fn alphabet(side: Side) -> &'static [u8]
    ensures value { result.now ≡ alphabet side }
{
    match side {
        Side::Load => b"01N".as_slice(),
        Side::Compare => b"LHX".as_slice(),
    }
}

/// How many bytes stand before the first that isn't allowed.
fn allowed_len(allowed: &[u8], bytes: &[u8]) -> usize
    ensures within { result ≤ length bytes.now }
    ensures each { (k : ℕ) → k < result → is_allowed allowed.now (slice_index bytes.now k) ≡ true }
{
    match any_byte_outside(bytes, allowed) {
        Some(before) => before,
        None => bytes.len(),
    }
}

/// The same for a whole block of 32 bytes or more, which are looked at at once: the last block goes over some bytes again, so that none
/// is looked at alone.
fn allowed_in_blocks(allowed: &[u8], bytes: &[u8]) -> usize
    requires block { 32 ≤ length bytes.now }
    ensures within { result ≤ length bytes.now }
    ensures each { (k : ℕ) → k < result → is_allowed allowed.now (slice_index bytes.now k) ≡ true }
{
    let (blocks, _rest) = bytes.split_at(bytes.len() - bytes.len() % 32);
    let front = allowed_len(allowed, blocks);
    if front < blocks.len() {
        return front;
    }
    let start = bytes.len() - 32;
    let (_before, last) = bytes.split_at(start);
    start + allowed_len(allowed, last)
}

/// The same for any bytes.
fn before_others(allowed: &[u8], bytes: &[u8]) -> usize
    ensures within { result ≤ length bytes.now }
    ensures each { (k : ℕ) → k < result → is_allowed allowed.now (slice_index bytes.now k) ≡ true }
{
    if bytes.len() < 32 {
        allowed_len(allowed, bytes)
    } else {
        allowed_in_blocks(allowed, bytes)
    }
}

/// How many bytes stand before the first that is no character of a side; outside an escape they stand for themselves.
fn alphabet_len(side: Side, bytes: &[u8]) -> usize
    ensures within { result ≤ length bytes.now }
    ensures sound { list_all (λ r. is_character side r.character) (repeats_of bytes.now) ≡ list_all (λ r. is_character side r.character) (repeats_of (drop result bytes.now)) }
    ensures whole { whole_from Escape.Outside bytes.now ≡ whole_from Escape.Outside (drop result bytes.now) }
    ensures count { count_of (repeats_of bytes.now) ≡ result + count_of (repeats_of (drop result bytes.now)) }
{
    before_others(alphabet(side), bytes)
}

/// How many bytes at the front are characters of a side that stand for themselves.
#[inline(always)]
fn sound_len(side: Side, escape: Escape, bytes: &[u8]) -> usize
    ensures within { result ≤ length bytes.now }
    ensures sound { list_all (λ r. is_character side r.character) (repeats_from escape bytes.now) ≡ list_all (λ r. is_character side r.character) (repeats_from escape (drop result bytes.now)) }
    ensures whole { whole_from escape bytes.now ≡ whole_from escape (drop result bytes.now) }
    ensures count { count_of (repeats_from escape bytes.now) ≡ result + count_of (repeats_from escape (drop result bytes.now)) }
{
    match escape {
        Escape::Outside => alphabet_len(side, bytes),
        _ => 0,
    }
}

/// Data from a place on.
#[derive(Drop)]
pub(crate) struct Repeats<'t> {
    bytes: &'t [u8],
    escape: Escape,
}

impl<'t> Repeats<'t> {
    fn of(bytes: &'t [u8]) -> Repeats<'t>
        ensures bytes { result.bytes.now ≡ bytes.now }
        ensures escape { result.escape ≡ Escape.Outside }
    {
        Repeats {
            bytes,
            escape: Escape::Outside,
        }
    }

    /// Takes the bytes that stand for themselves before the next blank or escape.
    #[inline(always)]
    fn plain(&mut self) -> &'t [u8]
        ensures value { repeats_from self.old.escape self.old.bytes.now ≡ singly result.now ++ repeats_from self.new.escape self.new.bytes.now }
        ensures shorter { length self.new.bytes.now ≤ length self.old.bytes.now }
    {
        let (plain, rest) = self.bytes.split_at(plain_len(self.escape, self.bytes));
        self.bytes = rest;
        plain
    }

    /// Passes characters of a side that stand for themselves before the next blank, escape or other byte. The answer is how many.
    #[inline(always)]
    fn pass_sound(&mut self, side: Side) -> usize
        ensures sound { list_all (λ r. is_character side r.character) (repeats_from self.old.escape self.old.bytes.now) ≡ list_all (λ r. is_character side r.character) (repeats_from self.new.escape self.new.bytes.now) }
        ensures whole { whole_from self.old.escape self.old.bytes.now ≡ whole_from self.new.escape self.new.bytes.now }
        ensures count { count_of (repeats_from self.old.escape self.old.bytes.now) ≡ result + count_of (repeats_from self.new.escape self.new.bytes.now) }
        ensures shorter { length self.new.bytes.now ≤ length self.old.bytes.now }
    {
        let len = sound_len(side, self.escape, self.bytes);
        let (_passed, rest) = self.bytes.split_at(len);
        self.bytes = rest;
        len
    }

    /// Takes the next repeat.
    #[inline(always)]
    #[tactic(auto, unfolding(crate::specs::Repeats::repeats_from, crate::specs::Repeats::whole_from))]
    fn next(&mut self) -> Option<Repeat>
        ensures value { MatchOption result ((repeats_from self.old.escape self.old.bytes.now ≡ []) × (self.new.bytes.now ≡ []))
            (λ r. repeats_from self.old.escape self.old.bytes.now ≡ r ∷ repeats_from self.new.escape self.new.bytes.now) }
        ensures whole { whole_from self.old.escape self.old.bytes.now ≡ whole_from self.new.escape self.new.bytes.now }
        ensures shorter { IfSome result (λ r. length self.new.bytes.now < length self.old.bytes.now) }
    {
        while let Some((b, rest)) = self.bytes.split_first() {
            let done = completed(self.escape, *b);
            self.escape = behind(self.escape, *b);
            self.bytes = rest;
            if done.is_some() {
                return done;
            }
        }
        None
    }
}

/// How many characters data stand for, the greatest number where they are more; None where they aren't of a side's alphabet or an escape
/// isn't whole.
#[tactic(auto, unfolding(crate::specs::Repeats::whole_from))]
pub(crate) fn sound_count(side: Side, bytes: &[u8]) -> Option<u64>
    ensures value { MatchOption result (is_sound side bytes.now ≡ false)
        (λ count. (is_sound side bytes.now ≡ true) × (count ≡ min (count_of (repeats_of bytes.now)) (2 ^ 64 - 1))) }
{
    let mut repeats = Repeats::of(bytes);
    let mut count = repeats.pass_sound(side) as u64;
    while let Some(repeat) = repeats.next() {
        if !is_character(side, repeat.character) {
            return None;
        }
        let passed = repeats.pass_sound(side) as u64;
        count = count.saturating_add(repeat.times).saturating_add(passed);
    }
    if is_outside(repeats.escape) {
        Some(count)
    } else {
        None
    }
}

/// How many characters data stand for; the greatest number where they are more.
#[tactic(auto, using(crate::proofs::Plain::count_singly))]
pub(crate) fn count_of(bytes: &[u8]) -> u64
    ensures value { result ≡ min (count_of (repeats_of bytes.now)) (2 ^ 64 - 1) }
{
    let mut repeats = Repeats::of(bytes);
    let mut count = repeats.plain().len() as u64;
    while let Some(repeat) = repeats.next() {
        let plain = repeats.plain();
        count = count
            .saturating_add(repeat.times)
            .saturating_add(plain.len() as u64);
    }
    count
}

/// Whether the character is `L` or `H`.
fn is_expectation(character: u8) -> bool
    ensures value { result ≡ is_expectation character }
{
    character == b'L' || character == b'H'
}

/// How many characters of data are read, and how many of them stand up to and with the last `L` or `H`.
#[derive(Clone, Copy)]
struct Reach {
    before: u64,
    reach: u64,
}

impl Reach {
    /// Behind bytes that stand for themselves.
    fn behind_plain(self, plain: &[u8]) -> Reach
        ensures reaching { (left all : List ghost_repeat) → Reaching self.before self.reach (singly plain.now ++ left) all → Reaching result.before result.reach left all }
    {
        let before = self.before.saturating_add(plain.len() as u64);
        match memrchr2(b'L', b'H', plain) {
            Some(at) => Reach {
                before,
                reach: self.before.saturating_add(at as u64 + 1),
            },
            None => Reach {
                before,
                reach: self.reach,
            },
        }
    }

    /// Behind a repeat.
    fn behind_repeat(self, repeat: Repeat) -> Reach
        ensures reaching { (left all : List ghost_repeat) → Reaching self.before self.reach (repeat ∷ left) all → Reaching result.before result.reach left all }
    {
        let before = self.before.saturating_add(repeat.times);
        if is_expectation(repeat.character) {
            return Reach {
                before,
                reach: before,
            };
        }
        Reach {
            before,
            reach: self.reach,
        }
    }
}

/// How many characters stand up to and with the last `L` or `H`; the greatest number where they are more.
pub(crate) fn reach_of(bytes: &[u8]) -> u64
    ensures value { result ≡ min (reach_from 0 (repeats_of bytes.now)) (2 ^ 64 - 1) }
{
    let mut repeats = Repeats::of(bytes);
    let start = Reach {
        before: 0,
        reach: 0,
    };
    let mut now = start.behind_plain(repeats.plain());
    while let Some(repeat) = repeats.next() {
        now = now.behind_repeat(repeat).behind_plain(repeats.plain());
    }
    now.reach
}

/// Puts a character so many times behind a text.
fn put(text: &mut Vec<u8>, repeat: Repeat) -> Result<(), NoMemory>
    ensures value { IfOk result (λ done. text.new.items ≡ text.old.items ++ replicate repeat.times repeat.character) }
{
    let len = text
        .len()
        .checked_add(repeat.times as usize)
        .ok_or(NoMemory)?;
    text.resize(len, repeat.character)?;
    Ok(())
}

/// The characters of data, written out repeat by repeat.
#[tactic(auto, using(crate::proofs::Plain::written_singly))]
fn write_each(alloc: Global, bytes: &[u8]) -> Result<Text, NoMemory>
    ensures value { IfOk result (λ text. text ≡ written (repeats_of bytes.now)) }
{
    let mut repeats = Repeats::of(bytes);
    let mut text = Vec::with_capacity(alloc, count_of(bytes) as usize)?;
    text.extend_from_slice(repeats.plain())?;
    while let Some(repeat) = repeats.next() {
        put(&mut text, repeat)?;
        text.extend_from_slice(repeats.plain())?;
    }
    Ok(Text::of(text))
}

/// The characters of data, written out. Of one token without escapes these are its bytes, which are copied at once.
pub(crate) fn write_out(alloc: Global, bytes: &[u8]) -> Result<Text, NoMemory>
    ensures value { IfOk result (λ text. text ≡ written (repeats_of bytes.now)) }
{
    let (token, rest) = bytes.split_at(unescaped_len(bytes));
    if rest == b" ".as_slice() {
        return Ok(Text::copy(alloc, token)?);
    }
    write_each(alloc, bytes)
}
