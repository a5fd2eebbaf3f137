//! Where the head ends.
ghost use Rattle.std.specs.Prelude.{◌≡◌, if◌then◌else◌, ◌<◌, ◌≤◌, ◌^◌, true, false, length, slice_index, Some, IfSome};
ghost use Rattle.stil_parts.specs.declared.gap.Comment.TheVariants.{Outside as ghost_outside};
ghost use Rattle.stil_parts.specs.declared.word.Word.TheVariants.{Start as ghost_start};
ghost use Rattle.stil_parts.specs.Words.{word_shown, word_settled};
ghost use Rattle.stil_parts.specs.Scanner.{step};
ghost use Rattle.stil_parts.specs.Parts.{begin};
ghost use Rattle.stil_parts.specs.ByTokens.{head_place};
ghost use Rattle.stil_parts.specs.Heads.{word_of, head_turn, head_end};
ghost use Rattle.stil_head.specs.Heads.{HasTurn};

use stil_parts::{
    After, Comment, Found, HeadTurn, Part, Place, Scan, Scanned, Search, Word, begin_at, gap_at,
    part_len, scan_on, search_part,
};

/// What the byte that ended a scan did.
fn after_found(found: Found) -> After
    ensures value { result ≡ if found.opens then After.Opens else After.Ends }
{
    if found.opens {
        After::Opens
    } else {
        After::Ends
    }
}

/// What a byte makes of what was read before it.
fn byte_step(bytes: &[u8], at: usize, scan: Scan) -> After
    requires within { at < length bytes.now }
    requires shallow { scan.depth ≤ at }
    ensures value { result ≡ step scan (slice_index bytes.now at) }
{
    match scan_on(false, &bytes[..at + 1], at, scan) {
        Scanned::Reached(next) => After::Goes(next),
        Scanned::Found(found) => after_found(found),
    }
}

/// Whether a word is `Pattern`, where it ends here.
fn is_pattern(word: Word) -> bool
    ensures shown { word_shown true word ≡ Some result }
    ensures settled { word_shown true (word_settled word) ≡ Some result }
{
    match word {
        Word::Letters(count) => count == 7,
        Word::After(is) | Word::Known(is) => is,
        _ => false,
    }
}

/// Whether a word is `Pattern`, where that is known before its end.
fn known_word(word: Word) -> Option<bool>
    ensures value { result ≡ word_shown false word }
{
    match word {
        Word::Known(is) => Some(is),
        _ => None,
    }
}

/// Whether the word of the statement at the front is `Pattern`.
#[tactic(auto, unfolding(stil_parts::specs::Heads::word_of))]
fn begins_pattern(bytes: &[u8]) -> bool
    ensures value { word_of true (begin ghost_start) bytes.now ≡ Some result }
{
    let mut scan = begin_at(Place::Top);
    let mut at = 0;
    while at < bytes.len() {
        if let Some(known) = known_word(scan.word) {
            return known;
        }
        match byte_step(bytes, at, scan) {
            After::Goes(next) => scan = next,
            After::Ends => return is_pattern(scan.word),
            After::Opens => return true,
        }
        at += 1;
    }
    is_pattern(scan.word)
}

/// What stands at the front of a head: a gap, the first Pattern, or another statement; None where that has no end.
#[tactic(auto, unfolding(stil_parts::specs::Heads::head_turn))]
fn head_turn(comment: Comment, bytes: &[u8]) -> Option<HeadTurn>
    ensures value { result ≡ head_turn true comment bytes.now }
    ensures within { IfSome result (HasTurn bytes.now) }
{
    let gap = gap_at(Place::Top, comment, bytes);
    if 0 < gap.len {
        return Some(HeadTurn::Passed(gap.len, gap.comment));
    }
    if begins_pattern(bytes) {
        return Some(HeadTurn::Here);
    }
    match search_part(
        true,
        bytes,
        Place::Pattern(0),
        0,
        begin_at(Place::Pattern(0)),
    ) {
        Search::Part(part) => Some(HeadTurn::Passed(part_len(part), Comment::Outside)),
        Search::Open(_scan) => None,
    }
}

/// How many bytes stand before the first Pattern of a STIL text: all where there is none.
pub fn head_len(bytes: &[u8]) -> usize
    requires size { length bytes.now < 2 ^ 32 }
    ensures value { head_end true ghost_outside 0 bytes.now ≡ Some result }
    // By the tokens it is the place of the first statement whose word is Pattern.
    ensures tokens { result ≡ head_place bytes.now }
    ensures within { result ≤ length bytes.now }
{
    let mut comment = Comment::Outside;
    let mut at = 0;
    while at < bytes.len() {
        let Some(turn) = head_turn(comment, &bytes[at..]) else {
            return bytes.len();
        };
        match turn {
            HeadTurn::Passed(len, next) => {
                at += len;
                comment = next;
            }
            HeadTurn::Here => return at,
        }
    }
    at
}
