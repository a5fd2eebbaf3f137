//! The contracts of `stil_stream`.
ghost use Rattle.std.specs.Prelude.{IfOk, OnErr, OnOk, false, length, not, true, ◌&&◌, ◌≡◌, ◌≤◌};
ghost use Rattle.stil_stream.specs.Streams.{Answers, HeadAnswers, IsAccepted, IsShort, ended, fed, largest_kept, largest_piece};

use base_types::{NoMemory, ReadFault};
use std::alloc::Global;
use stil_stream::{HeadNext, Next, StilStream};
use stil_types::StilHead;

/// As `stil_stream::StilStream::next_head`.
pub fn stil_stream_next_head(
    stil_stream: &mut StilStream,
    alloc: Global,
) -> Result<HeadNext, ReadFault>
    requires in_head { stil_stream.old.in_head ≡ true }
    ensures answers { HeadAnswers stil_stream.old stil_stream.new result }
    ensures small { IfOk result IsShort }
{
    stil_stream.next_head(alloc)
}

/// As `stil_stream::StilStream::next_statement`.
pub fn stil_stream_next_statement(
    stil_stream: &mut StilStream,
    alloc: Global,
    head: &StilHead,
) -> Result<Next, ReadFault>
    requires behind_head { stil_stream.old.in_head ≡ false }
    ensures answers { Answers head.now stil_stream.old stil_stream.new result }
    ensures accepted { IsAccepted head.now result }
{
    stil_stream.next_statement(alloc, head)
}

/// As `stil_stream::StilStream::feed`.
pub fn stil_stream_feed(stil_stream: &mut StilStream, piece: &[u8]) -> Result<(), NoMemory>
    requires unended { stil_stream.old.ended ≡ false }
    requires hungry { stil_stream.old.hungry ≡ true }
    requires small { length piece.now ≤ largest_piece }
    ensures ok { OnOk result (stil_stream.new ≡ fed stil_stream.old piece.now) }
    ensures unchanged { OnErr result (stil_stream.new ≡ stil_stream.old) }
{
    stil_stream.feed(piece)
}

/// As `stil_stream::StilStream::end_input`.
pub fn stil_stream_end_input(stil_stream: &mut StilStream)
    ensures value { stil_stream.new ≡ ended stil_stream.old }
{
    stil_stream.end_input()
}

/// As `stil_stream::StilStream::is_hungry`.
pub fn stil_stream_is_hungry(stil_stream: &StilStream) -> bool
    ensures value { result ≡ (not stil_stream.now.ended && stil_stream.now.hungry) }
{
    stil_stream.is_hungry()
}

/// As `stil_stream::StilStream::kept`.
pub fn stil_stream_kept(stil_stream: &StilStream) -> usize
    ensures value { result ≡ length stil_stream.now.kept }
    ensures within { result ≤ largest_kept }
{
    stil_stream.kept()
}
