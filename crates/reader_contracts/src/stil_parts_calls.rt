//! The contracts of `stil_parts`.
ghost use Rattle.std.specs.Prelude.{◌≡◌};
ghost use Rattle.stil_parts.specs.ByTokens.{HeadPlaceLaw, OpensLaw, PartLaw, part_by_tokens, part_found};
ghost use Rattle.stil_parts.specs.Coming.{IsEarly};
ghost use Rattle.stil_parts.specs.Deciding.{Decides};
ghost use Rattle.stil_parts.specs.Ending.{EndLaw};
ghost use Rattle.stil_parts.specs.Heads.{HeadLaw};
ghost use Rattle.stil_parts.specs.Laws.{BytesLaw, ShownLaw};
ghost use Rattle.stil_parts.specs.Resuming.{Resumes, Searched};

use stil_parts::{Decision, Place, Point, Scan, Search};

/// As `stil_parts::decide`.
pub fn decide(last: bool, bytes: &[u8], point: Point, done: usize, scan: Scan) -> Decision
    requires early { IsEarly point }
    requires resumes { Resumes point.place bytes.now done scan }
    // Each answer is what comes, whatever may follow and whatever the judge of the parts says.
    ensures value { Decides last point bytes.now result }
{
    stil_parts::decide(last, bytes, point, done, scan)
}

/// As `stil_parts::search_part`.
pub fn search_part(last: bool, bytes: &[u8], place: Place, done: usize, scan: Scan) -> Search
    requires resumes { Resumes place bytes.now done scan }
    ensures value { Searched last place bytes.now result }
    // The part is told by the tokens of the bytes alone.
    ensures tokens { part_found result ≡ part_by_tokens last place bytes.now }
{
    stil_parts::search_part(last, bytes, place, done, scan)
}

/// As `stil_parts::end_law`.
pub fn end_law()
    ensures law { EndLaw }
{
    stil_parts::end_law()
}

/// As `stil_parts::opens_law`.
pub fn opens_law()
    ensures law { OpensLaw }
    ensures parts { PartLaw }
{
    stil_parts::opens_law()
}

/// As `stil_parts::head_place_law`.
pub fn head_place_law()
    ensures law { HeadPlaceLaw }
{
    stil_parts::head_place_law()
}

/// As `stil_parts::shown_law`.
pub fn shown_law()
    ensures law { ShownLaw }
{
    stil_parts::shown_law()
}

/// As `stil_parts::bytes_law`.
pub fn bytes_law()
    ensures law { BytesLaw }
{
    stil_parts::bytes_law()
}

/// As `stil_parts::head_law`.
pub fn head_law()
    ensures law { HeadLaw }
{
    stil_parts::head_law()
}
