//! How far the patterns of a text are read.
ghost use Rattle.std.specs.Prelude.{◌≡◌, IfOk};
ghost use Rattle.stil_reader.specs.Reading.{begun, with_piece, finished};

use crate::step::Piece;
use crate::stil::{Judged, Stil};
use base_types::{Name, NoMemory, Rows, Text};
use std::alloc::Global;
use std::marker::Model;
use std::mem;
use stil_parts::Point;
use stil_types::{PatternStatement, StilHead};

/// What is read of the patterns, up to a point of the text.
#[derive(Drop)]
pub(crate) struct Reading {
    point: Point,
    patterns: Vec<Name>,
    statements: Vec<PatternStatement>,
    /// The gaps before these.
    gaps: Vec<Text>,
    /// The first bytes of the gap behind them.
    gap: Vec<u8>,
}

impl Model for Reading {
    ghost use Rattle.stil_reader.specs.Reading.{Progress};

    ghost Value = { Progress };

    ghost view = { λ r. record { point = r.point; patterns = r.patterns.items; statements = r.statements.items; gaps = r.gaps.items; gap = r.gap.items } };
}

impl Reading {
    /// Nothing is read up to this point; takes no memory.
    pub(crate) fn at(alloc: Global, point: Point) -> Reading
        ensures value { result ≡ begun point }
    {
        Reading {
            point,
            patterns: Vec::new(alloc),
            statements: Vec::new(alloc),
            gaps: Vec::new(alloc),
            gap: Vec::new(alloc),
        }
    }

    /// The point that is reached.
    pub(crate) fn point(&self) -> Point
        ensures value { result ≡ self.now.point }
    {
        self.point
    }

    /// One more piece, of these bytes, is read up to this point.
    pub(crate) fn add(
        &mut self,
        alloc: Global,
        text: &[u8],
        piece: Piece,
        point: Point,
    ) -> Result<(), NoMemory>
        ensures value { IfOk result (λ done. self.new ≡ with_piece text.now piece point self.old) }
    {
        match piece {
            Piece::Gap(name) => {
                self.gap.extend_from_slice(text)?;
                if let Some(name) = name {
                    self.patterns.push(name)?;
                }
            }
            Piece::Statement(statement) => {
                let mut gap = Vec::new(alloc);
                mem::swap(&mut self.gap, &mut gap);
                gap.shrink_to_fit();
                self.gaps.push(Text::of(gap))?;
                self.statements.push(statement)?;
            }
        }
        self.point = point;
        Ok(())
    }

    /// All is read.
    pub(crate) fn finish(self, head: StilHead) -> Result<Judged, NoMemory>
        ensures value { IfOk result (λ judged. judged ≡ finished head self) }
    {
        let Reading {
            mut gaps,
            patterns,
            statements,
            gap,
            ..
        } = self;
        gaps.push(Text::of(gap))?;
        Ok(Judged {
            stil: Stil {
                head,
                patterns: Rows::of(patterns),
                statements: Rows::of(statements),
            },
            gaps: Rows::of(gaps),
        })
    }
}
