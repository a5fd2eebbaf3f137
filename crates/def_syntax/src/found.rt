//! What is read of a text, statement by statement.
ghost use Rattle.std.specs.Prelude.{◌≡◌, Option, Some, None, OnOk};
ghost use Rattle.base_types.specs.Lines.{line_at};
ghost use Rattle.token_forms.specs.Parsing.{GivesAll};
ghost use Rattle.def_syntax.specs.Reading.{Turns, statement_of, located, is_unclosed, read_units, read_head, read_outside, read_inside, closed_by, read_turn, fresh_found, design_of};
ghost use Rattle.def_syntax.specs.Grammar.{units};
ghost use Rattle.def_syntax.specs.Frames.{opened_by, is_end};
ghost use Rattle.def_syntax.specs.AtOnce.{is_component, wanted_turn, closed_design};

use crate::chain::Chain;
use crate::component::Component;
use crate::design::{DesignText, Located, Section};
use crate::frame::{SectionKind, is_end, is_head, opened_by, start_of, word_of};
use crate::net::NetStatement;
use crate::pin::DesignPin;
use crate::statements::statement_of;
use crate::units::Units;
use base_types::{Lines, NoMemory, Rows, Span, Stop};
use std::alloc::Global;
use token_forms::Tokens;

/// The section that is open: where it begins, and on which line.
#[derive(Clone, Copy)]
pub(crate) struct Opened {
    kind: SectionKind,
    start: u32,
    line: u64,
}

/// What is read so far.
#[derive(Drop)]
pub(crate) struct Found<'a> {
    section: Option<Opened>,
    units: Option<Located<Units<'a>>>,
    components: Rows<Located<Component<'a>>>,
    pins: Rows<Located<DesignPin<'a>>>,
    nets: Rows<Located<NetStatement<'a>>>,
    chains: Rows<Located<Chain<'a>>>,
    sections: Rows<Section>,
}

/// A statement with its place and line.
fn located<T>(lines: &mut Lines<'_>, tokens: &Tokens<'_, '_>, statement: T) -> Located<T>
    ensures value { result ≡ located lines.old tokens.now statement }
    ensures same { lines.new ≡ lines.old }
{
    let span = tokens.place_before(0);
    Located {
        statement,
        span,
        line: lines.line_of(span.start as usize),
    }
}

/// Whether the section at this place isn't closed.
fn is_unclosed(unclosed: Option<u32>, start: u32) -> bool
    ensures value { result ≡ is_unclosed unclosed start }
{
    match unclosed {
        Some(place) => start == place,
        None => false,
    }
}

impl<'a> Found<'a> {
    /// Nothing is read; takes no memory.
    pub(crate) fn new(alloc: Global) -> Found<'a>
        ensures value { result ≡ fresh_found }
    {
        Found {
            section: None,
            units: None,
            components: Rows::new(alloc),
            pins: Rows::new(alloc),
            nets: Rows::new(alloc),
            chains: Rows::new(alloc),
            sections: Rows::new(alloc),
        }
    }

    /// What is read, where UNITS is.
    pub(crate) fn into_design(self) -> Option<DesignText<'a>>
        ensures value { result ≡ design_of self.entry }
    {
        let Found {
            section: _,
            units,
            components,
            pins,
            nets,
            chains,
            sections,
        } = self;
        Some(DesignText {
            units: units?,
            components,
            pins,
            nets,
            chains,
            sections,
        })
    }

    /// What is read, where UNITS is and no section is open.
    pub(crate) fn into_closed(self) -> Option<DesignText<'a>>
        ensures value { result ≡ closed_design self.entry }
    {
        if self.section.is_some() {
            return None;
        }
        self.into_design()
    }

    /// Reads a statement outside sections: UNITS stands once.
    fn read_units(
        &mut self,
        alloc: Global,
        lines: &mut Lines<'_>,
        tokens: Tokens<'a, '_>,
    ) -> Result<(), Stop>
        ensures value { Turns result self.new (read_units lines.old self.old tokens.entry (statement_of units tokens.entry)) }
        ensures same { lines.new ≡ lines.old }
    {
        match statement_of(alloc, tokens.again()) {
            Ok(units) => {
                if self.units.is_some() {
                    return Err(Stop::NoForm);
                }
                self.units = Some(located(lines, &tokens, units));
                Ok(())
            }
            Err(Stop::NoForm) => Ok(()),
            Err(Stop::NoMemory) => Err(Stop::NoMemory),
        }
    }

    /// Reads the first statement of a section.
    fn read_head(
        &mut self,
        lines: &mut Lines<'_>,
        unclosed: Option<u32>,
        kind: SectionKind,
        tokens: &Tokens<'_, '_>,
    ) -> Result<(), Stop>
        ensures value { Turns result self.new (read_head lines.old unclosed self.old kind tokens.now) }
        ensures same { lines.new ≡ lines.old }
    {
        let start = start_of(tokens);
        if !is_head(tokens) || is_unclosed(unclosed, start) {
            return Err(Stop::NoForm);
        }
        let line = lines.line_of(start as usize);
        self.section = Some(Opened { kind, start, line });
        Ok(())
    }

    /// Reads a statement within a section.
    fn read_inside(
        &mut self,
        alloc: Global,
        lines: &mut Lines<'_>,
        kind: SectionKind,
        tokens: Tokens<'a, '_>,
    ) -> Result<(), Stop>
        ensures value { Turns result self.new (read_inside lines.old self.old kind tokens.entry) }
        ensures same { lines.new ≡ lines.old }
    {
        match kind {
            SectionKind::Components => {
                let component = statement_of(alloc, tokens.again())?;
                self.components.push(located(lines, &tokens, component))?;
            }
            SectionKind::Pins => {
                let pin = statement_of(alloc, tokens.again())?;
                self.pins.push(located(lines, &tokens, pin))?;
            }
            SectionKind::Nets => {
                let net = statement_of(alloc, tokens.again())?;
                self.nets.push(located(lines, &tokens, net))?;
            }
            SectionKind::ScanChains => {
                let chain = statement_of(alloc, tokens.again())?;
                self.chains.push(located(lines, &tokens, chain))?;
            }
        }
        Ok(())
    }

    /// Reads the END of a section.
    fn close(&mut self, opened: Opened, tokens: &Tokens<'_, '_>) -> Result<(), NoMemory>
        ensures value { OnOk result (self.new ≡ closed_by self.old opened tokens.now) }
    {
        let end = tokens.place_before(0).end;
        self.sections.push(Section {
            kind: opened.kind,
            span: Span {
                start: opened.start,
                end,
            },
            line: opened.line,
        })?;
        self.section = None;
        Ok(())
    }

    /// Reads the next statement; the section at one place isn't closed.
    #[tactic(auto, unfolding(crate::specs::Reading::read_turn))]
    pub(crate) fn turn(
        &mut self,
        alloc: Global,
        lines: &mut Lines<'_>,
        unclosed: Option<u32>,
        tokens: Tokens<'a, '_>,
    ) -> Result<(), Stop>
        ensures value { Turns result self.new (read_turn lines.old unclosed self.old tokens.entry) }
        ensures same { lines.new ≡ lines.old }
    {
        match self.section {
            Some(opened) => {
                if is_end(word_of(opened.kind), &tokens) {
                    self.close(opened, &tokens)?;
                    return Ok(());
                }
                self.read_inside(alloc, lines, opened.kind, tokens)
            }
            None => match opened_by(&tokens) {
                Some(kind) => self.read_head(lines, unclosed, kind, &tokens),
                None => self.read_units(alloc, lines, tokens),
            },
        }
    }

    /// Whether a statement is that of a component.
    fn is_component(&self, tokens: &Tokens<'_, '_>) -> bool
        ensures value { result ≡ is_component self.now.section tokens.now }
    {
        match self.section {
            Some(opened) => match opened.kind {
                SectionKind::Components => !is_end(b"COMPONENTS", tokens),
                SectionKind::Pins | SectionKind::Nets | SectionKind::ScanChains => false,
            },
            None => false,
        }
    }

    /// Reads the next statement of a text whose sections are closed, that of a component only where these are wanted.
    pub(crate) fn wanted_turn(
        &mut self,
        alloc: Global,
        lines: &mut Lines<'_>,
        components: bool,
        tokens: Tokens<'a, '_>,
    ) -> Result<(), Stop>
        ensures value { Turns result self.new (wanted_turn components lines.old self.old tokens.entry) }
        ensures same { lines.new ≡ lines.old }
    {
        if !components && self.is_component(&tokens) {
            return Ok(());
        }
        self.turn(alloc, lines, None, tokens)
    }
}
