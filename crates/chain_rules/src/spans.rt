//! Spans of numbers, and how many of them have a number in common with another one.
ghost use Rattle.std.specs.Prelude.{◌≡◌, ◌+◌, ◌<◌, ◌≤◌, ◌↔◌, nat_lt, map, length, count_by, IsTrue, IfOk, All};
ghost use Rattle.std.specs.List.Sorted.{IsNonDecreasing, IsPermutation};
ghost use Rattle.chain_rules.specs.Spans.{MeetsAnother, MeetsOne, overlap, span_at};

use base_types::NoMemory;
use std::alloc::Global;
use std::marker::Model;

/// The numbers from one up to and without another.
#[derive(Clone, Copy)]
pub(crate) struct Span {
    pub from: usize,
    pub to: usize,
}

/// Spans, with where they begin and where they end, each in order. Contracts see them as a list.
#[derive(Drop)]
pub(crate) struct Spans {
    all: Vec<Span>,
    begins: Vec<usize>,
    ends: Vec<usize>,
}

impl Model for Spans {
    ghost use Rattle.std.specs.Prelude.{List};
    ghost use Rattle.chain_rules.specs.declared.spans.Span.{Span};
    ghost use Rattle.chain_rules.specs.Spans.{AreSorted};

    ghost Value = { List Span };

    ghost view = { λ s. s.all.items };

    ghost invariant = { λ s. AreSorted s.all.items s.begins.items s.ends.items };
}

impl Spans {
    /// The spans of a list, in time that grows a little faster than their number.
    pub fn of(alloc: Global, all: Vec<Span>) -> Result<Spans, NoMemory>
        requires ordered { All (λ s. s.from ≤ s.to) all.items }
        ensures value { IfOk result (λ spans. spans ≡ all.items) }
    {
        let begins = begins_of(alloc, &all)?;
        let ends = ends_of(alloc, &all)?;
        Ok(Spans { all, begins, ends })
    }

    /// The span of a number.
    pub fn at(&self, number: usize) -> Span
        requires number { number < length self.now }
        ensures value { result ≡ span_at self.now number }
    {
        self.all[number]
    }

    /// How many of the spans have a number in common with a span that has one.
    fn meeting(&self, span: Span) -> usize
        requires some { span.from < span.to }
        ensures value { result ≡ count_by (overlap span) self.now }
    {
        below(&self.begins, span.to) - below(&self.ends, span.from + 1)
    }

    /// Whether one of the spans has a number in common with this one.
    pub fn meet(&self, span: Span) -> bool
        requires none { span.to ≤ span.from → span.to ≡ 0 }
        ensures value { IsTrue result ↔ MeetsOne span self.now }
    {
        span.from < span.to && self.meeting(span) > 0
    }

    /// Whether another one of the spans has a number in common with that of a number.
    pub fn meet_another(&self, number: usize) -> bool
        requires number { number < length self.now }
        requires some { (span_at self.now number).from < (span_at self.now number).to }
        ensures value { IsTrue result ↔ MeetsAnother self.now number }
    {
        self.meeting(self.at(number)) > 1
    }
}

/// Where the spans begin, in order.
fn begins_of(alloc: Global, spans: &[Span]) -> Result<Vec<usize>, NoMemory>
    ensures same { IfOk result (λ numbers. IsPermutation (map (λ s. s.from) spans.now) numbers.items) }
    ensures rise { IfOk result (λ numbers. IsNonDecreasing numbers.items) }
{
    let mut numbers = Vec::with_capacity(alloc, spans.len())?;
    for span in spans {
        numbers.push(span.from)?;
    }
    numbers.sort_unstable();
    Ok(numbers)
}

/// Where the spans end, in order.
fn ends_of(alloc: Global, spans: &[Span]) -> Result<Vec<usize>, NoMemory>
    ensures same { IfOk result (λ numbers. IsPermutation (map (λ s. s.to) spans.now) numbers.items) }
    ensures rise { IfOk result (λ numbers. IsNonDecreasing numbers.items) }
{
    let mut numbers = Vec::with_capacity(alloc, spans.len())?;
    for span in spans {
        numbers.push(span.to)?;
    }
    numbers.sort_unstable();
    Ok(numbers)
}

/// How many of some numbers in order are below a limit.
fn below(numbers: &[usize], limit: usize) -> usize
    requires rise { IsNonDecreasing numbers.now }
    ensures value { result ≡ count_by (λ n. nat_lt n limit) numbers.now }
{
    numbers.partition_point(
        |n: &usize| -> bool
            ensures { result ≡ nat_lt n.now limit }
        { *n < limit },
    )
}
