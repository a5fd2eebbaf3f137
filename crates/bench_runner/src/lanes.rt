//! The kernels, plain bodies and lanes side by side in one run.
ghost use Rattle.std.specs.Prelude.{◌≡◌, length};
ghost use Rattle.lane_kernels.specs.Kernels.{AreNear};

use crate::dice::Dice;
use lane_kernels::plain;
use std::alloc::{Alloc, AllocError, Global};
use std::io;
use std::rt::Clock;
use std::time::{Duration, Instant};

#[derive(Clone, Copy)]
enum Kernel {
    CountByte,
    FlipWhere,
    AnyByteOutside,
    FirstGain,
}

const KERNELS: [(Kernel, &str); 4] = [
    (Kernel::CountByte, "count_byte"),
    (Kernel::FlipWhere, "flip_where"),
    (Kernel::AnyByteOutside, "any_byte_outside"),
    (Kernel::FirstGain, "first_gain"),
];

/// What a kernel goes over.
#[derive(Drop)]
struct Data {
    text: Vec<u8>,
    mask: Vec<u8>,
    xs: Vec<i64>,
    ys: Vec<i64>,
}

impl Data {
    fn new(alloc: Global, length: usize) -> Result<Data, AllocError> {
        let mut dice = Dice::new();
        let mut data = Data {
            text: Vec::new(alloc),
            mask: Vec::new(alloc),
            xs: Vec::new(alloc),
            ys: Vec::new(alloc),
        };
        for _ in 0..length {
            data.text.push(dice.symbol(b"01NLHX01"))?;
            data.mask.push(dice.symbol(&[0, 1, 0, 1, 1, 0, 0, 1]))?;
            data.xs.push(dice.roll(2_000_000) as i64)?;
            data.ys.push(dice.roll(2_000_000) as i64)?;
        }
        Ok(data)
    }
}

fn count(text: &[u8], rounds: usize, by_lanes: bool) -> usize {
    let mut sum = 0usize;
    for round in 0..rounds {
        let byte = (round % 128) as u8;
        sum = sum.wrapping_add(if by_lanes {
            lane_kernels::count_byte(text, byte)
        } else {
            plain::count_byte(text, byte)
        });
    }
    sum
}

fn flip(text: &mut [u8], mask: &[u8], rounds: usize, by_lanes: bool) -> usize {
    let fits = text.len() == mask.len();
    for _ in 0..rounds {
        if fits {
            if by_lanes {
                lane_kernels::flip_where(text, mask);
            } else {
                plain::flip_where(text, mask);
            }
        }
    }
    usize::from(fits)
}

/// The first byte changes in each round, so that none can be left out.
fn outside(text: &mut [u8], rounds: usize, by_lanes: bool) -> usize {
    let mut sum = 0usize;
    for round in 0..rounds {
        if let Some(first) = text.first_mut() {
            *first = if round % 2 == 0 { b'X' } else { b'0' };
        }
        let found = if by_lanes {
            lane_kernels::any_byte_outside(text, b"01NLHX")
        } else {
            plain::any_byte_outside(text, b"01NLHX")
        };
        sum = sum.wrapping_add(found.unwrap_or(1));
    }
    sum
}

/// Other points in each round, and a limit that no sum is below, so that each call goes over the whole rows.
fn aim(round: usize) -> (i64, i64, i64, i64, i64)
    ensures { AreNear result.0 result.1 result.2 result.3 }
{
    let round = (round % 1000) as i64;
    (round, 1000 - round, 2 * round, 3000 - round, -round)
}

fn gains(xs: &[i64], ys: &[i64], rounds: usize, by_lanes: bool) -> usize {
    if !plain::are_rows(xs, ys, ys, xs, xs) {
        return 0;
    }
    let mut sum = 0usize;
    for round in 0..rounds {
        let (px, py, qx, qy, limit) = aim(round);
        let found = if by_lanes {
            lane_kernels::first_gain(px, py, qx, qy, xs, ys, ys, xs, xs, limit)
        } else {
            plain::first_gain(px, py, qx, qy, xs, ys, ys, xs, xs, limit)
        };
        sum = sum.wrapping_add(found.unwrap_or(1));
    }
    sum
}

/// What a kernel answers in some rounds, and how long these take.
fn time(
    rt: &impl Clock,
    kernel: Kernel,
    data: &mut Data,
    rounds: usize,
    by_lanes: bool,
) -> io::Result<(Duration, usize)> {
    let start = Instant::now(rt)?;
    let sum = match kernel {
        Kernel::CountByte => count(&data.text, rounds, by_lanes),
        Kernel::FlipWhere => flip(&mut data.text, &data.mask, rounds, by_lanes),
        Kernel::AnyByteOutside => outside(&mut data.text, rounds, by_lanes),
        Kernel::FirstGain => gains(&data.xs, &data.ys, rounds, by_lanes),
    };
    Ok((start.elapsed(rt)?, sum))
}

/// What rounds of a kernel take at best.
#[derive(Clone, Copy)]
struct Sample {
    plain: Duration,
    lanes: Duration,
    is_alike: bool,
}

/// The shorter times of so many tries, and whether both bodies answered alike in each.
fn measure(
    rt: &(impl Alloc<A = Global> + Clock),
    kernel: Kernel,
    length: usize,
    rounds: usize,
    tries: usize,
) -> io::Result<Sample> {
    let mut best = Sample {
        plain: Duration::MAX,
        lanes: Duration::MAX,
        is_alike: true,
    };
    for _ in 0..tries {
        let mut one = Data::new(rt.alloc(), length)?;
        let mut other = Data::new(rt.alloc(), length)?;
        let (plain, by_one) = time(rt, kernel, &mut one, rounds, false)?;
        let (lanes, by_lanes) = time(rt, kernel, &mut other, rounds, true)?;
        best = Sample {
            plain: best.plain.min(plain),
            lanes: best.lanes.min(lanes),
            is_alike: best.is_alike && by_one == by_lanes && one.text == other.text,
        };
    }
    Ok(best)
}

/// A hundredth of the unit in which a kernel is measured: GB a second, or nanoseconds an element.
fn hundredths(kernel: Kernel, elements: usize, time: Duration) -> u128 {
    let elements = (elements as u128).max(1);
    let nanos = time.as_nanos().max(1);
    match kernel {
        Kernel::FirstGain => nanos.saturating_mul(100) / elements,
        _ => elements.saturating_mul(100) / nanos,
    }
}

/// Runs each kernel at three lengths, and prints whether both bodies answer alike, and the best times of twenty tries where these are
/// asked for.
pub(crate) fn run(rt: &(impl Alloc<A = Global> + Clock + Print), is_timed: bool) -> io::Result<()> {
    let (tries, elements) = if is_timed {
        (20, 10_000_000)
    } else {
        (1, 300_000)
    };
    for length in [64usize, 1_000, 100_000] {
        for (kernel, name) in KERNELS {
            let best = measure(rt, kernel, length, elements / length.max(1), tries)?;
            let answers = if best.is_alike { "alike" } else { "NOT ALIKE" };
            println!(rt; "{name} {length} {answers}")?;
            if is_timed {
                let plain = hundredths(kernel, elements, best.plain);
                let lanes = hundredths(kernel, elements, best.lanes);
                let times = best.plain.as_nanos().saturating_mul(100)
                    / best.lanes.as_nanos().max(1);
                println!(rt;
                    "  plain {}.{:02}, lanes {}.{:02}, {}.{:02} times",
                    plain / 100,
                    plain % 100,
                    lanes / 100,
                    lanes % 100,
                    times / 100,
                    times % 100
                )?;
            }
        }
    }
    Ok(())
}
