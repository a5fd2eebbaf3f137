//! Rules and ends made at random, the same on every machine.
ghost use Rattle.std.specs.Prelude.{◌<◌};

use crate::dice::Dice;
use base_types::{NoMemory, Point, Rows};
use chain_rules::{ChainRule, Plan, Rules, Unit};
use std::alloc::Global;
use wire_cost::Ends;

/// The side of the square on which units stand, in half database units.
const SIDE: u64 = 2000000;

/// Where the ends of the chains stand.
#[derive(Clone, Copy, PartialEq, Eq)]
pub(crate) enum Layout {
    /// Starts on the left and stops on the right, each chain at a height of its own; units as the generator places them.
    Generated,
    /// The same with units at random.
    Across,
    /// All ends near the middle.
    Middle,
    /// Ends at random.
    Random,
    /// All units and ends at one place; those of each second chain have seven bits and are left far from their entry, the
    /// others have one and are entered there. Each of a chain would stand between two of the other for nothing.
    Opposed,
    /// One chain along the lower side of a square of 2^20, its units at random by another sequence and each left a little beside its
    /// entry.
    Square,
}

/// The side of the square of one chain.
const SQUARE: u64 = 1048576;

/// How far apart a unit's entry and exit are where each of a chain would stand between two of the other.
const FAR: i64 = 200000;

/// What a case is made of.
#[derive(Clone, Copy)]
pub(crate) struct Case {
    pub(crate) layout: Layout,
    pub(crate) units: u32,
    pub(crate) chains: u32,
    /// Each unit is left some micrometres beside its entry.
    pub(crate) is_apart: bool,
    /// No chain may hold more bits than as read.
    pub(crate) is_tight: bool,
    /// Units have one, two, four or eight bits.
    pub(crate) is_uneven: bool,
    /// A tenth of the units have several bits and an exit far from the entry.
    pub(crate) is_ordered: bool,
}

/// A number below a million million.
fn coordinate(dice: &mut Dice, sides: u64) -> i64
    requires { 0 < sides }
{
    (dice.roll(sides) % 1099511627776) as i64
}

fn point(dice: &mut Dice, sides: u64) -> Point
    requires { 0 < sides }
{
    let x = coordinate(dice, sides);
    let y = coordinate(dice, sides);
    Point { x, y }
}

fn moved(place: Point, x: i64, y: i64) -> Point {
    Point {
        x: place.x.wrapping_add(x),
        y: place.y.wrapping_add(y),
    }
}

/// The next number of the generator, and a place of its grid by it.
fn next(seed: u64) -> u64 {
    seed.wrapping_mul(1103515245).wrapping_add(12345) % 2147483648
}

fn grid(seed: u64) -> i64 {
    ((seed % 1000) as i64).wrapping_mul(2000).wrapping_add(2000)
}

/// The next number of a sequence of full period.
fn long_next(seed: u64) -> u64 {
    seed.wrapping_mul(6364136223846793005)
        .wrapping_add(1442695040888963407)
}

/// Where the units are entered.
fn entries(alloc: Global, case: Case, dice: &mut Dice) -> Result<Vec<Point>, NoMemory> {
    let mut places = Vec::with_capacity(alloc, case.units as usize)?;
    let mut seed = if case.layout == Layout::Square {
        12345u64
    } else {
        1
    };
    for unit in 0..case.units {
        if case.layout == Layout::Opposed {
            let x = i64::from(unit % 2).wrapping_mul(FAR);
            places.push(Point { x, y: 0 })?;
        } else if case.layout == Layout::Square {
            let x = long_next(seed);
            seed = long_next(x);
            places.push(Point {
                x: ((x >> 33) % SQUARE) as i64,
                y: ((seed >> 33) % SQUARE) as i64,
            })?;
        } else if case.layout == Layout::Generated {
            let x = next(seed);
            seed = next(x);
            places.push(Point {
                x: grid(x),
                y: grid(seed),
            })?;
        } else {
            places.push(point(dice, SIDE))?;
        }
    }
    Ok(places)
}

/// Where a unit is left that is entered at a place.
fn exit(case: Case, dice: &mut Dice, place: Point) -> Point {
    if case.layout == Layout::Opposed {
        return Point {
            x: FAR.wrapping_sub(place.x),
            y: place.y,
        };
    }
    if case.layout == Layout::Square {
        return moved(place, 400, 0);
    }
    if !case.is_apart {
        return place;
    }
    let x = coordinate(dice, 4001).wrapping_add(4000);
    let y = coordinate(dice, 1001);
    let x = if dice.roll(2) == 1 {
        x.wrapping_neg()
    } else {
        x
    };
    let y = if dice.roll(2) == 1 {
        y.wrapping_neg()
    } else {
        y
    };
    moved(place, x, y)
}

/// The bits of a unit that isn't of an ORDERED list.
fn bits(case: Case, dice: &mut Dice) -> u32 {
    if !case.is_uneven {
        return 1;
    }
    match dice.roll(10) {
        0..=5 => 1,
        6 | 7 => 2,
        8 => 4,
        _ => 8,
    }
}

/// The start and the stop of a chain.
fn chain_ends(case: Case, dice: &mut Dice, chain: u32) -> (Point, Point) {
    let side = SIDE as i64;
    let chains = i64::from(case.chains.max(1));
    let height = match case.layout {
        Layout::Generated => i64::from(chain).wrapping_mul(200000),
        _ => side.wrapping_mul(i64::from(chain)).wrapping_div(chains),
    };
    match case.layout {
        Layout::Generated | Layout::Across => (
            Point { x: 0, y: height },
            Point { x: side, y: height },
        ),
        Layout::Middle => {
            let start = point(dice, 40000);
            let stop = point(dice, 40000);
            let middle = Point {
                x: side / 2,
                y: side / 2,
            };
            (
                moved(middle, start.x, start.y),
                moved(middle, stop.x, stop.y.wrapping_neg()),
            )
        }
        Layout::Opposed => (Point { x: 0, y: 0 }, Point { x: 0, y: 0 }),
        Layout::Square => {
            let x = SQUARE as i64;
            (Point { x: 0, y: 0 }, Point { x, y: 0 })
        }
        Layout::Random => {
            let start = point(dice, SIDE);
            (start, point(dice, SIDE))
        }
    }
}

/// The units and where they are left.
fn add_units(
    alloc: Global,
    case: Case,
    dice: &mut Dice,
    entry: &[Point],
) -> Result<(Rows<Unit>, Rows<Point>), NoMemory> {
    let mut units = Rows::new(alloc);
    let mut exits = Rows::new(alloc);
    for place in entry {
        let mut left = exit(case, dice, *place);
        let mut has = bits(case, dice);
        if case.layout == Layout::Opposed && place.x == 0 {
            has = 7;
        }
        if case.is_ordered && dice.roll(10) == 0 {
            let far = point(dice, 400000);
            left = moved(
                *place,
                far.x.wrapping_sub(200000),
                far.y.wrapping_sub(200000),
            );
            has = (dice.roll(6) % 6) as u32 + 2;
        }
        units.push(Unit {
            path: 0,
            first: 0,
            last: 0,
            bits: has,
            pinned: false,
        })?;
        exits.push(left)?;
    }
    Ok((units, exits))
}

/// What a chain may hold that was read with so many bits.
fn rule(case: Case, chain: u32, bits: u32) -> ChainRule {
    let is_generated = case.layout == Layout::Generated;
    ChainRule {
        path: chain,
        first: 0,
        last: 0,
        partition: if is_generated { chain / 4 } else { 0 },
        bound: if case.is_tight {
            bits
        } else {
            bits.wrapping_add(4)
        },
        keeps_bit: bits > 0,
    }
}

/// The units that are read into a chain, and their bits.
fn read_chain(
    alloc: Global,
    case: Case,
    units: &[Unit],
    chain: u32,
) -> Result<(Vec<u32>, u32), NoMemory> {
    let mut read = Vec::new(alloc);
    let mut bits = 0u32;
    for unit in 0..case.units {
        if unit % case.chains.max(1) == chain && (unit as usize) < units.len() {
            read.push(unit)?;
            bits = bits.wrapping_add(units[unit as usize].bits);
        }
    }
    Ok((read, bits))
}

/// The rules and the ends of a case; the units are read in turn into its chains.
pub(crate) fn case_of(alloc: Global, case: Case) -> Result<(Rules, Ends), NoMemory> {
    let mut dice = Dice::new();
    let places = entries(alloc, case, &mut dice)?;
    let (units, exit) = add_units(alloc, case, &mut dice, places.as_slice())?;
    let mut chains = Rows::new(alloc);
    let mut start = Rows::new(alloc);
    let mut stop = Rows::new(alloc);
    let mut read = Vec::new(alloc);
    for chain in 0..case.chains {
        let ends = chain_ends(case, &mut dice, chain);
        start.push(Some(ends.0))?;
        stop.push(Some(ends.1))?;
        let (listed, bits) = read_chain(alloc, case, units.as_slice(), chain)?;
        chains.push(rule(case, chain, bits))?;
        read.push(listed)?;
    }
    let rules = Rules {
        units,
        chains,
        read: Plan::of(read),
    };
    let ends = Ends {
        entry: Rows::of(places),
        exit,
        start,
        stop,
    };
    Ok((rules, ends))
}
