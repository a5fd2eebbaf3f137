//! Plans that are searched: chains on lines by hand, and small rules from a row of numbers without a pattern.
//!
//! A row of `orders.toml` has chains of one-bit units, each from x = 0 on a line to its stop there: `rules` with the y of
//! each, the x of its stop, and how many bits it may hold; `places` with x and y where each unit is entered and where it is
//! left, and 1 where it is pinned. Its `plan` is the one as read. Its `searches` are each a search, the plan that it starts
//! with, and what comes: the plan, its length, and whether it is settled for orders and for all steps.
ghost use Rattle.std.specs.Prelude.{◌<◌};
ghost use Rattle.chain_rules.specs.Legality.{IsLegal};
ghost use Rattle.order_search.specs.Searches.{AreSearchable};

use crate::rows::{list, number_of, text, text_of};
use crate::rules::put_plan;
use crate::steps::plan_of;
use base_types::{NoMemory, Point, Rows};
use chain_rules::plain::is_legal;
use chain_rules::{ChainRule, Plan, Rules, Unit};
use order_search::plain::{is_settled, length_of};
use order_search::{Effort, are_searchable, nearest_plan, settle_order};
use partition_moves::settle_all;
use plan_search::{Quiet, search_plan};
use row_forms::{Cases, Part, items_of, put};
use std::alloc::Global;
use toml::Value;
use wire_cost::Ends;

/// How many rules are made.
const MADE: u64 = 30;

/// What is looked at.
#[derive(Clone, Copy)]
enum Search {
    /// The plan itself.
    Still,
    /// The plan of nearest neighbours.
    Nearest,
    /// The plan with its orders settled.
    Order,
    /// The plan settled for all steps.
    All,
}

/// The search of a name, if there is one.
fn search_of(name: &str) -> Option<Search> {
    match name {
        "Still" => Some(Search::Still),
        "Nearest" => Some(Search::Nearest),
        "Order" => Some(Search::Order),
        "All" => Some(Search::All),
        _ => None,
    }
}

/// No rules yet.
fn no_rules(alloc: Global) -> Rules {
    Rules {
        units: Rows::new(alloc),
        chains: Rows::new(alloc),
        read: Plan::of(Vec::new(alloc)),
    }
}

/// No ends yet.
fn no_ends(alloc: Global) -> Ends {
    Ends {
        entry: Rows::new(alloc),
        exit: Rows::new(alloc),
        start: Rows::new(alloc),
        stop: Rows::new(alloc),
    }
}

/// The number at a place of a list.
fn number_at(list: &[Value], at: usize) -> i64 {
    match list.get(at) {
        Some(value) => number_of(value),
        None => 0,
    }
}

/// The text at a place of a list.
fn text_at(list: &[Value], at: usize) -> &str {
    match list.get(at) {
        Some(value) => text_of(value),
        None => "",
    }
}

/// Puts a unit behind others.
fn put_unit(rules: &mut Rules, ends: &mut Ends, place: &[Value]) -> Result<(), NoMemory> {
    rules.units.push(Unit {
        path: 0,
        first: 0,
        last: 0,
        bits: 1,
        pinned: number_at(place, 4) == 1,
    })?;
    ends.entry.push(Point {
        x: number_at(place, 0),
        y: number_at(place, 1),
    })?;
    ends.exit.push(Point {
        x: number_at(place, 2),
        y: number_at(place, 3),
    })
}

/// Puts a chain behind others.
fn put_chain(rules: &mut Rules, ends: &mut Ends, rule: &[Value]) -> Result<(), NoMemory> {
    rules.chains.push(ChainRule {
        path: 0,
        first: 0,
        last: 0,
        partition: 0,
        bound: u32::try_from(number_at(rule, 2)).unwrap_or(0),
        keeps_bit: true,
    })?;
    let (x, y) = (number_at(rule, 1), number_at(rule, 0));
    let is_nowhere = number_at(rule, 3) == 1;
    let start = Point { x: 0, y };
    ends.start
        .push(if is_nowhere { None } else { Some(start) })?;
    ends.stop.push(if is_nowhere {
        None
    } else {
        Some(Point { x, y })
    })
}

/// Puts the units and chains of a row behind others.
fn put_lines(rules: &mut Rules, ends: &mut Ends, row: &Value) -> Result<(), NoMemory> {
    for place in list(row, "places") {
        put_unit(rules, ends, items_of(place))?;
    }
    for rule in list(row, "rules") {
        put_chain(rules, ends, items_of(rule))?;
    }
    Ok(())
}

/// Lets a plan be the one that a search makes of it.
fn search_from(
    alloc: Global,
    rules: &Rules,
    ends: &Ends,
    search: Search,
    plan: &mut Plan,
) -> Result<(), NoMemory>
    requires searchable { AreSearchable rules.now ends.now }
    requires legal { IsLegal rules.now plan.old }
{
    match search {
        Search::Still => Ok(()),
        Search::Nearest => {
            *plan = nearest_plan(alloc, rules, ends)?;
            Ok(())
        }
        Search::Order => settle_order(alloc, rules, ends, plan),
        Search::All => settle_all(alloc, rules, ends, plan),
    }
}

/// Puts a plan behind a text, its length, and whether it is settled for orders and for all steps.
fn put_measured(
    alloc: Global,
    came: &mut String,
    rules: &Rules,
    ends: &Ends,
    plan: &Plan,
) -> Result<(), NoMemory>
    requires searchable { AreSearchable rules.now ends.now }
    requires legal { IsLegal rules.now plan.now }
{
    put_plan(came, plan)?;
    let order = is_settled(alloc, Effort::Order, rules, ends, plan)?;
    let all = is_settled(alloc, Effort::Full, rules, ends, plan)?;
    put(
        came,
        &[
            Part::Text(" "),
            Part::Signed(length_of(rules, ends, plan)),
            Part::Text(if order { " true" } else { " false" }),
            Part::Text(if all { " true" } else { " false" }),
        ],
    )
}

/// Puts what comes of a search behind a text.
fn put_found(
    alloc: Global,
    came: &mut String,
    rules: &Rules,
    ends: &Ends,
    name: &str,
    plan: &mut Plan,
) -> Result<(), NoMemory> {
    let Some(search) = search_of(name) else {
        return put(came, &[Part::Text("no such search")]);
    };
    if !are_searchable(rules, ends) || !is_legal(rules, plan) {
        return put(came, &[Part::Text("not legal")]);
    }
    search_from(alloc, rules, ends, search, plan)?;
    if !is_legal(rules, plan) {
        return put(came, &[Part::Text("not legal")]);
    }
    put_measured(alloc, came, rules, ends, plan)
}

/// Tries a search of a row, whose texts are put together here.
fn try_search(
    cases: &mut Cases,
    row: &Value,
    rules: &Rules,
    ends: &Ends,
    search: &[Value],
    name: &mut String,
    came: &mut String,
) -> Result<(), NoMemory> {
    let kind = text_at(search, 0);
    name.push_str(text(row, "name"))?;
    name.push_str(", ")?;
    name.push_str(kind)?;
    let mut plan = plan_of(cases.alloc, text_at(search, 1))?;
    put_found(cases.alloc, came, rules, ends, kind, &mut plan)?;
    cases.compare(name.as_str(), came.as_str(), text_at(search, 2))
}

/// Tries the searches of a row, whose rules and ends are filled here.
fn try_lines(
    cases: &mut Cases,
    row: &Value,
    rules: &mut Rules,
    ends: &mut Ends,
) -> Result<(), NoMemory> {
    rules.read = plan_of(cases.alloc, text(row, "plan"))?;
    put_lines(rules, ends, row)?;
    for search in list(row, "searches") {
        let mut name = String::new(cases.alloc);
        let mut came = String::new(cases.alloc);
        let search = items_of(search);
        try_search(cases, row, rules, ends, search, &mut name, &mut came)?;
    }
    Ok(())
}

pub(crate) fn try_row(cases: &mut Cases, row: &Value) -> Result<(), NoMemory> {
    let mut rules = no_rules(cases.alloc);
    let mut ends = no_ends(cases.alloc);
    try_lines(cases, row, &mut rules, &mut ends)
}

/// A number below `sides`, from a row of numbers without a pattern.
fn roll(seed: &mut u64, sides: u64) -> u64
    requires { 0 < sides }
    ensures { result < sides }
{
    *seed = seed
        .wrapping_mul(6364136223846793005)
        .wrapping_add(1442695040888963407);
    (*seed >> 33) % sides
}

fn point(seed: &mut u64) -> Point {
    let x = roll(seed, 12) as i64;
    let y = roll(seed, 12) as i64;
    Point { x, y }
}

fn point_or_nowhere(seed: &mut u64) -> Option<Point> {
    if roll(seed, 8) == 0 {
        None
    } else {
        Some(point(seed))
    }
}

/// Puts a unit of up to two bits behind others, which may be pinned where it is the last of its chain. How many bits it has.
fn put_made_unit(
    seed: &mut u64,
    rules: &mut Rules,
    ends: &mut Ends,
    is_last: bool,
) -> Result<u32, NoMemory> {
    let bits = roll(seed, 3) as u32;
    rules.units.push(Unit {
        path: 0,
        first: 0,
        last: 0,
        bits,
        pinned: is_last && roll(seed, 3) == 0,
    })?;
    ends.entry.push(point(seed))?;
    ends.exit.push(point(seed))?;
    Ok(bits)
}

/// Puts a chain of so many bits behind others, whose bound leaves up to three bits.
fn put_made_rule(
    seed: &mut u64,
    rules: &mut Rules,
    ends: &mut Ends,
    bits: u32,
) -> Result<(), NoMemory> {
    rules.chains.push(ChainRule {
        path: 0,
        first: 0,
        last: 0,
        partition: (roll(seed, 4) / 3) as u32,
        bound: bits.wrapping_add(roll(seed, 4) as u32),
        keeps_bit: bits > 0,
    })?;
    ends.start.push(point_or_nowhere(seed))?;
    ends.stop.push(point_or_nowhere(seed))
}

/// Puts a chain of up to four units behind others, and its units behind none.
fn put_made_chain(
    seed: &mut u64,
    rules: &mut Rules,
    ends: &mut Ends,
    units: &mut Vec<u32>,
) -> Result<(), NoMemory> {
    let count = roll(seed, 4) + 1;
    let mut bits = 0u32;
    for k in 0..count {
        units.push(u32::try_from(rules.units.as_slice().len()).unwrap_or(0))?;
        let more = put_made_unit(seed, rules, ends, k + 1 == count)?;
        bits = bits.wrapping_add(more);
    }
    put_made_rule(seed, rules, ends, bits)
}

/// Puts one to three chains behind none.
fn put_made(
    alloc: Global,
    seed: &mut u64,
    rules: &mut Rules,
    ends: &mut Ends,
    lists: &mut Vec<Vec<u32>>,
) -> Result<(), NoMemory> {
    for _ in 0..roll(seed, 3) + 1 {
        let mut units = Vec::new(alloc);
        put_made_chain(seed, rules, ends, &mut units)?;
        lists.push(units)?;
    }
    Ok(())
}

/// Lets rules be made ones of one to three chains.
fn make(alloc: Global, seed: &mut u64, rules: &mut Rules, ends: &mut Ends) -> Result<(), NoMemory> {
    let mut lists = Vec::new(alloc);
    put_made(alloc, seed, rules, ends, &mut lists)?;
    rules.read = Plan::of(lists);
    Ok(())
}

/// What is wrong with the searched plan of made rules: it is to be legal and settled, as long as it says and no longer than the read
/// one, and the same when it is searched again.
fn flaw(alloc: Global, rules: &Rules, ends: &Ends, effort: Effort) -> Result<&'static str, NoMemory>
    requires searchable { AreSearchable rules.now ends.now }
{
    let found = search_plan(alloc, rules, ends, effort, &Quiet)?;
    let again = search_plan(alloc, rules, ends, effort, &Quiet)?;
    Ok(if !is_legal(rules, &found.plan) {
        "not legal"
    } else if !is_settled(alloc, effort, rules, ends, &found.plan)? {
        "not settled"
    } else if found.length != length_of(rules, ends, &found.plan) {
        "another length"
    } else if found.length > length_of(rules, ends, &rules.read) {
        "longer"
    } else if found.plan.lists() != again.plan.lists() {
        "another plan when it is searched again"
    } else {
        "none"
    })
}

/// Tries made rules, which are filled here.
fn try_rules(
    cases: &mut Cases,
    seed: &mut u64,
    rules: &mut Rules,
    ends: &mut Ends,
) -> Result<(), NoMemory> {
    make(cases.alloc, seed, rules, ends)?;
    if !are_searchable(rules, ends) {
        return cases.compare("made rules", "not searchable", "searchable");
    }
    for effort in [Effort::Order, Effort::Full] {
        let flaw = flaw(cases.alloc, rules, ends, effort)?;
        cases.compare("made rules", flaw, "none")?;
    }
    Ok(())
}

/// Tries made rules.
pub(crate) fn try_made(cases: &mut Cases) -> Result<(), NoMemory> {
    let mut seed = 2024;
    for _ in 0..MADE {
        let mut rules = no_rules(cases.alloc);
        let mut ends = no_ends(cases.alloc);
        try_rules(cases, &mut seed, &mut rules, &mut ends)?;
    }
    Ok(())
}
