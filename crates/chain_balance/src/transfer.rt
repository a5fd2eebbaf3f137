//! A unit that goes from one chain to another.
ghost use Rattle.std.specs.Prelude.{◌≡◌, ◌≢◌, ◌<◌, ◌≤◌, ◌+◌, ◌^◌, length, slice_index_or, nat_eq, count_by, OnOk};
ghost use Rattle.chain_rules.specs.Legality.{rule_at, IsIn, moved_plan};
ghost use Rattle.chain_balance.specs.Balance.{AreOnPaths};
ghost use Rattle.chain_balance.specs.Gains.{at_place, bits_in, load_of, went, IsWork, OneMayGo};

use crate::gains::Gain;
use crate::paths::unit_bits;
use crate::work::Work;
use base_types::NoMemory;
use chain_rules::Rules;

/// Takes bits from one place to another.
fn pass_bits(list: &mut [u32], from: usize, to: usize, bits: u32)
    requires from { from < length list.old }
    requires to { to < length list.old }
    requires other { from ≢ to }
    requires some { bits ≤ slice_index_or list.old from 0 }
    requires fits { slice_index_or list.old to 0 + bits < 2 ^ 32 }
    ensures value { list.new ≡ went list.old from to bits }
{
    list[from] -= bits;
    list[to] += bits;
}

/// Puts a unit to the front of a chain of another path.
pub(crate) fn move_unit(
    rules: &Rules,
    fixed: &[u32],
    work: &mut Work,
    most: u32,
    gain: Gain,
) -> Result<(), NoMemory>
    requires is { IsWork rules.now fixed.now work.old most }
    requires paths { AreOnPaths rules.now (length fixed.now) }
    requires from { IsIn work.old.plan (at_place gain.giver gain.place) }
    requires taker { gain.taker < length work.old.plan.chains }
    requires other { (rule_at rules.now gain.giver).path ≢ (rule_at rules.now gain.taker).path }
    requires room { load_of work.old.paths.items (rule_at rules.now gain.taker).path + bits_in rules.now work.old.plan (at_place gain.giver gain.place) ≤ most }
    ensures plan { OnOk result (work.new.plan ≡ moved_plan work.old.plan (at_place gain.giver gain.place) (at_place gain.taker 0)) }
    ensures loads { OnOk result (work.new.paths.items ≡ went work.old.paths.items (rule_at rules.now gain.giver).path (rule_at rules.now gain.taker).path (bits_in rules.now work.old.plan (at_place gain.giver gain.place))) }
    ensures held { OnOk result (work.new.chains.items ≡ went work.old.chains.items gain.giver gain.taker (bits_in rules.now work.old.plan (at_place gain.giver gain.place))) }
{
    let giver = rules.chains.as_slice()[gain.giver].path as usize;
    let taker = rules.chains.as_slice()[gain.taker].path as usize;
    let unit = work.plan.remove(gain.giver, gain.place);
    work.plan.insert(gain.taker, 0, unit)?;
    let bits = unit_bits(rules, unit);
    pass_bits(work.paths.as_mut_slice(), giver, taker, bits);
    pass_bits(work.chains.as_mut_slice(), gain.giver, gain.taker, bits);
    Ok(())
}

/// Puts a unit that may go to the front of another chain.
pub(crate) fn go(
    rules: &Rules,
    fixed: &[u32],
    work: &mut Work,
    most: u32,
    gain: Gain,
) -> Result<(), NoMemory>
    requires is { IsWork rules.now fixed.now work.old most }
    requires paths { AreOnPaths rules.now (length fixed.now) }
    requires may { OneMayGo rules.now work.old.paths.items most work.old.plan (at_place gain.giver gain.place) (at_place gain.taker 0) }
    ensures is { OnOk result (IsWork rules.now fixed.now work.new most) }
    ensures fewer { OnOk result (count_by (nat_eq most) work.new.paths.items < count_by (nat_eq most) work.old.paths.items) }
{
    move_unit(rules, fixed, work, most, gain)?;
    Ok(())
}
