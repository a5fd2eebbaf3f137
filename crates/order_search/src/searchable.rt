ghost use Rattle.std.specs.Prelude.{◌↔◌, IsTrue};
ghost use Rattle.order_search.specs.Searches.{AreSearchable};

use chain_rules::Rules;
use chain_rules::plain::is_legal;
use wire_cost::{Ends, are_placed};

const MANY: usize = 65536;

/// Whether rules and ends are such as each search asks: places at most 2^41 in size, an entry and an exit for each unit, a
/// start and a stop for each chain, 65,536 units and as many chains at most, and a legal plan as read.
pub fn are_searchable(rules: &Rules, ends: &Ends) -> bool
    ensures value { IsTrue result ↔ AreSearchable rules.now ends.now }
{
    let units = rules.units.as_slice().len();
    let chains = rules.chains.as_slice().len();
    are_placed(ends)
        && units <= ends.entry.as_slice().len()
        && units <= ends.exit.as_slice().len()
        && chains <= ends.start.as_slice().len()
        && chains <= ends.stop.as_slice().len()
        && units <= MANY
        && chains <= MANY
        && is_legal(rules, &rules.read)
}
