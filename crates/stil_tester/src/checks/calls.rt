ghost use Rattle.std.specs.Prelude.{◌≡◌, ◌↔◌, All, IsTrue};
ghost use Rattle.stil_types.specs.Calls.{IsStringOf, is_compare_character, is_load_character, longest_string, string_length};
ghost use Rattle.stil_tester.specs.Shifting.{IsCallFor};

use crate::Chains;
use base_types::Text;
use stil_types::ScanCall;

/// Whether a call has a place for a load and for a compare of each chain, of their characters
/// alone, and shifts as often as its longest string has characters. It takes no memory.
pub fn is_call_for(chains: &Chains, call: &ScanCall) -> bool
    ensures { IsTrue result ↔ IsCallFor chains.now call.now }
{
    let bits = chains.chains.as_slice().len();
    let loads = call.loads.as_slice();
    let compares = call.compares.as_slice();
    loads.len() == bits
        && compares.len() == bits
        && are_loads(loads)
        && are_compares(compares)
        && call.shifts == longest(loads).max(longest(compares))
}

fn are_loads(strings: &[Option<Text>]) -> bool
    ensures { IsTrue result ↔ All (IsStringOf is_load_character) strings.now }
{
    for string in strings {
        if !is_load(string) {
            return false;
        }
    }
    true
}

fn is_load(string: &Option<Text>) -> bool
    ensures { IsTrue result ↔ IsStringOf is_load_character string.now }
{
    match string {
        None => true,
        Some(text) => text
            .bytes()
            .iter()
            .all(|character| matches!(*character, b'0' | b'1' | b'N')),
    }
}

fn are_compares(strings: &[Option<Text>]) -> bool
    ensures { IsTrue result ↔ All (IsStringOf is_compare_character) strings.now }
{
    for string in strings {
        if !is_compare(string) {
            return false;
        }
    }
    true
}

fn is_compare(string: &Option<Text>) -> bool
    ensures { IsTrue result ↔ IsStringOf is_compare_character string.now }
{
    match string {
        None => true,
        Some(text) => text
            .bytes()
            .iter()
            .all(|character| matches!(*character, b'L' | b'H' | b'X')),
    }
}

/// The characters of the longest string.
fn longest(strings: &[Option<Text>]) -> usize
    ensures { result ≡ longest_string strings.now }
{
    let mut most = 0;
    for string in strings {
        most = most.max(characters(string));
    }
    most
}

fn characters(string: &Option<Text>) -> usize
    ensures { result ≡ string_length string.now }
{
    match string {
        None => 0,
        Some(text) => text.bytes().len(),
    }
}
