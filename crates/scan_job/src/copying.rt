ghost use Rattle.std.specs.Prelude.{◌≡◌, ◌<◌, ◌^◌, ℕ, decimal, IfOk};

use base_types::{Name, NoMemory, Rows, Word};
use std::alloc::Global;

/// The word as a name.
pub(crate) fn name_of(alloc: Global, word: &Word) -> Result<Name, NoMemory>
    ensures value { IfOk result (λ name. name ≡ word.now) }
{
    Name::copy(alloc, word.as_str().as_bytes())
}

/// A copy of the word.
pub(crate) fn word_of(alloc: Global, word: &Word) -> Result<Word, NoMemory>
    ensures value { IfOk result (λ copy. copy ≡ word.now) }
{
    Word::copy(alloc, word.as_str())
}

/// The number of which a word is the decimal.
pub(crate) fn number_of(word: &Word) -> u32
    requires said { (number : ℕ) × (number < 2 ^ 32) × (word.now ≡ decimal number) }
    ensures value { word.now ≡ decimal result }
{
    match word.as_str().parse::<u32>() {
        Ok(number) => number,
        Err(_) => unreachable!(),
    }
}

/// The words as names.
pub(crate) fn names_in(alloc: Global, words: &[Word]) -> Result<Rows<Name>, NoMemory>
    ensures value { IfOk result (λ names. names ≡ words.now) }
{
    let mut names = Rows::new(alloc);
    for word in words {
        names.push(name_of(alloc, word)?)?;
    }
    Ok(names)
}

/// A copy of the name.
pub(crate) fn copy_of(alloc: Global, name: &Name) -> Result<Name, NoMemory>
    ensures value { IfOk result (λ copy. copy ≡ name.now) }
{
    Name::copy(alloc, name.bytes())
}

/// Copies of the names.
pub(crate) fn copies_of(alloc: Global, names: &[Name]) -> Result<Rows<Name>, NoMemory>
    ensures value { IfOk result (λ copies. copies ≡ names.now) }
{
    let mut copies = Rows::new(alloc);
    for name in names {
        copies.push(copy_of(alloc, name)?)?;
    }
    Ok(copies)
}
