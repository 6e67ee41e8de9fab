// The first pair of files that give a name types which clash.
ghost use Rattle.std.specs.Prelude.{◌≡◌};
ghost use Rattle.po_symbols.specs.Pairs.{pair_of, two_of, pair_with, pair_beyond, clash_of};

use crate::differing::differ;
use po_base::Text;

/// The number of a file, and the type that a name has in it.
pub(crate) type Typed = (u32, Text);

/// The file, and the first of the others that isn't it.
fn with_other(first: u32, others: &[u32]) -> Option<(u32, u32)>
    ensures { result ≡ pair_of first others.now }
{
    let second = others.iter().find(|file| **file != first)?;
    Some((first, *second))
}

/// The first file of the list and the first other one.
pub(crate) fn first_two(files: &[u32]) -> Option<(u32, u32)>
    ensures { result ≡ two_of files.now }
{
    let [first, others @ ..] = files else {
        return None;
    };
    with_other(*first, others)
}

/// The file, and the first of the others whose type differs.
fn with_first(first: &Typed, others: &[Typed]) -> Option<(u32, u32)>
    ensures { result ≡ pair_with first.now others.now }
{
    let second = others.iter().find(|other| differ(&first.1, &other.1))?;
    Some((first.0, second.0))
}

/// The pair of the first file whose type is spelled otherwise than this.
fn without_first(spelling: &Text, others: &[Typed]) -> Option<(u32, u32)>
    ensures { result ≡ pair_beyond spelling.now others.now }
{
    let mut left = others;
    while let [next, rest @ ..] = left {
        if next.1 != *spelling {
            return with_first(next, rest);
        }
        left = rest;
    }
    None
}

/// The least pair of files whose types differ. In time linear in the spellings: where no type differs from the first one, all
/// others are that or an array of the same items, and a pair stands with the first of these or not at all.
pub(crate) fn first_clash(said: &[Typed]) -> Option<(u32, u32)>
    ensures { result ≡ clash_of said.now }
{
    let [first, others @ ..] = said else {
        return None;
    };
    if let Some(pair) = with_first(first, others) {
        return Some(pair);
    }
    without_first(&first.1, others)
}
