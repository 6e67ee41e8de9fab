// Whether the types that two files give a name clash (C99 6.2.7).
ghost use Rattle.std.specs.Prelude.{◌≡◌};
ghost use Rattle.po_symbols.specs.Differing.{follows_bracket};
ghost use Rattle.po_symbols.specs.Differing as differing;

use po_base::Text;

/// Whether the text has a `]`, and this behind the first one. In linear time.
fn ends_behind_bracket(text: &[u8], item: &[u8]) -> bool
    ensures { result ≡ follows_bracket text.now item.now }
{
    let mut left = text;
    while let [byte, rest @ ..] = left {
        if *byte == b']' {
            return rest == item;
        }
        left = rest;
    }
    false
}

/// Whether the first type is an array without a size, and the second one is that with something in the size's place.
fn is_sizeless(first: &[u8], second: &[u8]) -> bool
    ensures { result ≡ differing.is_sizeless first.now second.now }
{
    if !first.starts_with(b"[]") {
        return false;
    }
    ends_behind_bracket(second, &first[2..])
}

/// Whether two files that declare a name with these types clash. In time linear in the spellings.
pub(crate) fn differ(first: &Text, second: &Text) -> bool
    ensures { result ≡ differing.differ first.now second.now }
{
    let first = first.bytes();
    let second = second.bytes();
    first != second && !is_sizeless(first, second) && !is_sizeless(second, first)
}
