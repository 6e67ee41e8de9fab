// A type name of its parts.
ghost use Rattle.std.specs.Prelude.{◌≡◌, ◌<◌, ◌+◌, ◌^◌};
ghost use Rattle.po_exp_parts.specs.Finding as finding;

use crate::found::Found;
use po_base::{List, Text};
use po_tree::{Declarator, Exp, Specifier, Suffix, TypeName};

/// What stands behind the stars of a type name (C99 6.7.5.2).
fn suffix_of(sizes: List<Option<Exp>>) -> Suffix
    ensures { result ≡ finding.suffix_of sizes }
{
    if sizes.is_empty() {
        return Suffix::Plain;
    }
    Suffix::Arrays(sizes)
}

/// A type name with the parenthesis that closes it (C99 6.7.6).
pub fn named(
    specs: List<Specifier>,
    stars: List<List<Text>>,
    sizes: Found<List<Option<Exp>>>,
) -> Found<TypeName>
    requires { sizes.end < 2 ^ 63 }
    ensures { result ≡ record { value = finding.type_of specs stars sizes.value; height = sizes.height; end = sizes.end + 1 } }
{
    let Found { value, height, end } = sizes;
    let declarator = Declarator {
        stars,
        name: None,
        suffix: suffix_of(value),
    };
    Found {
        value: TypeName { specs, declarator },
        height,
        end: end + 1,
    }
}
