ghost use Rattle.std.specs.Prelude.{◌≡◌, IfOk};

use po_base::{Memory, Text};
use po_tree::Names;
use std::alloc::Global;
use std::test::Fail;

/// Hides a name, and declares another one as a typedef name and as a tag.
fn change(names: &mut Names, hidden: &Text, declared: &Text) -> Result<(), Memory>
    ensures { IfOk result (λ _. names.new.outer ≡ names.old.outer) }
{
    names.hide(hidden)?;
    names.declare_type(declared)?;
    names.declare_tag(declared)
}

/// Whether a name is a typedef name, and whether it is a tag.
fn kinds(names: &Names, name: &Text) -> (bool, bool) {
    (names.is_type(name), names.is_tag(name))
}

/// What two names are inside a scope in which the first is hidden and the second declared, and inside a scope in that one in which it is the
/// other way round.
fn kinds_inside(
    names: &mut Names,
    first: &Text,
    second: &Text,
) -> Result<[(bool, bool); 6], Memory> {
    names.open_scope()?;
    change(names, first, second)?;
    let outside = [kinds(names, first), kinds(names, second)];
    names.open_scope()?;
    change(names, second, first)?;
    let inside = [kinds(names, first), kinds(names, second)];
    names.close_scope()?;
    let again = [kinds(names, first), kinds(names, second)];
    names.close_scope()?;
    Ok([
        outside[0], outside[1], inside[0], inside[1], again[0], again[1],
    ])
}

#[test]
fn a_scope_that_closes_leaves_the_names_from_before_it(rt: HostRuntime) -> Result<(), Fail> {
    let first = Text::new(rt.alloc(), b"T")?;
    let second = Text::new(rt.alloc(), b"U")?;
    let mut names = Names::new(rt.alloc());
    names.declare_type(&first)?;
    let wanted = [
        (false, false),
        (true, true),
        (true, true),
        (false, true),
        (false, false),
        (true, true),
    ];
    assert!(rt; kinds_inside(&mut names, &first, &second)? == wanted);
    assert!(rt; kinds(&names, &first) == (true, false));
    assert!(rt; kinds(&names, &second) == (false, false));
    Ok(())
}
