//! Trees that nest without a limit: they are dropped, and their names are gathered, with a stack of the usual size.

use crate::writing::put_named;
use po_base::{List, Memory, Text};
use po_tree::{Decl, Declarator, Exp, Init, Member, Names, Param, Specifier, Suffix};
use std::alloc::Global;

/// A list of one item.
fn alone<T: Drop>(alloc: Global, item: T) -> Result<List<T>, Memory> {
    let mut list = List::new(alloc);
    list.push(item)?;
    Ok(list)
}

/// The specifier `struct TAG{SPECIFIERS;}`, which is the last of its body.
fn structure(
    alloc: Global,
    tag: Option<Text>,
    specs: List<Specifier>,
) -> Result<List<Specifier>, Memory> {
    let member = Member {
        specs,
        declarators: List::new(alloc),
    };
    let members = alone(alloc, member)?;
    alone(alloc, Specifier::Struct(tag, Some(members)))
}

/// `struct TAG{struct TAG{..};};`, so deep, each with a tag of its own.
fn nested(alloc: Global, depth: u32) -> Result<List<Specifier>, Memory> {
    let mut specs = alone(alloc, Specifier::Word(Text::new(alloc, b"int")?))?;
    for level in 0..depth {
        let tag = Text::new(alloc, &level.to_be_bytes())?;
        specs = structure(alloc, Some(tag), specs)?;
    }
    Ok(specs)
}

/// A declarator with no word.
fn declarator(alloc: Global, suffix: Suffix) -> Declarator {
    Declarator {
        stars: List::new(alloc),
        name: None,
        suffix,
    }
}

/// The suffix `(TYPE SUFFIX)`.
fn parameters(alloc: Global, specs: List<Specifier>, suffix: Suffix) -> Result<Suffix, Memory> {
    let declarator = declarator(alloc, suffix);
    Ok(Suffix::Params(alone(alloc, Param { specs, declarator })?, false))
}

/// `int (int (int ..))`, so deep.
fn nested_parameters(alloc: Global, depth: u32) -> Result<Suffix, Memory> {
    let mut suffix = Suffix::Plain;
    for _ in 0..depth {
        let specs = alone(alloc, Specifier::Word(Text::new(alloc, b"int")?))?;
        suffix = parameters(alloc, specs, suffix)?;
    }
    Ok(suffix)
}

/// `struct{int (struct{int (..);});}`, so deep: bodies in parameter lists in bodies.
fn nested_by_turns(alloc: Global, depth: u32) -> Result<List<Specifier>, Memory> {
    let mut specs = alone(alloc, Specifier::Word(Text::new(alloc, b"int")?))?;
    for _ in 0..depth {
        let suffix = parameters(alloc, specs, Suffix::Plain)?;
        let member = Member {
            specs: alone(alloc, Specifier::Word(Text::new(alloc, b"int")?))?,
            declarators: alone(alloc, declarator(alloc, suffix))?,
        };
        let members = alone(alloc, member)?;
        specs = alone(alloc, Specifier::Struct(None, Some(members)))?;
    }
    Ok(specs)
}

/// `{1,{1,{1,..}}}`, so deep.
fn nested_braces(alloc: Global, depth: u32) -> Result<List<Init>, Memory> {
    let mut inits = List::new(alloc);
    for _ in 0..depth {
        let inner = Init::Many(inits, false);
        inits = alone(alloc, Init::One(Exp::Num(Text::new(alloc, b"1")?)))?;
        inits.push(inner)?;
    }
    Ok(inits)
}

/// `*** .. [1][1][1] ..`, so many of each.
fn long_declarator(alloc: Global, count: u32) -> Result<Declarator, Memory> {
    let mut stars = List::new(alloc);
    let mut sizes = List::new(alloc);
    for _ in 0..count {
        stars.push(List::new(alloc))?;
        sizes.push(Some(Exp::Num(Text::new(alloc, b"1")?)))?;
    }
    Ok(Declarator {
        stars,
        name: None,
        suffix: Suffix::Arrays(sizes),
    })
}

/// Drops bodies, parameter lists, both by turns, and braces, each nested so deep, and a declarator so long.
pub(crate) fn show_dropping(alloc: Global, out: &mut Vec<u8>, depth: u32) -> Result<(), Memory> {
    let bodies = nested(alloc, depth)?;
    put_named(alloc, out, b"specifiers ", bodies.len() as u64)?;
    drop(bodies);
    drop(declarator(alloc, nested_parameters(alloc, depth)?));
    let turns = nested_by_turns(alloc, depth)?;
    put_named(alloc, out, b"specifiers ", turns.len() as u64)?;
    drop(turns);
    let braces = nested_braces(alloc, depth)?;
    put_named(alloc, out, b"initialisers ", braces.len() as u64)?;
    drop(braces);
    let long = long_declarator(alloc, depth)?;
    put_named(alloc, out, b"stars ", long.stars.len() as u64)
}

/// How many tags are in force behind bodies that are nested so deep.
pub(crate) fn show_tags(alloc: Global, out: &mut Vec<u8>, depth: u32) -> Result<(), Memory> {
    let declaration = Decl {
        specs: nested(alloc, depth)?,
        parts: List::new(alloc),
    };
    let names = Names::new(alloc).after(alloc, &declaration)?;
    let mut tags = 0u64;
    for level in 0..depth {
        if names.is_tag(&Text::new(alloc, &level.to_be_bytes())?) {
            tags = tags.saturating_add(1);
        }
    }
    put_named(alloc, out, b"tags ", tags)
}
