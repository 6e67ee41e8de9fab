//! How declarations are spelled: `(declare SPECIFIER .. (word DECLARATOR ..) ..)`.

use crate::spelling::{arrays, begin, end, item, part, plain_declarator, specifier, spell, stars};
use crate::writing::put;
use po_base::{Memory, Text};
use po_tree::{Decl, Declarator, Exp, Init, Member, Param, Specifier, Suffix};

/// The words of members.
fn members(out: &mut Vec<u8>, members: &[Member]) -> Result<(), Memory> {
    for member in members {
        for declarator in member.declarators.as_slice() {
            if let Some(name) = &declarator.name {
                part(out, name)?;
            }
        }
    }
    Ok(())
}

/// Enumerators, each with its value where it is written.
fn enumerators(out: &mut Vec<u8>, items: &[(Text, Option<Exp>)]) -> Result<(), Memory> {
    for one in items {
        part(out, &one.0)?;
        if let Some(x) = &one.1 {
            put(out, b" =")?;
            item(out, x)?;
        }
    }
    Ok(())
}

/// The tag of a struct or an enumeration, `-` where there is none.
fn tag(out: &mut Vec<u8>, tag: &Option<Text>) -> Result<(), Memory> {
    match tag {
        Some(name) => part(out, name),
        None => put(out, b" -"),
    }
}

/// A specifier; of a body the words of its members or its enumerators.
fn whole_specifier(out: &mut Vec<u8>, spec: &Specifier) -> Result<(), Memory> {
    match spec {
        Specifier::Struct(name, Some(list)) => {
            begin(out, b"struct")?;
            tag(out, name)?;
            put(out, b" :")?;
            members(out, list.as_slice())?;
            end(out)
        }
        Specifier::Enum(name, Some(items), _) => {
            begin(out, b"enum")?;
            tag(out, name)?;
            put(out, b" :")?;
            enumerators(out, items.as_slice())?;
            end(out)
        }
        _ => specifier(out, spec),
    }
}

/// Specifiers as parts of a node.
pub(crate) fn specifiers(out: &mut Vec<u8>, specs: &[Specifier]) -> Result<(), Memory> {
    for spec in specs {
        put(out, b" ")?;
        whole_specifier(out, spec)?;
    }
    Ok(())
}

/// Parameters.
fn params(out: &mut Vec<u8>, params: &[Param], more: bool) -> Result<(), Memory> {
    for param in params {
        put(out, b" ")?;
        begin(out, b"param")?;
        specifiers(out, param.specs.as_slice())?;
        plain_declarator(out, &param.declarator)?;
        end(out)?;
    }
    if more {
        put(out, b" ...")?;
    }
    Ok(())
}

/// A declarator as a part of a node.
pub(crate) fn declarator(out: &mut Vec<u8>, declarator: &Declarator) -> Result<(), Memory> {
    stars(out, &declarator.stars)?;
    if let Some(name) = &declarator.name {
        part(out, name)?;
    }
    match &declarator.suffix {
        Suffix::Plain => Ok(()),
        Suffix::Arrays(sizes) => arrays(out, sizes.as_slice()),
        Suffix::Params(list, more) => {
            put(out, b" ")?;
            begin(out, b"params")?;
            params(out, list.as_slice(), *more)?;
            end(out)
        }
    }
}

/// An initialiser.
#[cycle(initialisers)]
fn initialiser(out: &mut Vec<u8>, init: &Init) -> Result<(), Memory> {
    match init {
        Init::One(x) => spell(out, x),
        Init::Many(inits, _) => {
            begin(out, b"braces")?;
            for init in inits.as_slice() {
                put(out, b" ")?;
                initialiser(out, init)?;
            }
            end(out)
        }
    }
}

/// A declaration.
pub(crate) fn declaration(out: &mut Vec<u8>, d: &Decl) -> Result<(), Memory> {
    begin(out, b"declare")?;
    specifiers(out, d.specs.as_slice())?;
    for one in d.parts.as_slice() {
        put(out, b" ")?;
        begin(out, b"word")?;
        declarator(out, &one.0)?;
        if let Some(init) = &one.1 {
            put(out, b" = ")?;
            initialiser(out, init)?;
        }
        end(out)?;
    }
    end(out)
}
