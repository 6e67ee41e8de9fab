//! Cases of whole files: each piece is read, and its names are in force from there on.

ghost use Rattle.std.specs.Prelude.{◌≤◌, ◌^◌, length};

use crate::lexing::{put_fail, read};
use crate::spelling::{begin, end, leaf, part};
use crate::writing::{put, put_named, put_number};
use po_base::{Memory, Text, Tokens};
use po_decl_read::read_decl_at;
use po_fun_read::read_fun;
use po_lex::{Piece, ShapeFail, kept, pieces};
use po_tree::{Decl, FunTree, Names, Specifier};
use std::alloc::Global;

/// Writes a tag that is in force.
fn put_tag(out: &mut Vec<u8>, names: &Names, tag: &Option<Text>) -> Result<(), Memory> {
    match tag {
        Some(tag) if names.is_tag(tag) => {
            put(out, b" ")?;
            leaf(out, b"tag", tag)
        }
        _ => Ok(()),
    }
}

/// Writes the tags of specifiers.
fn put_tags(out: &mut Vec<u8>, names: &Names, specs: &[Specifier]) -> Result<(), Memory> {
    for spec in specs {
        match spec {
            Specifier::Struct(tag, _) => put_tag(out, names, tag)?,
            Specifier::Enum(tag, _, _) => put_tag(out, names, tag)?,
            _ => {}
        }
    }
    Ok(())
}

/// Writes a word, and whether it is a typedef name.
fn put_word(out: &mut Vec<u8>, names: &Names, word: &Option<Text>) -> Result<(), Memory> {
    match word {
        Some(word) if names.is_type(word) => {
            put(out, b" ")?;
            leaf(out, b"named", word)
        }
        Some(word) => part(out, word),
        None => Ok(()),
    }
}

/// What a declaration declares, by the names in force behind it.
fn put_declared(out: &mut Vec<u8>, names: &Names, d: &Decl) -> Result<(), Memory> {
    begin(out, b"declare")?;
    put_tags(out, names, d.specs.as_slice())?;
    for one in d.parts.as_slice() {
        put_word(out, names, &one.0.name)?;
    }
    end(out)
}

/// Reads a declaration, and puts what it declares in force.
fn put_declaration(
    alloc: Global,
    out: &mut Vec<u8>,
    tokens: &Tokens,
    piece: &Piece,
    names: &mut Names,
) -> Result<(), Memory> {
    match read_decl_at(alloc, tokens, piece.from, piece.to, names)? {
        Some((d, _)) => {
            names.declare(alloc, &d)?;
            put_declared(out, names, &d)
        }
        None => put(out, b"none"),
    }
}

/// The file and the line of a mark.
fn put_mark(
    alloc: Global,
    out: &mut Vec<u8>,
    names: &[Text],
    mark: Option<&(u32, u32)>,
) -> Result<(), Memory> {
    if let Some((place, line)) = mark
        && let Some(name) = names.get(*place as usize)
    {
        part(out, name)?;
        put(out, b":")?;
        put_number(alloc, out, *line as u64)?;
    }
    Ok(())
}

/// What a definition declares, by the names in force behind it, and where it begins and ends.
fn put_defined(alloc: Global, out: &mut Vec<u8>, names: &Names, g: &FunTree) -> Result<(), Memory> {
    begin(out, b"function")?;
    put_tags(out, names, g.specs.as_slice())?;
    put_word(out, names, &g.declarator.name)?;
    put_mark(alloc, out, g.names.as_slice(), g.marks.as_slice().first())?;
    put_mark(alloc, out, g.names.as_slice(), g.marks.as_slice().last())?;
    end(out)
}

/// Reads a definition, and puts what it declares in force.
fn put_function(
    alloc: Global,
    out: &mut Vec<u8>,
    tokens: &Tokens,
    piece: &Piece,
    names: &mut Names,
) -> Result<(), Memory> {
    match read_fun(alloc, tokens, piece.from, piece.to, names)? {
        Some(g) => {
            names.declare_definition(alloc, &g)?;
            put_defined(alloc, out, names, &g)
        }
        None => put(out, b"none"),
    }
}

/// Reads pieces one after the other.
fn put_pieces(
    alloc: Global,
    out: &mut Vec<u8>,
    tokens: &Tokens,
    list: &[Piece],
) -> Result<(), Memory> {
    let mut names = Names::new(alloc);
    for piece in list {
        put(out, b" ")?;
        if piece.body {
            put_function(alloc, out, tokens, piece, &mut names)?;
        } else {
            put_declaration(alloc, out, tokens, piece, &mut names)?;
        }
    }
    Ok(())
}

/// Divides tokens into pieces, and reads them.
fn put_file(alloc: Global, out: &mut Vec<u8>, found: &Tokens) -> Result<(), Memory>
    requires { length found.now.list ≤ 2 ^ 22 }
{
    let left = kept(alloc, found)?;
    match pieces(alloc, &left) {
        Ok(list) => {
            put_named(alloc, out, b"pieces ", list.len() as u64)?;
            put_pieces(alloc, out, &left, list.as_slice())
        }
        Err(ShapeFail::Shape { line }) => put_named(alloc, out, b"shape ", line as u64),
        Err(ShapeFail::Memory) => Err(Memory),
    }
}

/// The pieces of a text, each read with the names in force there.
pub(crate) fn show_file(alloc: Global, out: &mut Vec<u8>, text: &[u8]) -> Result<(), Memory> {
    match read(alloc, text) {
        Ok(found) => put_file(alloc, out, &found),
        Err(fail) => put_fail(alloc, out, fail),
    }
}
