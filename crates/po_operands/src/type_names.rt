// What the specifiers and stars of type names say (C99 6.7.6).
ghost use Rattle.std.specs.Prelude.{◌≡◌, Bool, MatchBool, IfOk, Some};
ghost use Rattle.po_tree.specs.declared.expression.Specifier.{out-Specifier};
ghost use Rattle.po_tree.specs.declared.expression.Suffix.{out-Suffix};
ghost use Rattle.po_tree.specs.declared.expression.Exp.TheOpen.{Suffix-F};
ghost use Rattle.po_types.specs.declared.ctype.CType.TheVariants as c;
ghost use Rattle.po_typed.specs.Scopes as scopes;
ghost use Rattle.po_typed.specs.Scopes.{type_name, struct_tag, enum_tag};
ghost use Rattle.po_typed.specs.Expressions.{IsInForce, IsBase, IsStarredBase, IsPlainName};
ghost use Rattle.po_constants.specs.Found.{Finds};

use po_arith::IntType;
use po_base::{Memory, Text};
use po_scopes::{Context, Meaning, Tag};
use po_specified::{can_be_starred, only_words, restrict_fits, starred, the_other, word_type};
use po_tree::{Specifier, Suffix, TypeName};
use po_types::{CType, integer};
use std::alloc::Global;

/// The type of a typedef name that is in force (C99 6.7.7).
fn named(context: &Context<'_>, name: &Text) -> Result<Option<CType>, Memory>
    ensures { IfOk result (Finds (λ t. (is_const : Bool) × (scopes.meaning context.now name.now ≡ Some (type_name t is_const)))) }
{
    match context.meaning(name) {
        None => Ok(None),
        Some(meaning) => match meaning {
            Meaning::TypeName(t, _) => Ok(Some(t.share()?)),
            Meaning::Global(_, _) => Ok(None),
            Meaning::Local(_, _) => Ok(None),
            Meaning::Function(_) => Ok(None),
            Meaning::Constant(_) => Ok(None),
        },
    }
}

/// The type that a tag stands for after `struct` (C99 6.7.2.3).
fn tagged_struct(context: &Context<'_>, tag: &Text) -> Option<u32>
    ensures { Finds (λ n. scopes.tag_meaning context.now tag.now ≡ Some (struct_tag n)) result }
{
    match context.tag_meaning(tag) {
        None => None,
        Some(tag) => match tag {
            Tag::Struct(n) => Some(n),
            Tag::Enum => None,
        },
    }
}

/// Whether a tag is that of an enumeration (C99 6.7.2.3).
fn is_enumeration(context: &Context<'_>, tag: &Text) -> bool
    ensures { MatchBool result (scopes.tag_meaning context.now tag.now ≡ Some enum_tag) (scopes.tag_meaning context.now tag.now ≡ Some enum_tag → ⊥) }
{
    match context.tag_meaning(tag) {
        None => false,
        Some(tag) => match tag {
            Tag::Struct(_) => false,
            Tag::Enum => true,
        },
    }
}

/// The type of a typedef name, or of a tag alone, that is in force (C99 6.7.2.3, 6.7.7). None exactly where a specifier is neither. Time as for
/// `Context::meaning`.
pub fn in_force(context: &Context<'_>, specifier: &Specifier) -> Result<Option<CType>, Memory>
    ensures { IfOk result (Finds (IsInForce context.now (out-Specifier specifier.now))) }
{
    match specifier {
        Specifier::Word(_) => Ok(None),
        Specifier::Named(name) => named(context, name),
        Specifier::Struct(tag, members) => match members {
            Some(_) => Ok(None),
            None => match tag {
                None => Ok(None),
                Some(tag) => match tagged_struct(context, tag) {
                    None => Ok(None),
                    Some(n) => Ok(Some(CType::Struct(n))),
                },
            },
        },
        Specifier::Enum(tag, enumerators, comma) => {
            if *comma {
                return Ok(None);
            }
            match enumerators {
                Some(_) => Ok(None),
                None => match tag {
                    None => Ok(None),
                    Some(tag) => {
                        if !is_enumeration(context, tag) {
                            return Ok(None);
                        }
                        Ok(Some(CType::Int(IntType::INT)))
                    }
                },
            }
        }
    }
}

/// The type that specifiers say that declare nothing: words in any order, or one typedef name or tag that is in force among storage classes and qualifiers
/// (C99 6.7.2p2). None exactly where they say none. Time linear in the specifiers.
pub fn base_of(context: &Context<'_>, specs: &[Specifier]) -> Result<Option<CType>, Memory>
    ensures { IfOk result (Finds (IsBase context.now specs.now)) }
{
    match word_type(specs, context.target()) {
        Some(t) => return Ok(Some(t)),
        None => {}
    }
    match the_other(specs) {
        None => Ok(None),
        Some(specifier) => in_force(context, specifier),
    }
}

/// What the specifiers and the stars of a type name without a word say (C99 6.7.6). None exactly where they say no type. Time linear in both, and in the depth
/// of the arrays that `restrict` stands before.
pub fn starred_base(
    alloc: Global,
    context: &Context<'_>,
    name: &TypeName,
) -> Result<Option<CType>, Memory>
    ensures { IfOk result (Finds (IsStarredBase context.now name.now)) }
{
    let specs = name.specs.as_slice();
    let stars = name.declarator.stars.as_slice();
    if name.declarator.name.is_some() {
        return Ok(None);
    }
    if !only_words(specs, &[]) {
        return Ok(None);
    }
    match base_of(context, specs)? {
        None => Ok(None),
        Some(base) => {
            if !restrict_fits(specs, &base) {
                return Ok(None);
            }
            if !can_be_starred(stars, &base) {
                return Ok(None);
            }
            Ok(Some(starred(alloc, base, stars)?))
        }
    }
}

/// Whether nothing stands behind the stars of a type name.
fn is_plain(name: &TypeName) -> bool
    ensures { MatchBool result (out-Suffix name.now.declarator.suffix ≡ Suffix-F.Plain) (out-Suffix name.now.declarator.suffix ≡ Suffix-F.Plain → ⊥) }
{
    match name.declarator.suffix {
        Suffix::Plain => true,
        Suffix::Arrays(_) => false,
        Suffix::Params(_, _) => false,
    }
}

/// The type that a type name without arrays says (C99 6.7.6). None exactly where it says none. Time as for `starred_base`.
pub fn plain_name(
    alloc: Global,
    context: &Context<'_>,
    name: &TypeName,
) -> Result<Option<CType>, Memory>
    ensures { IfOk result (Finds (IsPlainName context.now name.now)) }
{
    if !is_plain(name) {
        return Ok(None);
    }
    starred_base(alloc, context, name)
}

/// The integer type that a type name says. None exactly where it says none. Time as for `starred_base`.
pub fn integer_name(
    alloc: Global,
    context: &Context<'_>,
    name: &TypeName,
) -> Result<Option<IntType>, Memory>
    ensures { IfOk result (Finds (λ t. IsPlainName context.now name.now (c.Int t))) }
{
    match plain_name(alloc, context, name)? {
        None => Ok(None),
        Some(t) => Ok(integer(&t)),
    }
}
