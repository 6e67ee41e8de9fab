// The types of values (C99 6.3.2.1), and what tests, steps and comparisons convert them to.
ghost use Rattle.std.specs.Prelude.{◌≡◌, cond, MatchBool, IfOk, Some, None};
ghost use Rattle.std.specs.Option.{is_some};
ghost use Rattle.po_types.specs.Types.{layout_of as layout_in};
ghost use Rattle.po_types.specs.declared.ctype.CType.TheVariants as c;
ghost use Rattle.po_typed.specs.Operands as operands;
ghost use Rattle.po_typed.specs.Operands.{IsComplete, Tested, Stepped};
ghost use Rattle.po_constants.specs.Found.{Finds};

use po_arith::IntType;
use po_base::Memory;
use po_scopes::Context;
use po_types::{CType, common, is_void, layout_of, promoted, size_of};

/// Whether a type is a complete object type that some object may have. Takes time in the number of its arrays.
pub fn is_complete(context: &Context<'_>, t: &CType) -> bool
    ensures { MatchBool result (IsComplete context.now t.now) (IsComplete context.now t.now → ⊥) }
{
    size_of(context.target(), context.structs(), t).is_some()
}

/// The type of the value of an expression of this type: an array is converted to a pointer (C99 6.3.2.1p2 to p4). None exactly where it has none: a
/// function designator, and an incomplete struct. Constant time.
pub fn value_type(context: &Context<'_>, t: &CType) -> Result<Option<CType>, Memory>
    ensures { IfOk result (λ v. v ≡ operands.value_type context.now t.now) }
{
    match t {
        CType::Void => Ok(Some(CType::Void)),
        CType::Int(number) => Ok(Some(CType::Int(*number))),
        CType::Ptr(to) => Ok(Some(CType::Ptr(to.share()?))),
        CType::Array(element, _) => Ok(Some(CType::Ptr(element.share()?))),
        CType::Struct(n) => Ok(complete_struct(context, *n)),
        CType::Fun(_, _, _) => Ok(None),
    }
}

/// The struct of a number, where it is complete.
fn complete_struct(context: &Context<'_>, n: u32) -> Option<CType>
    ensures { result ≡ cond (is_some (layout_in context.now.structs n)) (Some (c.Struct n)) None }
{
    if layout_of(context.structs(), n).is_some() {
        return Some(CType::Struct(n));
    }
    None
}

/// What a scalar is converted to where it is compared with 0 (C99 6.5.3.3p5, 6.5.13p3, 6.8.4.1p2). None exactly where it is no scalar. Constant time.
pub fn tested(t: &CType) -> Result<Option<CType>, Memory>
    ensures { IfOk result (Finds (Tested t.now)) }
{
    match t {
        CType::Int(number) => Ok(Some(CType::Int(promoted(*number)))),
        CType::Ptr(_) => Ok(Some(t.share()?)),
        _ => Ok(None),
    }
}

/// What the operand of `++` or `--` is converted to, as by adding 1 (C99 6.5.2.4p1, p2, 6.5.3.1p1, p2). None exactly where it is neither a number nor a
/// pointer to a complete object type. Takes time in the number of arrays that it points to.
pub fn stepped(context: &Context<'_>, t: &CType) -> Result<Option<CType>, Memory>
    ensures { IfOk result (Finds (Stepped context.now t.now)) }
{
    match t {
        CType::Int(number) => Ok(Some(CType::Int(common(*number, IntType::INT)))),
        CType::Ptr(to) => {
            if !is_complete(context, to.get()) {
                return Ok(None);
            }
            Ok(Some(t.share()?))
        }
        _ => Ok(None),
    }
}

/// What two pointers point to where they are compared: void where one of them points to void, else what the first one does.
pub fn compared_as<'a>(t: &'a CType, u: &'a CType) -> &'a CType
    ensures { result.now ≡ operands.compared_as t.now u.now }
{
    if is_void(u) { u } else { t }
}
