// The function that a call names.
ghost use Rattle.std.specs.Prelude.{MatchOption};
ghost use Rattle.po_types.specs.declared.ctype.CType.{CType as TypeOf};
ghost use Rattle.po_type_parts.specs.Designating.{IsCallee};

use po_scopes::{Context, Meaning};
use po_tree::Exp;
use po_types::CType;

/// The type of the function that an expression names directly (C99 6.5.2.2). None exactly where it names none. Time as for `Context::meaning`.
pub fn callee<'a>(context: &Context<'a>, x: &Exp) -> Option<&'a CType>
    ensures { MatchOption result ((t : TypeOf) → IsCallee context.now x.now t → ⊥) (λ t. IsCallee context.now x.now t.now) }
{
    match x {
        Exp::Var(name) => match context.meaning(name) {
            None => None,
            Some(meaning) => match meaning {
                Meaning::Function(t) => Some(t),
                Meaning::Global(_, _) => None,
                Meaning::Local(_, _) => None,
                Meaning::TypeName(_, _) => None,
                Meaning::Constant(_) => None,
            },
        },
        _ => None,
    }
}
