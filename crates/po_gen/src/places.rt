// Operands as places of predicates.
ghost use Rattle.std.specs.Prelude.{◌≡◌};
ghost use Rattle.po_gen.specs.Asks as rules;

use po_base::Opnd;
use po_pred::{Atom, Place};

/// A number.
pub(crate) fn number(n: i128) -> Place
    ensures { result ≡ rules.number n }
{
    Place {
        atom: None,
        lo: n,
        hi: n,
    }
}

/// The value of an operand.
pub(crate) fn place(operand: &Opnd) -> Place
    ensures { result ≡ rules.place operand.now }
{
    match *operand {
        Opnd::Reg(register) => Place {
            atom: Some(Atom::Reg(register)),
            lo: 0,
            hi: 0,
        },
        Opnd::Num(n) => number(n),
    }
}
