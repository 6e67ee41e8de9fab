// The name that an expression is (C99 6.5.1).
ghost use Rattle.std.specs.Prelude.{ℕ, ◌≡◌, List, Bool};
ghost use Rattle.std.specs.Option.{option_copied};
ghost use Rattle.po_lowering.specs.Naming.{assigned, name_of as name_in};

use po_base::Text;
use po_tree::Exp;

/// The name that an expression is, in parentheses or not; None exactly where it is no name (C99 6.5.1p2, p5). In time linear in the
/// parentheses around it.
pub fn name_of(x: &Exp) -> Option<&Text>
    ensures name { option_copied result ≡ name_in x.now }
    ensures same { (is_one : List ℕ → Bool) → option_copied result ≡ (assigned is_one x.now).is }
{
    let mut inner = x;
    loop {
        match inner {
            Exp::Var(name) => return Some(name),
            Exp::Paren(operand) => inner = operand.get(),
            _ => return None,
        }
    }
}
