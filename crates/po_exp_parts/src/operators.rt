// Operators, their texts and their levels.
ghost use Rattle.std.specs.Prelude.{◌≡◌, ◌<◌, MatchOption, ◌∷◌, []};
ghost use Rattle.po_base.specs.declared.operators.Op.{Op as Written};
ghost use Rattle.po_tree.specs.declared.operator.Infix.{Infix as Joining};
ghost use Rattle.po_tree.specs.declared.operator.Infix.TheVariants as i;
ghost use Rattle.po_tree.specs.declared.operator.Prefix.{Prefix as Before};
ghost use Rattle.po_tree.specs.Signs.{sign_of, punct};
ghost use Rattle.po_tree.specs.Operators.{op_text, infix_text, prefix_sign, IsWritten};
ghost use Rattle.po_exp_parts.specs.declared.continuation.Continuation.{Continuation as Onward};
ghost use Rattle.po_tree.specs.Operators as operators;
ghost use Rattle.po_exp_parts.specs.Continuing as continuing;
ghost use Rattle.po_exp_parts.specs.Continuing.{opens, IsUsed};

use crate::continuation::Continuation;
use crate::levels::{
    ADDITIVE, ASSIGNMENT, BITWISE_AND, CAST, COMMA, CONDITIONAL, EQUALITY, EXCLUSIVE_OR,
    INCLUSIVE_OR, LOGICAL_AND, LOGICAL_OR, MULTIPLICATIVE, POSTFIX, RELATIONAL, SHIFT, UNARY,
};
use po_base::{Op, Token, TokenKind};
use po_tree::{Infix, Postfix, Prefix, Selector};

/// The operator that is written as one byte.
fn short_op(byte: u8) -> Option<Op>
    ensures { MatchOption result ((o : Written) → byte ∷ [] ≡ op_text o → ⊥) (λ o. byte ∷ [] ≡ op_text o) }
{
    match byte {
        b'+' => Some(Op::Add),
        b'-' => Some(Op::Sub),
        b'*' => Some(Op::Mul),
        b'/' => Some(Op::Div),
        b'%' => Some(Op::Rem),
        b'&' => Some(Op::And),
        b'|' => Some(Op::Or),
        b'^' => Some(Op::Xor),
        b'<' => Some(Op::Lt),
        b'>' => Some(Op::Gt),
        _ => None,
    }
}

/// The operator that is written as two bytes.
fn long_op(first: u8, second: u8) -> Option<Op>
    ensures { MatchOption result ((o : Written) → first ∷ second ∷ [] ≡ op_text o → ⊥) (λ o. first ∷ second ∷ [] ≡ op_text o) }
{
    match (first, second) {
        (b'<', b'<') => Some(Op::Shl),
        (b'>', b'>') => Some(Op::Shr),
        (b'=', b'=') => Some(Op::Eq),
        (b'!', b'=') => Some(Op::Ne),
        (b'<', b'=') => Some(Op::Le),
        (b'>', b'=') => Some(Op::Ge),
        _ => None,
    }
}

/// The binary operator of this text (C99 6.5.5 to 6.5.12).
fn op_of(text: &[u8]) -> Option<Op>
    ensures { MatchOption result ((o : Written) → text.now ≡ op_text o → ⊥) (λ o. text.now ≡ op_text o) }
{
    match text {
        [only] => short_op(*only),
        [first, second] => long_op(*first, *second),
        _ => None,
    }
}

/// Whether an assignment may have this operator (C99 6.5.16).
fn is_compound(op: Op) -> bool
    ensures { result ≡ operators.is_compound op }
{
    match op {
        Op::Eq | Op::Ne | Op::Lt | Op::Le | Op::Gt | Op::Ge => false,
        _ => true,
    }
}

/// The assignment of this text (C99 6.5.16).
fn assignment_of(text: &[u8]) -> Option<Infix>
    ensures { MatchOption result ((o : _) → IsWritten (i.Set o) → text.now ≡ infix_text (i.Set o) → ⊥) (λ o. IsWritten o × (text.now ≡ infix_text o)) }
{
    let front = text.strip_suffix(b"=")?;
    if front.is_empty() {
        return Some(Infix::Set(None));
    }
    let op = op_of(front)?;
    if !is_compound(op) {
        return None;
    }
    Some(Infix::Set(Some(op)))
}

/// The operator between two operands of this text.
fn infix_of(text: &[u8]) -> Option<Infix>
    ensures { MatchOption result ((o : Joining) → IsWritten o → text.now ≡ infix_text o → ⊥) (λ o. IsWritten o × (text.now ≡ infix_text o)) }
{
    if text == b"&&".as_slice() {
        return Some(Infix::And);
    }
    if text == b"||".as_slice() {
        return Some(Infix::Or);
    }
    if text == b",".as_slice() {
        return Some(Infix::Comma);
    }
    match op_of(text) {
        Some(op) => Some(Infix::Plain(op)),
        None => assignment_of(text),
    }
}

/// What goes on with an operand by a punctuator of this text.
fn continuation_in(text: &[u8]) -> Option<Continuation>
    ensures { MatchOption result ((c : Onward) → IsUsed c → punct text.now ≡ opens c → ⊥) (λ c. IsUsed c × (punct text.now ≡ opens c)) }
{
    if text == b"?".as_slice() {
        return Some(Continuation::Question);
    }
    if text == b"[".as_slice() {
        return Some(Continuation::Bracket);
    }
    if text == b"(".as_slice() {
        return Some(Continuation::Parenthesis);
    }
    if text == b".".as_slice() {
        return Some(Continuation::Select(Selector::Dot));
    }
    if text == b"->".as_slice() {
        return Some(Continuation::Select(Selector::Arrow));
    }
    if text == b"++".as_slice() {
        return Some(Continuation::Step(Postfix::Increment));
    }
    if text == b"--".as_slice() {
        return Some(Continuation::Step(Postfix::Decrement));
    }
    Some(Continuation::Infix(infix_of(text)?))
}

/// What goes on with an operand by this token (C99 6.5.2, 6.5.5 to 6.5.17).
pub fn continuation_of(token: &Token) -> Option<Continuation>
    ensures { MatchOption result ((c : Onward) → IsUsed c → sign_of token.now ≡ opens c → ⊥) (λ c. IsUsed c × (sign_of token.now ≡ opens c)) }
{
    match token.kind {
        TokenKind::Punct => continuation_in(token.text.bytes()),
        _ => None,
    }
}

/// The operator before an operand that is a punctuator of this one byte.
fn short_prefix(byte: u8) -> Option<Prefix>
    ensures { MatchOption result ((p : Before) → punct (byte ∷ []) ≡ prefix_sign p → ⊥) (λ p. punct (byte ∷ []) ≡ prefix_sign p) }
{
    match byte {
        b'&' => Some(Prefix::Address),
        b'*' => Some(Prefix::Indirection),
        b'+' => Some(Prefix::Plus),
        b'-' => Some(Prefix::Minus),
        b'~' => Some(Prefix::Complement),
        b'!' => Some(Prefix::Not),
        _ => None,
    }
}

/// The operator before an operand that is a punctuator of this text.
fn prefix_in(text: &[u8]) -> Option<Prefix>
    ensures { MatchOption result ((p : Before) → punct text.now ≡ prefix_sign p → ⊥) (λ p. punct text.now ≡ prefix_sign p) }
{
    match text {
        [only] => short_prefix(*only),
        [b'+', b'+'] => Some(Prefix::Increment),
        [b'-', b'-'] => Some(Prefix::Decrement),
        _ => None,
    }
}

/// The operator before an operand that this token is (C99 6.5.3).
pub fn prefix_of(token: &Token) -> Option<Prefix>
    ensures { MatchOption result ((p : Before) → sign_of token.now ≡ prefix_sign p → ⊥) (λ p. sign_of token.now ≡ prefix_sign p) }
{
    match token.kind {
        TokenKind::Punct => prefix_in(token.text.bytes()),
        TokenKind::Word => {
            if token.text.bytes() == b"sizeof".as_slice() {
                Some(Prefix::Size)
            } else {
                None
            }
        }
        _ => None,
    }
}

/// The level of a binary operator (C99 6.5.5 to 6.5.12).
fn op_level(op: Op) -> u8
    ensures level { result ≡ operators.op_level op }
    ensures below_casts { result < 13 }
{
    match op {
        Op::Mul | Op::Div | Op::Rem => MULTIPLICATIVE,
        Op::Add | Op::Sub => ADDITIVE,
        Op::Shl | Op::Shr => SHIFT,
        Op::Lt | Op::Le | Op::Gt | Op::Ge => RELATIONAL,
        Op::Eq | Op::Ne => EQUALITY,
        Op::And => BITWISE_AND,
        Op::Xor => EXCLUSIVE_OR,
        Op::Or => INCLUSIVE_OR,
    }
}

/// The level of an operator between two operands.
fn level(o: Infix) -> u8
    ensures level { result ≡ operators.level o }
    ensures below_casts { result < 13 }
{
    match o {
        Infix::Plain(op) => op_level(op),
        Infix::And => LOGICAL_AND,
        Infix::Or => LOGICAL_OR,
        Infix::Set(_) => ASSIGNMENT,
        Infix::Comma => COMMA,
    }
}

/// The least level of the operand on the left.
fn least_left(o: Infix) -> u8
    ensures { result ≡ operators.least_left o }
{
    match o {
        Infix::Set(_) => UNARY,
        _ => level(o),
    }
}

/// The least level of the operand on the right: above that of the operator, but for assignments (C99 6.5.5 to 6.5.17).
pub fn least_right(o: Infix) -> u8
    ensures { result ≡ operators.least_right o }
{
    match o {
        Infix::Set(_) => ASSIGNMENT,
        _ => level(o) + 1,
    }
}

/// The least level of the operand behind a prefix operator (C99 6.5.3).
pub fn least_operand(p: Prefix) -> u8
    ensures { result ≡ operators.least_operand p }
{
    match p {
        Prefix::Increment | Prefix::Decrement | Prefix::Size => UNARY,
        _ => CAST,
    }
}

/// The level of the expression that what goes on makes (C99 6.5.2, 6.5.5 to 6.5.17).
pub fn level_of(c: Continuation) -> u8
    ensures { result ≡ continuing.level_of c }
{
    match c {
        Continuation::Infix(o) => level(o),
        Continuation::Question => CONDITIONAL,
        _ => POSTFIX,
    }
}

/// The least level of the operand before what goes on (C99 6.5.2, 6.5.5 to 6.5.17).
pub fn least_before(c: Continuation) -> u8
    ensures { result ≡ continuing.least_before c }
{
    match c {
        Continuation::Infix(o) => least_left(o),
        Continuation::Question => LOGICAL_OR,
        _ => POSTFIX,
    }
}
