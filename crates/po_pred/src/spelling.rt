// The spelling of predicates.
ghost use Rattle.std.specs.Prelude.{◌≡◌, ◌++◌, ◌*ℤ◌, true, IfOk, OnOk};
ghost use Rattle.po_pred.specs.Spelling as spelling;
ghost use Rattle.po_pred.specs.View.{view_of};

use crate::pred::{Atom, Over, Place, Pred, Why};
use crate::view::{View, view_of};
use po_base::{Memory, Out, RegNo, Text};
use std::alloc::Global;

/// Adds a register's name, or `%k` where it is the k-th without a name.
fn add_register(out: &mut Out, names: &[Option<Text>], register: RegNo) -> Result<(), Memory>
    ensures { OnOk result (out.new ≡ out.old ++ spelling.register_text names.now register.0) }
{
    let at = register.0 as usize;
    if at < names.len() {
        if let Some(name) = &names[at] {
            return out.add(name.bytes());
        }
    }
    add_temporary(out, &names[..at.min(names.len())])
}

/// Adds `%` and the number of registers without a name.
fn add_temporary(out: &mut Out, before: &[Option<Text>]) -> Result<(), Memory>
    ensures { OnOk result (out.new ≡ out.old ++ spelling.temporary_text before.now) }
{
    out.add(b"%")?;
    out.add_count(before.iter().filter(|name| name.is_none()).count())
}

fn add_atom(out: &mut Out, names: &[Option<Text>], atom: &Atom) -> Result<(), Memory>
    ensures { OnOk result (out.new ≡ out.old ++ spelling.atom_text names.now atom.now) }
{
    match *atom {
        Atom::Reg(register) => add_register(out, names, register),
        Atom::Param(index) => {
            out.add(b"$")?;
            out.add_number(index)
        }
    }
}

fn add_range(out: &mut Out, place: &Place) -> Result<(), Memory>
    ensures { OnOk result (out.new ≡ out.old ++ spelling.range_text place.now.lo place.now.hi) }
{
    if place.lo == place.hi {
        return out.add_whole(place.lo);
    }
    out.add_whole(place.lo)?;
    out.add(b"..")?;
    out.add_whole(place.hi)
}

fn add_with_sign(out: &mut Out, place: &Place) -> Result<(), Memory>
    ensures { OnOk result (out.new ≡ out.old ++ spelling.with_sign place.now.lo) }
{
    if place.lo >= 0 {
        out.add(b"+")?;
    }
    out.add_whole(place.lo)
}

fn add_offset(out: &mut Out, place: &Place) -> Result<(), Memory>
    ensures { OnOk result (out.new ≡ out.old ++ spelling.offset_text place.now.lo place.now.hi) }
{
    if place.lo != place.hi {
        add_with_sign(out, place)?;
        out.add(b"..")?;
        return out.add_whole(place.hi);
    }
    if place.lo == 0 {
        return Ok(());
    }
    add_with_sign(out, place)
}

fn add_place(out: &mut Out, names: &[Option<Text>], place: &Place) -> Result<(), Memory>
    ensures { OnOk result (out.new ≡ out.old ++ spelling.place_text names.now place.now) }
{
    match &place.atom {
        None => add_range(out, place),
        Some(atom) => {
            add_atom(out, names, atom)?;
            add_offset(out, place)
        }
    }
}

/// Adds a factor before a place, whose offset isn't multiplied.
fn add_with_factor(
    out: &mut Out,
    names: &[Option<Text>],
    factor: i64,
    place: &Place,
) -> Result<(), Memory>
    ensures { OnOk result (out.new ≡ out.old ++ spelling.factor_text names.now factor place.now) }
{
    out.add_whole(i128::from(factor))?;
    out.add(b"*")?;
    add_place(out, names, place)
}

/// Whether a number lies below 2^64 in size.
fn is_narrow(number: i128) -> bool
    ensures { result ≡ spelling.is_narrow number }
{
    -18_446_744_073_709_551_616 < number && number < 18_446_744_073_709_551_616
}

/// The multiple of a number.
fn multiple(factor: i64, number: i128) -> i128
    requires { spelling.is_narrow number ≡ true }
    ensures { result ≡ factor *ℤ number }
{
    i128::from(factor) * number
}

/// The ends of a range of numbers, multiplied.
fn multiplied(factor: i64, place: &Place) -> Place
    requires low { spelling.is_narrow place.now.lo ≡ true }
    requires high { spelling.is_narrow place.now.hi ≡ true }
    ensures { result ≡ spelling.multiplied factor place.now }
{
    Place {
        atom: None,
        lo: multiple(factor, place.lo),
        hi: multiple(factor, place.hi),
    }
}

fn add_multiplied(out: &mut Out, factor: i64, place: &Place) -> Result<(), Memory>
    requires low { spelling.is_narrow place.now.lo ≡ true }
    requires high { spelling.is_narrow place.now.hi ≡ true }
    ensures { OnOk result (out.new ≡ out.old ++ spelling.multiplied_text factor place.now) }
{
    let ends = multiplied(factor, place);
    add_range(out, &ends)
}

fn add_numbers(
    out: &mut Out,
    names: &[Option<Text>],
    factor: i64,
    place: &Place,
) -> Result<(), Memory>
    ensures { OnOk result (out.new ≡ out.old ++ spelling.numbers_text names.now factor place.now) }
{
    if !is_narrow(place.lo) {
        return add_with_factor(out, names, factor, place);
    }
    if !is_narrow(place.hi) {
        return add_with_factor(out, names, factor, place);
    }
    add_multiplied(out, factor, place)
}

fn add_multiple(
    out: &mut Out,
    names: &[Option<Text>],
    factor: i64,
    place: &Place,
) -> Result<(), Memory>
    ensures { OnOk result (out.new ≡ out.old ++ spelling.multiple_text place.now.atom names.now factor place.now) }
{
    match place.atom {
        None => add_numbers(out, names, factor, place),
        Some(_) => add_with_factor(out, names, factor, place),
    }
}

fn add_scaled(
    out: &mut Out,
    names: &[Option<Text>],
    factor: i64,
    place: &Place,
) -> Result<(), Memory>
    ensures { OnOk result (out.new ≡ out.old ++ spelling.scaled_text names.now factor place.now) }
{
    if factor == 1 {
        return add_place(out, names, place);
    }
    add_multiple(out, names, factor, place)
}

fn kind_text(predicate: &Pred) -> &'static [u8]
    ensures { result.now ≡ spelling.kind_text (view_of predicate.now).kind }
{
    match predicate {
        Pred::NotNull { .. } => b"not_null",
        Pred::Live { .. } => b"live",
        Pred::Span { .. } => b"span",
        Pred::Filled { .. } => b"filled",
        Pred::RegSet { .. } => b"reg_set",
        Pred::Writable { .. } => b"writable",
        Pred::Nonzero { .. } => b"nonzero",
        Pred::NoOver { .. } => b"no_over",
        Pred::IntIn { .. } => b"int_in",
        Pred::Aligned { .. } => b"aligned",
        Pred::SameBlock { .. } => b"same_block",
        Pred::HeapStart { .. } => b"heap_start",
        Pred::Terminated { .. } => b"terminated",
        Pred::Apart { .. } => b"apart",
        Pred::RoomFor { .. } => b"room_for",
        Pred::Never { .. } => b"never",
    }
}

fn operator_name(op: Over) -> &'static [u8]
    ensures { result.now ≡ spelling.operator_name op }
{
    match op {
        Over::Add => b"add",
        Over::Sub => b"sub",
        Over::Mul => b"mul",
        Over::Div => b"div",
        Over::Rem => b"rem",
        Over::Shl => b"shl",
        Over::Neg => b"neg",
    }
}

fn add_width(out: &mut Out, bits: u8) -> Result<(), Memory>
    ensures { OnOk result (out.new ≡ out.old ++ spelling.width_text bits) }
{
    if bits == 64 {
        return out.add(b"64");
    }
    Ok(())
}

fn add_operator(out: &mut Out, view: &View) -> Result<(), Memory>
    ensures { OnOk result (out.new ≡ out.old ++ spelling.operator_text view.now.operator view.now.width) }
{
    match view.operator {
        None => Ok(()),
        Some(op) => {
            out.add(operator_name(op))?;
            add_width(out, view.width)?;
            out.add(b",")
        }
    }
}

fn add_first(out: &mut Out, names: &[Option<Text>], first: &Option<Place>) -> Result<(), Memory>
    ensures { OnOk result (out.new ≡ out.old ++ spelling.first_text names.now first.now) }
{
    match first {
        None => Ok(()),
        Some(place) => add_place(out, names, place),
    }
}

fn add_further(
    out: &mut Out,
    names: &[Option<Text>],
    factor: i64,
    further: &Option<Place>,
) -> Result<(), Memory>
    ensures { OnOk result (out.new ≡ out.old ++ spelling.further_text names.now factor further.now) }
{
    match further {
        None => Ok(()),
        Some(place) => {
            out.add(b",")?;
            add_scaled(out, names, factor, place)
        }
    }
}

fn add_places(out: &mut Out, names: &[Option<Text>], view: &View) -> Result<(), Memory>
    ensures { OnOk result (out.new ≡ out.old ++ spelling.places_text names.now view.now) }
{
    add_first(out, names, &view.first)?;
    add_further(out, names, view.factor, &view.second)?;
    add_further(out, names, view.factor, &view.third)
}

fn add_why(out: &mut Out, why: Why) -> Result<(), Memory>
    ensures { OnOk result (out.new ≡ out.old ++ spelling.why_text why) }
{
    match why {
        Why::Unread => out.add(b"unread"),
        Why::End => out.add(b"end"),
        Why::Extern => out.add(b"extern"),
    }
}

/// Adds what stands behind the places.
fn add_rest(out: &mut Out, names: &[Option<Text>], predicate: &Pred) -> Result<(), Memory>
    ensures { OnOk result (out.new ≡ out.old ++ spelling.rest_text names.now predicate.now) }
{
    match predicate {
        Pred::RegSet { v } => add_register(out, names, *v),
        Pred::IntIn { lo, hi, .. } => {
            out.add(b",")?;
            out.add_whole(*lo)?;
            out.add(b",")?;
            out.add_whole(*hi)
        }
        Pred::Aligned { a, .. } => {
            out.add(b",")?;
            out.add_whole(i128::from(*a))
        }
        Pred::Never { why } => add_why(out, *why),
        _ => Ok(()),
    }
}

fn add_predicate(out: &mut Out, names: &[Option<Text>], predicate: &Pred) -> Result<(), Memory>
    ensures { OnOk result (out.new ≡ out.old ++ spelling.predicate_text names.now predicate.now) }
{
    let view = view_of(predicate);
    out.add(kind_text(predicate))?;
    out.add(b"(")?;
    add_operator(out, &view)?;
    add_places(out, names, &view)?;
    add_rest(out, names, predicate)?;
    out.add(b")")
}

/// The spelling of a predicate: the kind, and in parentheses its operator, its places and its other numbers, as
/// `no_over(div,a,b)`. A register has its name, or is `%k` where `k` registers before it have none; a parameter is
/// `$i`, a number decimal, a range `2..5`; an offset that isn't 0 follows with its sign, a range of them as `$1+0..3`;
/// operators of 64 bits are `add64` and so on. A factor other than 1 stands before a place as `4*i`, and numbers below
/// 2^64 in size are multiplied out. `names` has one item for each register. In time linear in the text, and for a
/// register without a name in the registers before it.
pub fn spell(alloc: Global, predicate: &Pred, names: &[Option<Text>]) -> Result<Text, Memory>
    ensures { IfOk result (λ text. text ≡ spelling.predicate_text names.now predicate.now) }
{
    let mut out = Out::new(alloc);
    add_predicate(&mut out, names, predicate)?;
    Text::new(alloc, out.bytes())
}
