ghost use Rattle.po_ir.specs.IntTypes.{AreTypesOfTarget};

use crate::building::{has_types, int, project, registers};
use crate::freeing::Freeing;
use po_arith::IntType;
use po_base::{
    FunNo, GlobalNo, LibNo, List, Memory, NodeNo, Op, Opnd, Out, RegNo, SlotNo, StrNo, Text, UnOp,
};
use po_gen::obligations;
use po_ir::{Access, Callee, Instr, Local, Project, Reason, Reg, Ty};
use po_pred::spell;
use std::alloc::Global;
use std::test::Fail;

const P: Opnd = Opnd::Reg(RegNo(0));

const N: Opnd = Opnd::Reg(RegNo(1));

const X: Opnd = Opnd::Reg(RegNo(2));

const Y: Opnd = Opnd::Reg(RegNo(3));

const Q: Opnd = Opnd::Reg(RegNo(4));

const R: Opnd = Opnd::Reg(RegNo(5));

const C: Opnd = Opnd::Reg(RegNo(6));

const U: Opnd = Opnd::Reg(RegNo(7));

const L: Opnd = Opnd::Reg(RegNo(8));

const TEMPORARY: Opnd = Opnd::Reg(RegNo(10));

fn names(alloc: Global, regs: &[Reg]) -> Result<List<Option<Text>>, Memory> {
    let mut names = List::new(alloc);
    for reg in regs {
        match &reg.name {
            Some(name) => names.push(Some(name.share()?))?,
            None => names.push(None)?,
        }
    }
    Ok(names)
}

/// What a node asks, each predicate with a semicolon behind it.
fn told(alloc: Global, p: &Project, at: u32, names: &[Option<Text>]) -> Result<Out, Memory>
    requires { AreTypesOfTarget p.now }
{
    let mut out = Out::new(alloc);
    let asked = obligations(alloc, &Freeing, p, FunNo(0), NodeNo(at))?;
    for predicate in asked.as_slice() {
        let text = spell(alloc, predicate, names)?;
        out.add(text.bytes())?;
        out.add(b";")?;
    }
    Ok(out)
}

/// Whether the only node of a function asks just this.
fn asks(alloc: Global, instr: Instr, text: &[u8]) -> Result<bool, Memory> {
    if !has_types(&instr) {
        return Ok(false);
    }
    let regs = registers(alloc)?;
    let names = names(alloc, regs.as_slice())?;
    let p = project(alloc, regs, instr)?;
    let here = told(alloc, &p, 0, names.as_slice())?;
    let beyond = told(alloc, &p, 1, names.as_slice())?;
    Ok(here.bytes() == text && beyond.bytes().is_empty())
}

fn bin(op: Op, ty: Ty, a: Opnd, b: Opnd) -> Instr {
    Instr::Bin {
        to: RegNo(9),
        op,
        ty,
        a,
        b,
    }
}

fn un(op: UnOp, signed: bool, a: Opnd) -> Instr {
    Instr::Un {
        to: RegNo(9),
        op,
        ty: IntType { bits: 32, signed },
        a,
    }
}

fn conv(from: Opnd, ty: Ty, align: u64) -> Instr {
    Instr::Conv {
        to: RegNo(9),
        from,
        ty,
        align,
    }
}

fn test(op: Op, ty: Ty, a: Opnd, b: Opnd) -> Instr {
    Instr::If {
        op,
        ty,
        a,
        b,
        yes: NodeNo(0),
        no: NodeNo(0),
    }
}

/// An access to an integer in its size and alignment.
fn access(bits: u8, bytes: u64) -> Access {
    Access {
        ty: int(bits, true),
        size: bytes,
        align: bytes,
    }
}

#[test]
fn operators_on_numbers_ask_their_rows(rt: HostRuntime) -> Result<(), Fail> {
    let signed = int(32, true);
    let unsigned = int(32, false);
    let long = int(64, true);
    let rows: [(Instr, &[u8]); 14] = [
        (
            bin(Op::Add, signed, X, Y),
            b"reg_set(x);reg_set(y);no_over(add,x,y);",
        ),
        (bin(Op::Sub, signed, X, X), b"reg_set(x);no_over(sub,x,x);"),
        (
            bin(Op::Mul, long, TEMPORARY, L),
            b"reg_set(l);no_over(mul64,%1,l);",
        ),
        (bin(Op::Add, unsigned, U, Opnd::Num(1)), b"reg_set(u);"),
        (
            bin(Op::Div, signed, N, Y),
            b"reg_set(y);nonzero(y);no_over(div,n,y);",
        ),
        (
            bin(Op::Rem, signed, X, Opnd::Num(3)),
            b"reg_set(x);nonzero(3);no_over(rem,x,3);",
        ),
        (
            bin(Op::Rem, unsigned, U, Opnd::Num(3)),
            b"reg_set(u);nonzero(3);",
        ),
        (
            bin(Op::Shl, signed, X, Y),
            b"reg_set(x);reg_set(y);int_in(y,0,31);no_over(shl,x,y);",
        ),
        (
            bin(Op::Shl, int(64, false), Opnd::Num(1), N),
            b"int_in(n,0,63);",
        ),
        (
            bin(Op::Shr, signed, X, Opnd::Num(40)),
            b"reg_set(x);int_in(40,0,31);",
        ),
        (bin(Op::And, signed, X, Y), b"reg_set(x);reg_set(y);"),
        (un(UnOp::Neg, true, X), b"reg_set(x);no_over(neg,x);"),
        (un(UnOp::Neg, false, U), b"reg_set(u);"),
        (un(UnOp::Not, true, X), b"reg_set(x);"),
    ];
    for (instr, text) in rows {
        assert!(rt; asks(rt.alloc(), instr, text)?);
    }
    Ok(())
}

#[test]
fn conversions_are_judged_by_the_operand(rt: HostRuntime) -> Result<(), Fail> {
    let byte = int(8, true);
    let rows: [(Instr, &[u8]); 9] = [
        (conv(Opnd::Num(300), byte, 1), b"int_in(300,-128,127);"),
        (conv(Opnd::Num(100), byte, 1), b""),
        (conv(X, byte, 1), b"reg_set(x);int_in(x,-128,127);"),
        (conv(C, int(32, true), 1), b"reg_set(c);"),
        (
            conv(U, int(32, true), 1),
            b"reg_set(u);int_in(u,-2147483648,2147483647);",
        ),
        (conv(U, int(64, true), 1), b"reg_set(u);"),
        (conv(X, int(8, false), 1), b"reg_set(x);"),
        (conv(P, Ty::Ptr, 8), b"aligned(p,8);"),
        (conv(Opnd::Num(0), Ty::Ptr, 4), b"aligned(0,4);"),
    ];
    for (instr, text) in rows {
        assert!(rt; asks(rt.alloc(), instr, text)?);
    }
    Ok(())
}

#[test]
fn pointers_ask_their_rows(rt: HostRuntime) -> Result<(), Fail> {
    let pair: &[u8] = b"reg_set(q);not_null(p);not_null(q);live(p);live(q);same_block(p,q);";
    let rows: [(Instr, &[u8]); 15] = [
        (
            Instr::PtrAdd {
                to: RegNo(5),
                base: Q,
                index: X,
                factor: 4,
            },
            b"reg_set(q);reg_set(x);not_null(q);live(q);span(q,4*x,4*x);",
        ),
        (
            Instr::PtrAdd {
                to: RegNo(5),
                base: P,
                index: Opnd::Num(2),
                factor: -4,
            },
            b"not_null(p);live(p);span(p,-8,-8);",
        ),
        (
            Instr::PtrDiff {
                to: RegNo(8),
                a: Q,
                b: R,
                size: 4,
            },
            b"reg_set(q);reg_set(r);not_null(q);not_null(r);live(q);live(r);same_block(q,r);",
        ),
        (bin(Op::Lt, Ty::Ptr, P, Q), pair),
        (bin(Op::Le, Ty::Ptr, P, Q), pair),
        (bin(Op::Gt, Ty::Ptr, P, Q), pair),
        (bin(Op::Ge, Ty::Ptr, P, Q), pair),
        (bin(Op::Eq, Ty::Ptr, P, Q), b"reg_set(q);"),
        (bin(Op::Ne, Ty::Ptr, P, Q), b"reg_set(q);"),
        (test(Op::Lt, Ty::Ptr, P, Q), pair),
        (test(Op::Le, Ty::Ptr, P, Q), pair),
        (test(Op::Gt, Ty::Ptr, P, Q), pair),
        (test(Op::Ge, Ty::Ptr, P, Q), pair),
        (test(Op::Ne, Ty::Ptr, Q, Opnd::Num(0)), b"reg_set(q);"),
        (test(Op::Lt, int(32, true), X, Y), b"reg_set(x);reg_set(y);"),
    ];
    for (instr, text) in rows {
        assert!(rt; asks(rt.alloc(), instr, text)?);
    }
    Ok(())
}

#[test]
fn accesses_ask_their_rows(rt: HostRuntime) -> Result<(), Fail> {
    let rows: [(Instr, &[u8]); 6] = [
        (
            Instr::Load {
                to: RegNo(9),
                at: P,
                access: access(32, 4),
            },
            b"not_null(p);live(p);span(p,0,4);aligned(p,4);filled(p,0,4);",
        ),
        (
            Instr::Load {
                to: RegNo(9),
                at: Q,
                access: access(8, 1),
            },
            b"reg_set(q);not_null(q);live(q);span(q,0,1);filled(q,0,1);",
        ),
        (
            Instr::Store {
                at: Q,
                value: X,
                access: access(32, 4),
            },
            b"reg_set(q);reg_set(x);not_null(q);live(q);span(q,0,4);aligned(q,4);writable(q);",
        ),
        (
            Instr::Store {
                at: P,
                value: C,
                access: access(8, 1),
            },
            b"reg_set(c);not_null(p);live(p);span(p,0,1);writable(p);",
        ),
        (
            Instr::CopyBytes {
                to: Q,
                from: P,
                size: 12,
                align: 4,
            },
            b"reg_set(q);not_null(q);not_null(p);live(q);live(p);span(q,0,12);span(p,0,12);aligned(q,4);aligned(p,4);writable(q);",
        ),
        (
            Instr::CopyBytes {
                to: P,
                from: P,
                size: 3,
                align: 1,
            },
            b"not_null(p);not_null(p);live(p);live(p);span(p,0,3);span(p,0,3);writable(p);",
        ),
    ];
    for (instr, text) in rows {
        assert!(rt; asks(rt.alloc(), instr, text)?);
    }
    Ok(())
}

#[test]
fn all_others_ask_for_values_alone(rt: HostRuntime) -> Result<(), Fail> {
    let rows: [(Instr, &[u8]); 13] = [
        (
            Instr::Const {
                to: RegNo(2),
                value: 7,
            },
            b"",
        ),
        (
            Instr::Copy {
                to: RegNo(9),
                from: RegNo(2),
            },
            b"reg_set(x);",
        ),
        (
            Instr::Copy {
                to: RegNo(2),
                from: RegNo(10),
            },
            b"",
        ),
        (
            Instr::AddrSlot {
                to: RegNo(4),
                slot: SlotNo(0),
            },
            b"",
        ),
        (
            Instr::AddrGlobal {
                to: RegNo(4),
                global: GlobalNo(0),
            },
            b"",
        ),
        (
            Instr::AddrStr {
                to: RegNo(4),
                text: StrNo(0),
            },
            b"",
        ),
        (
            Instr::Fill {
                slot: SlotNo(0),
                size: 4,
            },
            b"",
        ),
        (
            Instr::Enter {
                what: Local::Reg(RegNo(2)),
            },
            b"",
        ),
        (Instr::Leave { slot: SlotNo(0) }, b""),
        (Instr::Jump { next: NodeNo(0) }, b""),
        (Instr::Return { value: Some(X) }, b"reg_set(x);"),
        (
            Instr::Never {
                reason: Reason::Unread,
            },
            b"never(unread);",
        ),
        (
            Instr::Never {
                reason: Reason::End,
            },
            b"never(end);",
        ),
    ];
    for (instr, text) in rows {
        assert!(rt; asks(rt.alloc(), instr, text)?);
    }
    Ok(())
}

/// The operands of a call: `x`, `n`, `x` again, `q`.
fn passed(alloc: Global) -> Result<List<Opnd>, Memory> {
    let mut args = List::new(alloc);
    for operand in [X, N, X, Q] {
        args.push(operand)?;
    }
    Ok(args)
}

#[test]
fn calls_ask_for_each_value_once(rt: HostRuntime) -> Result<(), Fail> {
    let alloc = rt.alloc();
    let known = Instr::Call {
        to: None,
        callee: Callee::Fun(FunNo(0)),
        args: passed(alloc)?,
        strings: List::new(alloc),
    };
    assert!(rt; asks(alloc, known, b"reg_set(x);reg_set(q);")?);
    let unknown = Instr::Call {
        to: None,
        callee: Callee::Extern(Text::new(alloc, b"g")?),
        args: passed(alloc)?,
        strings: List::new(alloc),
    };
    assert!(rt; asks(alloc, unknown, b"reg_set(x);reg_set(q);never(extern);")?);
    let freeing = Instr::Lib {
        to: None,
        lib: LibNo(0),
        args: passed(alloc)?,
        strings: List::new(alloc),
    };
    let text: &[u8] =
        b"reg_set(x);reg_set(q);heap_start(x);heap_start(n);heap_start(x);heap_start(q);";
    assert!(rt; asks(alloc, freeing, text)?);
    Ok(())
}
