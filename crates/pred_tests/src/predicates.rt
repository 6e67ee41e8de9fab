use po_base::{Opnd, RegNo, Text};
use po_pred::{Atom, Over, Place, Pred, Why, spell, subst, weight};
use std::test::Fail;

/// A number, or every number of a range.
fn range(lo: i128, hi: i128) -> Place {
    Place { atom: None, lo, hi }
}

/// A number.
fn number(n: i128) -> Place {
    range(n, n)
}

/// An argument moved by numbers.
fn argument(index: u32, lo: i128, hi: i128) -> Place {
    Place {
        atom: Some(Atom::Param(index)),
        lo,
        hi,
    }
}

/// A register moved by numbers.
fn register(index: u32, lo: i128, hi: i128) -> Place {
    Place {
        atom: Some(Atom::Reg(RegNo(index))),
        lo,
        hi,
    }
}

fn nonzero(x: Place) -> Pred {
    Pred::Nonzero { x }
}

fn no_over(op: Over, bits: u8, a: Place, b: Place) -> Pred {
    Pred::NoOver {
        op,
        bits,
        a,
        b: Some(b),
    }
}

fn negation(bits: u8, a: Place) -> Pred {
    Pred::NoOver {
        op: Over::Neg,
        bits,
        a,
        b: None,
    }
}

fn span(p: Place, factor: i64, lo: Place, hi: Place) -> Pred {
    Pred::Span { p, factor, lo, hi }
}

fn filled(p: Place, factor: i64, lo: Place, hi: Place) -> Pred {
    Pred::Filled { p, factor, lo, hi }
}

fn int_in(x: Place, lo: i128, hi: i128) -> Pred {
    Pred::IntIn { x, lo, hi }
}

/// Every int.
fn word() -> Place {
    range(-2_147_483_648, 2_147_483_647)
}

#[test]
fn numbers_are_spelled(rt: HostRuntime) -> Result<(), Fail> {
    let alloc = rt.alloc();
    let names = [
        Some(Text::new(alloc, b"a")?),
        None,
        Some(Text::new(alloc, b"i")?),
        None,
    ];
    let rows: [(Pred, &[u8]); 19] = [
        (nonzero(argument(1, 0, 0)), b"nonzero($1)"),
        (nonzero(argument(1, 0, 3)), b"nonzero($1+0..3)"),
        (nonzero(argument(0, -3, -1)), b"nonzero($0-3..-1)"),
        (nonzero(argument(12, 2, 2)), b"nonzero($12+2)"),
        (nonzero(register(0, 0, 0)), b"nonzero(a)"),
        (nonzero(register(0, -4, -4)), b"nonzero(a-4)"),
        (nonzero(register(1, 0, 0)), b"nonzero(%0)"),
        (nonzero(register(3, 0, 0)), b"nonzero(%1)"),
        (nonzero(number(7)), b"nonzero(7)"),
        (nonzero(range(2, 5)), b"nonzero(2..5)"),
        (
            no_over(Over::Div, 32, word(), argument(1, 0, 0)),
            b"no_over(div,-2147483648..2147483647,$1)",
        ),
        (
            no_over(Over::Add, 64, register(0, 0, 0), register(2, 0, 0)),
            b"no_over(add64,a,i)",
        ),
        (
            no_over(Over::Rem, 32, register(1, 1, 2), number(-1)),
            b"no_over(rem,%0+1..2,-1)",
        ),
        (
            no_over(Over::Shl, 64, number(1), register(2, 0, 0)),
            b"no_over(shl64,1,i)",
        ),
        (
            negation(32, number(2_147_483_647)),
            b"no_over(neg,2147483647)",
        ),
        (negation(64, register(0, 0, 0)), b"no_over(neg64,a)"),
        (int_in(number(300), -128, 127), b"int_in(300,-128,127)"),
        (int_in(register(2, 0, 0), 0, 31), b"int_in(i,0,31)"),
        (Pred::RegSet { v: RegNo(2) }, b"reg_set(i)"),
    ];
    for (predicate, text) in rows {
        let spelled = spell(alloc, &predicate, &names)?;
        assert_eq!(rt; spelled.bytes(), text);
    }
    Ok(())
}

#[test]
fn pointers_are_spelled(rt: HostRuntime) -> Result<(), Fail> {
    let alloc = rt.alloc();
    let names = [
        Some(Text::new(alloc, b"p")?),
        Some(Text::new(alloc, b"q")?),
        Some(Text::new(alloc, b"i")?),
        None,
    ];
    let p = register(0, 0, 0);
    let q = register(1, 0, 0);
    let i = register(2, 0, 0);
    let rows: [(Pred, &[u8]); 24] = [
        (Pred::NotNull { p }, b"not_null(p)"),
        (Pred::NotNull { p: number(0) }, b"not_null(0)"),
        (
            Pred::Live {
                p: argument(0, 4, 4),
            },
            b"live($0+4)",
        ),
        (span(register(3, 0, 0), 4, i, i), b"span(%0,4*i,4*i)"),
        (span(p, 1, number(0), number(4)), b"span(p,0,4)"),
        (span(p, 4, register(2, 1, 1), i), b"span(p,4*i+1,4*i)"),
        (span(p, -8, i, i), b"span(p,-8*i,-8*i)"),
        (span(p, -1, i, number(3)), b"span(p,-1*i,-3)"),
        (span(p, 4, number(3), range(1, 2)), b"span(p,12,4..8)"),
        (span(p, -4, range(1, 2), number(0)), b"span(p,-4..-8,0)"),
        (span(p, 0, range(1, 2), i), b"span(p,0,0*i)"),
        (
            span(
                p,
                9_223_372_036_854_775_807,
                number(18_446_744_073_709_551_615),
                number(1),
            ),
            b"span(p,170141183460469231704017187605319778305,9223372036854775807)",
        ),
        (
            span(argument(0, -1, 1), 1, number(-1024), number(1024)),
            b"span($0-1..1,-1024,1024)",
        ),
        (filled(p, 1, number(0), i), b"filled(p,0,i)"),
        (
            filled(argument(0, 0, 0), 2, number(0), argument(1, 0, 0)),
            b"filled($0,0,2*$1)",
        ),
        (Pred::Writable { p: q }, b"writable(q)"),
        (Pred::Aligned { p, a: 16 }, b"aligned(p,16)"),
        (Pred::SameBlock { p, q }, b"same_block(p,q)"),
        (Pred::HeapStart { p }, b"heap_start(p)"),
        (
            Pred::Terminated {
                p: register(0, 3, 3),
            },
            b"terminated(p+3)",
        ),
        (Pred::Apart { p, q, n: i }, b"apart(p,q,i)"),
        (Pred::RoomFor { p, q: number(0) }, b"room_for(p,0)"),
        (Pred::Never { why: Why::Unread }, b"never(unread)"),
        (Pred::Never { why: Why::Extern }, b"never(extern)"),
    ];
    for (predicate, text) in rows {
        let spelled = spell(alloc, &predicate, &names)?;
        assert_eq!(rt; spelled.bytes(), text);
    }
    Ok(())
}

#[test]
fn predicates_stand_in_their_order(rt: HostRuntime) {
    let p = argument(0, 0, 0);
    let q = argument(1, 0, 0);
    let ascending = [
        Pred::NotNull { p: number(0) },
        Pred::NotNull {
            p: register(9, 0, 0),
        },
        Pred::NotNull { p },
        Pred::Live { p },
        span(p, 9, number(0), number(1)),
        span(p, 1, number(0), number(2)),
        span(p, 2, number(0), number(2)),
        span(p, -3, number(1), number(0)),
        filled(p, 1, number(0), number(1)),
        Pred::RegSet { v: RegNo(2) },
        Pred::RegSet { v: RegNo(10) },
        Pred::Writable { p },
        nonzero(number(3)),
        nonzero(range(3, 5)),
        nonzero(number(4)),
        nonzero(register(9, 0, 0)),
        nonzero(register(9, 1, 1)),
        nonzero(argument(0, 0, 0)),
        nonzero(argument(1, -2, -2)),
        no_over(Over::Add, 32, argument(5, 0, 0), argument(5, 0, 0)),
        no_over(Over::Add, 64, number(1), number(1)),
        no_over(Over::Add, 64, number(1), p),
        no_over(Over::Sub, 32, number(1), number(1)),
        no_over(Over::Mul, 32, number(1), number(1)),
        no_over(Over::Div, 32, number(1), number(1)),
        no_over(Over::Rem, 32, number(1), number(1)),
        no_over(Over::Shl, 32, number(1), number(1)),
        negation(32, number(1)),
        negation(64, number(0)),
        int_in(number(1), 5, 6),
        int_in(p, -1, 6),
        int_in(p, 0, 3),
        int_in(p, 0, 4),
        Pred::Aligned { p, a: 8 },
        Pred::Aligned { p: q, a: 4 },
        Pred::SameBlock { p, q: p },
        Pred::SameBlock { p, q },
        Pred::HeapStart { p },
        Pred::Terminated { p },
        Pred::Apart { p, q, n: number(1) },
        Pred::Apart { p, q, n: p },
        Pred::RoomFor { p, q },
        Pred::Never { why: Why::Unread },
        Pred::Never { why: Why::End },
        Pred::Never { why: Why::Extern },
    ];
    for (i, first) in ascending.iter().enumerate() {
        for (j, second) in ascending.iter().enumerate() {
            assert!(rt; (first < second) == (i < j));
            assert!(rt; (first == second) == (i == j));
        }
    }
}

#[test]
fn places_weigh_by_what_they_name(rt: HostRuntime) {
    let p = argument(0, 0, 0);
    let rows = [
        (nonzero(number(7)), 2),
        (nonzero(range(2, 5)), 3),
        (nonzero(register(3, 0, 0)), 4),
        (nonzero(argument(0, 0, 0)), 4),
        (nonzero(argument(0, 1, 1)), 5),
        (nonzero(argument(0, 0, 1)), 6),
        (no_over(Over::Div, 32, word(), argument(1, 0, 0)), 6),
        (
            no_over(Over::Add, 64, argument(0, 1, 2), argument(1, 1, 2)),
            11,
        ),
        (negation(32, p), 4),
        (span(p, 4, number(0), number(9)), 6),
        (
            filled(argument(0, 1, 1), 1, argument(1, 0, 0), range(1, 2)),
            10,
        ),
        (int_in(p, -128, 127), 4),
        (Pred::Aligned { p, a: 8 }, 4),
        (Pred::Apart { p, q: p, n: p }, 10),
        (Pred::RegSet { v: RegNo(7) }, 1),
        (Pred::Never { why: Why::End }, 1),
    ];
    for (predicate, weighs) in rows {
        assert_eq!(rt; weight(&predicate), weighs);
    }
}

#[test]
fn arguments_are_put_in_their_places(rt: HostRuntime) {
    let swapped = [Opnd::Reg(RegNo(1)), Opnd::Reg(RegNo(0))];
    let difference = Pred::NoOver {
        op: Over::Sub,
        bits: 32,
        a: Place {
            atom: Some(Atom::Param(0)),
            lo: 1,
            hi: 2,
        },
        b: Some(Place {
            atom: Some(Atom::Param(1)),
            lo: 0,
            hi: 0,
        }),
    };
    assert_eq!(rt;
        subst(&difference, &swapped),
        no_over(Over::Sub, 32, register(1, 1, 2), register(0, 0, 0))
    );
    let numbers = [Opnd::Num(5), Opnd::Num(-1)];
    assert_eq!(rt;
        subst(&difference, &numbers),
        no_over(Over::Sub, 32, range(6, 7), number(-1))
    );
}

#[test]
fn null_stays_null_where_it_is_put_in(rt: HostRuntime) {
    let room = Pred::Apart {
        p: Place {
            atom: Some(Atom::Param(0)),
            lo: 4,
            hi: 8,
        },
        q: Place {
            atom: Some(Atom::Param(1)),
            lo: -2,
            hi: -2,
        },
        n: Place {
            atom: Some(Atom::Param(1)),
            lo: 3,
            hi: 3,
        },
    };
    let args = [Opnd::Num(0), Opnd::Reg(RegNo(6))];
    assert_eq!(rt;
        subst(&room, &args),
        Pred::Apart {
            p: number(0),
            q: register(6, -2, -2),
            n: register(6, 3, 3),
        }
    );
}
