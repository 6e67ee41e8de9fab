ghost use Rattle.po_types.specs.Nesting.{IsWellFounded};

use crate::types::{arrays, stars};
use po_arith::{IntType, Target};
use po_base::{List, Memory};
use po_types::{CType, Env, Shared, spell_type};
use std::alloc::Global;
use std::test::Fail;

/// Whether a type has this spelling.
fn spells(alloc: Global, env: &Env, t: &CType, wanted: &[u8]) -> Result<bool, Memory>
    requires { IsWellFounded env.now }
{
    let spelling = spell_type(alloc, t, env)?;
    Ok(spelling.text.bytes() == wanted)
}

#[test]
fn integers_are_spelled_by_their_bits(rt: HostRuntime) -> Result<(), Fail> {
    let env = Env::new(rt.alloc(), Target::L64);
    let rows: [(u8, bool, &[u8]); 6] = [
        (1, false, b"u1"),
        (8, true, b"i8"),
        (16, false, b"u16"),
        (32, true, b"i32"),
        (64, true, b"i64"),
        (64, false, b"u64"),
    ];
    for (bits, signed, wanted) in rows {
        let t = CType::Int(IntType { bits, signed });
        assert!(rt; spells(rt.alloc(), &env, &t, wanted)?);
    }
    assert!(rt; spells(rt.alloc(), &env, &CType::Void, b"void")?);
    Ok(())
}

#[test]
fn arrays_and_pointers_stand_before_what_they_are_made_of(rt: HostRuntime) -> Result<(), Fail> {
    let env = Env::new(rt.alloc(), Target::L64);
    let rows: [(&[Option<u64>], &[u8]); 3] = [
        (&[Some(5), Some(30)], b"[30][5]**i32"),
        (&[None], b"[]**i32"),
        (&[], b"**i32"),
    ];
    for (counts, wanted) in rows {
        let t = arrays(rt.alloc(), stars(rt.alloc(), 2)?, counts)?;
        assert!(rt; spells(rt.alloc(), &env, &t, wanted)?);
    }
    Ok(())
}

/// A function that gives an int and takes a pointer to int and a type.
fn function(alloc: Global, second: CType, more: bool) -> Result<CType, Memory> {
    let mut params = List::new(alloc);
    params.push(stars(alloc, 1)?)?;
    params.push(second)?;
    let params = Shared::new(alloc, params)?;
    let result = Shared::new(alloc, CType::Int(IntType::INT))?;
    Ok(CType::Fun(result, params, more))
}

#[test]
fn functions_are_spelled_with_their_parameters(rt: HostRuntime) -> Result<(), Fail> {
    let env = Env::new(rt.alloc(), Target::L64);
    let plain = function(rt.alloc(), CType::Int(IntType::INT), false)?;
    assert!(rt; spells(rt.alloc(), &env, &plain, b"(*i32,i32)i32")?);
    let more = function(rt.alloc(), stars(rt.alloc(), 2)?, true)?;
    assert!(rt; spells(rt.alloc(), &env, &more, b"(*i32,**i32,...)i32")?);
    Ok(())
}
