// Tests of whole declarations, and of the names in force behind them.
use crate::files::letters;
use crate::texts::{expanded, names, tokens_of};
use po_base::{Memory, Tokens};
use po_decl_read::read_decl;
use std::alloc::Global;
use std::test::Fail;

/// Whether tokens are a declaration, where `T` is a typedef name.
fn is_one(alloc: Global, tokens: &Tokens) -> Result<bool, Memory> {
    let found = read_decl(alloc, tokens, 0, u32::MAX, &mut names(alloc)?)?;
    Ok(found.is_some())
}

/// Whether a text is a declaration, where `T` is a typedef name.
fn is_read(alloc: Global, text: &[u8]) -> Result<bool, Memory> {
    match tokens_of(alloc, text)? {
        Some(tokens) => is_one(alloc, &tokens),
        None => Ok(false),
    }
}

#[test]
fn specifiers_are_those_of_the_grammar(rt: HostRuntime) -> Result<(), Fail> {
    let rows: [(&[u8], &[u8]); 24] = [
        (b"int x;", b"int x"),
        (b"static int x;", b"static static int x;"),
        (b"int typedef x;", b"typedef extern int x;"),
        (b"extern x;", b"x;"),
        (b"register T x;", b"int x register;"),
        (b"auto int x;", b"struct{auto int x;}y;"),
        (b"inline inline int f();", b"struct{inline int x;}y;"),
        (b"const int x;", b"volatile int x;"),
        (b"int restrict x;", b"int _Complex x;"),
        (b"long unsigned int long x;", b"float x;"),
        (b"T x;", b"U x;"),
        (b"T;", b"U;"),
        (b"T T;", b"T T T;"),
        (b"T const x;", b"T int x;"),
        (b"struct S;", b"union S;"),
        (b"const struct S x;", b"int struct S x;"),
        (b"struct S{int x;}y;", b"struct S{}y;"),
        (b"struct{int x,*y[2];};", b"struct{int;};"),
        (b"struct{T T;}x;", b"struct{T;}x;"),
        (b"struct{int x;const T*y;}x;", b"struct{int x:3;}x;"),
        (b"struct{struct{int x;}x;}x;", b"struct{struct{int x;};}x;"),
        (b"enum E x;", b"enum;"),
        (b"enum{A,B=1,}x;", b"enum{}x;"),
        (b"enum E{A=a?b:c};", b"enum E{A=a=b};"),
    ];
    for (good, bad) in rows {
        assert!(rt; is_read(rt.alloc(), good)?);
        assert!(rt; !is_read(rt.alloc(), bad)?);
    }
    Ok(())
}

#[test]
fn declarators_are_those_of_the_grammar(rt: HostRuntime) -> Result<(), Fail> {
    let rows: [(&[u8], &[u8]); 16] = [
        (b";", b";;"),
        (b"int;", b""),
        (b"int*x;", b"int x*;"),
        (b"int*const*restrict x;", b"int*volatile x;"),
        (b"int x[];", b"int x[;"),
        (b"int x[2][sizeof(T)];", b"int x[1,2];"),
        (b"int f();", b"int(f)();"),
        (b"int f(void);", b"int f(...);"),
        (b"int f(int,T*y,...);", b"int f(int,...,int);"),
        (b"int f(int(int),int());", b"int f(int(*g)(int));"),
        (b"int f(register int x[2]);", b"int f(int)[2];"),
        (b"int f(T);", b"int f(a,b);"),
        (b"int f(struct{int x;}*);", b"int f(int,);"),
        (b"int f(int x),*g(T),h[2];", b"int f(int x)g;"),
        (b"int x,y;", b"int x,,y;"),
        (b"T x,T;", b"T x,T,;"),
    ];
    for (good, bad) in rows {
        assert!(rt; is_read(rt.alloc(), good)?);
        assert!(rt; !is_read(rt.alloc(), bad)?);
    }
    Ok(())
}

#[test]
fn initialisers_stand_behind_declarators(rt: HostRuntime) -> Result<(), Fail> {
    let rows: [(&[u8], &[u8]); 8] = [
        (b"int x=1;", b"int x=;"),
        (b"int x=1,y=2;", b"int x=1 y=2;"),
        (b"int x=a?b,c:d,y;", b"int x=a?b:;"),
        (b"int x[]={1,{2,3},};", b"int x[]={};"),
        (b"int x=(1,2);", b"int x=1,2;"),
        (b"char s[]=\"ab\" \"c\";", b"int x={.y=1};"),
        (b"int*p=&x,q;", b"int p==x;"),
        (b"int f()=f;", b"struct{int x=1;}y;"),
    ];
    for (good, bad) in rows {
        assert!(rt; is_read(rt.alloc(), good)?);
        assert!(rt; !is_read(rt.alloc(), bad)?);
    }
    Ok(())
}

#[test]
fn names_are_in_force_behind_their_declarators(rt: HostRuntime) -> Result<(), Fail> {
    let rows: [(&[u8], &[u8]); 27] = [
        (b"int x;;", b"dd"),
        (b"int f(){}", b"b"),
        (b"typedef int T,*U;T x;U y;", b"ddd"),
        (b"typedef int T;T T;T x;", b"dd-"),
        (b"typedef T;T x;", b"dd"),
        (b"typedef int T;static T,x;", b"d-"),
        (b"typedef int T;typedef int*T;T x;", b"ddd"),
        (b"typedef int T;typedef T;T x;", b"ddd"),
        (b"typedef int T,U[sizeof(T*)];U x;", b"dd"),
        (b"typedef int T;int T=sizeof(T);T x;", b"dd-"),
        (b"typedef int T;int T=sizeof T;", b"dd"),
        (b"typedef int T;int x=sizeof T;", b"d-"),
        (b"typedef int T;int T[sizeof(T*)];", b"dd"),
        (b"typedef int T;int T,x=(T)1;", b"d-"),
        (b"typedef int T;int T(T*x);T x;", b"dd-"),
        (b"typedef int T;enum{T=sizeof(T)};T x;", b"dd-"),
        (b"typedef int T;enum{T=(T)1,U=T};", b"dd"),
        (b"typedef int T;enum{T,U=(T)1};", b"d-"),
        (b"typedef int T;int f(int T,int a[sizeof T]);T x;", b"ddd"),
        (b"typedef int T;int f(int a[sizeof T],int T);", b"d-"),
        (b"typedef int T;int f(T T,T x);", b"d-"),
        (b"typedef int T;int f(int T),a[sizeof(T*)];T x;", b"ddd"),
        (b"typedef int T;int f(int T),a[sizeof T];", b"d-"),
        (b"typedef int T;int f(enum{T}x,int a[T]);T x;", b"ddd"),
        (b"typedef int T;struct{enum{T}x;int a[T];}y;T x;", b"dd-"),
        (b"typedef int T;struct{int T;T x;}y;T x;", b"ddd"),
        (b"typedef int T;struct T{T x;};struct T y;T x;", b"dddd"),
    ];
    for (text, wanted) in rows {
        assert!(rt; letters(rt.alloc(), text)?.as_slice() == wanted);
    }
    Ok(())
}

#[test]
fn parameters_stars_and_sizes_nest_without_a_limit(rt: HostRuntime) -> Result<(), Fail> {
    let rows: [(&[u8], bool); 6] = [
        (b"int f@(int@@)@;", true),
        (b"int f@(int@@)@", false),
        (b"int@*@x;", true),
        (b"int@*@;", false),
        (b"int x@[1]@;", true),
        (b"int x@[1]@[1,2];", false),
    ];
    for (text, wanted) in rows {
        let text = expanded(rt.alloc(), text, 1_000_000)?;
        assert!(rt; is_read(rt.alloc(), text.as_slice())? == wanted);
    }
    Ok(())
}

#[test]
fn struct_bodies_nest_without_a_limit(rt: HostRuntime) -> Result<(), Fail> {
    let whole = expanded(rt.alloc(), b"@struct{@int x;@}x;@", 800_000)?;
    assert!(rt; is_read(rt.alloc(), whole.as_slice())?);
    let open = expanded(rt.alloc(), b"@struct{@int x@}x;@", 800_000)?;
    assert!(rt; !is_read(rt.alloc(), open.as_slice())?);
    Ok(())
}
