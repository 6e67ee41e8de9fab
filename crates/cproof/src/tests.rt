// Tests of the top call.
use po_app::{Status, run};
use po_base::{List, Text};
use po_io::{MemFiles, MemSink};
use std::alloc::{AllocError, Global};
use std::process::Abort;

/// Room that is ample for each text here.
const ROOM: usize = 1_048_576;

#[derive(Clone, Copy)]
/// The outside world of a run: one file, the most bytes of a write, and the calls that fail.
struct World<'a> {
    name: &'a str,
    bytes: &'a [u8],
    most: usize,
    failing_reads: &'a [u64],
    failing_writes: &'a [u64],
}

fn numbers(rt: &impl Abort, alloc: Global, calls: &[u64]) -> List<u64> {
    List::from_vec(Vec::from_slice(alloc, calls).expect(rt, "memory"))
}

/// Runs on these words and asserts the status and what was written.
fn expect(
    rt: &impl Abort,
    alloc: Global,
    world: &World<'_>,
    words: &[&str],
    status: Status,
    text: &[u8],
) {
    let name = Text::new(alloc, world.name.as_bytes()).expect(rt, "memory");
    let bytes = List::from_vec(Vec::from_slice(alloc, world.bytes).expect(rt, "memory"));
    let mut held = List::new(alloc);
    held.push((name, bytes)).expect(rt, "memory");
    let mut files = MemFiles::new(held, numbers(rt, alloc, world.failing_reads));
    let failing = numbers(rt, alloc, world.failing_writes);
    assert!(rt; 0 < world.most);
    let mut out = MemSink::new(alloc, ROOM, world.most, failing).expect(rt, "memory");
    let mut owned = Vec::new(alloc);
    for word in words {
        let word = String::from_str(alloc, word).expect(rt, "memory");
        owned.push(word).expect(rt, "memory");
    }
    let answer = run(alloc, &owned, &mut files, &mut out);
    assert!(rt; answer == status, "status");
    assert!(rt; out.bytes() == text, "text");
}

/// Runs `check a.c` on a file of these bytes.
fn expect_report(rt: &impl Abort, alloc: Global, bytes: &[u8], status: Status, text: &[u8]) {
    let world = World {
        name: "a.c",
        bytes,
        most: ROOM,
        failing_reads: &[],
        failing_writes: &[],
    };
    expect(rt, alloc, &world, &["check", "a.c"], status, text);
}

#[test]
fn an_operator_is_closed_where_its_range_shows_it(rt: HostRuntime) {
    let rows: [(&[u8], Status, &[u8]); 8] = [
        (
            b"int f(void){return 0;}",
            Status::Clean,
            b"total 0 closed 0 delegated 0 open 0\n",
        ),
        (
            b"int f(int a){return a%7;}",
            Status::Clean,
            b"a.c:1 f 0.0 nonzero(7) closed range\na.c:1 f 0.1 no_over(rem,a,7) closed range\ntotal 2 closed 2 delegated 0 open 0\n",
        ),
        (
            b"int f(void){return 1/0;}",
            Status::Open,
            b"a.c:1 f 0.0 nonzero(0) open\na.c:1 f 0.1 no_over(div,1,0) closed range\ntotal 2 closed 1 delegated 0 open 1\n",
        ),
        (
            b"int f(void){return 1/0+1;}",
            Status::Open,
            b"a.c:1 f 0.0 nonzero(0) open\na.c:1 f 0.1 no_over(div,1,0) closed range\na.c:1 f 1.0 no_over(add,%0,1) open\ntotal 3 closed 1 delegated 0 open 2\n",
        ),
        (
            b"int f(void){return 2147483647-0;}",
            Status::Clean,
            b"a.c:1 f 0.0 no_over(sub,2147483647,0) closed range\ntotal 1 closed 1 delegated 0 open 0\n",
        ),
        (
            b"int f(void){return 2147483647+1;}",
            Status::Open,
            b"a.c:1 f 0.0 no_over(add,2147483647,1) open\ntotal 1 closed 0 delegated 0 open 1\n",
        ),
        (
            b"int f(int a){return a*1;}",
            Status::Clean,
            b"a.c:1 f 0.0 no_over(mul,a,1) closed range\ntotal 1 closed 1 delegated 0 open 0\n",
        ),
        (b"", Status::Clean, b"total 0 closed 0 delegated 0 open 0\n"),
    ];
    for (bytes, status, text) in rows {
        expect_report(&rt, rt.alloc(), bytes, status, text);
    }
}

// Nodes and temporaries are numbered operands first and from left to right, functions by their place, and a
// line is that of its operator.
#[test]
fn obligations_stand_by_function_and_node(rt: HostRuntime) {
    expect_report(
        &rt,
        rt.alloc(),
        b"int f(int a,int b)\n{\treturn (a-1)*b\n+ 2 % (3-3) ;\n}\nint g ( void ) { return ( 4 ) ; } int h(int c){return c-c-c;}",
        Status::Open,
        b"a.c:2 f 0.0 no_over(sub,a,1) delegated no_over(sub,$0,1)\n\
          a.c:2 f 1.0 no_over(mul,%0,b) delegated no_over(mul,-2147483648..2147483647,$1)\n\
          a.c:3 f 2.0 no_over(sub,3,3) closed range\n\
          a.c:3 f 3.0 nonzero(%2) open\n\
          a.c:3 f 3.1 no_over(rem,2,%2) closed range\n\
          a.c:3 f 4.0 no_over(add,%1,%3) open\n\
          a.c:5 h 0.0 no_over(sub,c,c) delegated no_over(sub,$0,$0)\n\
          a.c:5 h 1.0 no_over(sub,%0,c) delegated no_over(sub,-2147483648..2147483647,$0)\n\
          assume a.c f no_over(sub,$0,1)\n\
          assume a.c f no_over(mul,-2147483648..2147483647,$1)\n\
          assume a.c h no_over(sub,-2147483648..2147483647,$0)\n\
          assume a.c h no_over(sub,$0,$0)\n\
          total 8 closed 2 delegated 4 open 2\n",
    );
}

#[test]
fn what_a_function_asks_of_its_arguments_is_delegated(rt: HostRuntime) {
    let rows: [(&[u8], Status, &[u8]); 4] = [
        (
            b"int d(int a,int b){return a/b;}",
            Status::Clean,
            b"a.c:1 d 0.0 nonzero(b) delegated nonzero($1)\n\
              a.c:1 d 0.1 no_over(div,a,b) delegated no_over(div,$0,$1)\n\
              assume a.c d nonzero($1)\n\
              assume a.c d no_over(div,$0,$1)\n\
              total 2 closed 0 delegated 2 open 0\n",
        ),
        (
            b"int f(int a){return a+1;}",
            Status::Clean,
            b"a.c:1 f 0.0 no_over(add,a,1) delegated no_over(add,$0,1)\n\
              assume a.c f no_over(add,$0,1)\n\
              total 1 closed 0 delegated 1 open 0\n",
        ),
        (
            b"int f(int a){return 5/a;}",
            Status::Clean,
            b"a.c:1 f 0.0 nonzero(a) delegated nonzero($0)\n\
              a.c:1 f 0.1 no_over(div,5,a) closed range\n\
              assume a.c f nonzero($0)\n\
              total 2 closed 1 delegated 1 open 0\n",
        ),
        (
            b"int f(int a,int b){return (a%7)/(b%7);}",
            Status::Open,
            b"a.c:1 f 0.0 nonzero(7) closed range\n\
              a.c:1 f 0.1 no_over(rem,a,7) closed range\n\
              a.c:1 f 1.0 nonzero(7) closed range\n\
              a.c:1 f 1.1 no_over(rem,b,7) closed range\n\
              a.c:1 f 2.0 nonzero(%1) open\n\
              a.c:1 f 2.1 no_over(div,%0,%1) open\n\
              total 6 closed 4 delegated 0 open 2\n",
        ),
    ];
    for (bytes, status, text) in rows {
        expect_report(&rt, rt.alloc(), bytes, status, text);
    }
}

#[test]
fn a_call_supports_what_the_called_function_assumes(rt: HostRuntime) {
    let rows: [(&[u8], Status, &[u8]); 3] = [
        (
            b"int d(int a,int b){return a/b;}int m(void){return d(6,3);}",
            Status::Clean,
            b"a.c:1 d 0.0 nonzero(b) delegated nonzero($1)\n\
              a.c:1 d 0.1 no_over(div,a,b) delegated no_over(div,$0,$1)\n\
              a.c:1 m 0.0 nonzero(3) closed range\n\
              a.c:1 m 0.1 no_over(div,6,3) closed range\n\
              assume a.c d nonzero($1)\n\
              assume a.c d no_over(div,$0,$1)\n\
              total 4 closed 2 delegated 2 open 0\n",
        ),
        (
            b"int d(int a,int b){return a/b;}int m(void){return d(6,0);}",
            Status::Open,
            b"a.c:1 d 0.0 nonzero(b) delegated nonzero($1)\n\
              a.c:1 d 0.1 no_over(div,a,b) delegated no_over(div,$0,$1)\n\
              a.c:1 m 0.0 nonzero(0) open\n\
              a.c:1 m 0.1 no_over(div,6,0) closed range\n\
              assume a.c d nonzero($1)\n\
              assume a.c d no_over(div,$0,$1)\n\
              total 4 closed 1 delegated 2 open 1\n",
        ),
        // A call's line is that of its bracket, its arguments come before it, and its own obligations count on.
        (
            b"int d(int a,int b){return a/b;}\nint m(int x){return d\n(x-1,\nx)-d(1,x);}",
            Status::Open,
            b"a.c:1 d 0.0 nonzero(b) delegated nonzero($1)\n\
              a.c:1 d 0.1 no_over(div,a,b) delegated no_over(div,$0,$1)\n\
              a.c:3 m 0.0 no_over(sub,x,1) delegated no_over(sub,$0,1)\n\
              a.c:3 m 1.0 nonzero(x) delegated nonzero($0)\n\
              a.c:3 m 1.1 no_over(div,%0,x) delegated no_over(div,-2147483648..2147483647,$0)\n\
              a.c:4 m 2.0 nonzero(x) delegated nonzero($0)\n\
              a.c:4 m 2.1 no_over(div,1,x) closed range\n\
              a.c:4 m 3.0 no_over(sub,%1,%2) open\n\
              assume a.c d nonzero($1)\n\
              assume a.c d no_over(div,$0,$1)\n\
              assume a.c m nonzero($0)\n\
              assume a.c m no_over(sub,$0,1)\n\
              assume a.c m no_over(div,-2147483648..2147483647,$0)\n\
              total 8 closed 1 delegated 6 open 1\n",
        ),
    ];
    for (bytes, status, text) in rows {
        expect_report(&rt, rt.alloc(), bytes, status, text);
    }
}

#[test]
fn a_function_that_calls_itself_with_exchanged_arguments_assumes_both_ways(rt: HostRuntime) {
    expect_report(
        &rt,
        rt.alloc(),
        b"int f(int a,int b){return f(b,a)/b;}",
        Status::Clean,
        b"a.c:1 f 0.0 nonzero(b) delegated nonzero($1)\n\
          a.c:1 f 0.1 nonzero(a) delegated nonzero($0)\n\
          a.c:1 f 0.2 no_over(div,-2147483648..2147483647,b) delegated no_over(div,-2147483648..2147483647,$1)\n\
          a.c:1 f 0.3 no_over(div,-2147483648..2147483647,a) delegated no_over(div,-2147483648..2147483647,$0)\n\
          a.c:1 f 1.0 nonzero(b) delegated nonzero($1)\n\
          a.c:1 f 1.1 no_over(div,%0,b) delegated no_over(div,-2147483648..2147483647,$1)\n\
          assume a.c f nonzero($0)\n\
          assume a.c f nonzero($1)\n\
          assume a.c f no_over(div,-2147483648..2147483647,$0)\n\
          assume a.c f no_over(div,-2147483648..2147483647,$1)\n\
          total 6 closed 0 delegated 6 open 0\n",
    );
}

/// Appends a line of text.
fn append(rt: &impl Abort, text: &mut Vec<u8>, line: Result<String, AllocError>) {
    let line = line.expect(rt, "memory");
    text.extend_from_slice(line.as_bytes()).expect(rt, "memory");
}

// Each function hands its arguments on to the one before it, so what the first asks is asked of all.
#[test]
fn a_chain_of_a_thousand_functions_hands_its_assumptions_on(rt: HostRuntime) {
    let alloc = rt.alloc();
    let first: &[u8] = b"int f0(int a,int b){return a/b;}";
    let mut file = Vec::from_slice(alloc, first).expect(&rt, "memory");
    let first: &[u8] =
        b"a.c:1 f0 0.0 nonzero(b) delegated nonzero($1)\na.c:1 f0 0.1 no_over(div,a,b) delegated no_over(div,$0,$1)\n";
    let mut text = Vec::from_slice(alloc, first).expect(&rt, "memory");
    for k in 1..1000u32 {
        append(
            &rt,
            &mut file,
            format!(in alloc; "int f{k}(int a,int b){{return f{}(a,b);}}", k - 1),
        );
        append(
            &rt,
            &mut text,
            format!(in alloc; "a.c:1 f{k} 0.0 nonzero(b) delegated nonzero($1)\n"),
        );
        append(
            &rt,
            &mut text,
            format!(in alloc; "a.c:1 f{k} 0.1 no_over(div,a,b) delegated no_over(div,$0,$1)\n"),
        );
    }
    for k in 0..1000u32 {
        append(
            &rt,
            &mut text,
            format!(in alloc; "assume a.c f{k} nonzero($1)\nassume a.c f{k} no_over(div,$0,$1)\n"),
        );
    }
    append(
        &rt,
        &mut text,
        format!(in alloc; "total 2000 closed 0 delegated 2000 open 0\n"),
    );
    expect_report(&rt, alloc, &file, Status::Clean, &text);
}

#[test]
fn a_function_that_is_called_a_thousand_times_is_supported_at_each_call(rt: HostRuntime) {
    let alloc = rt.alloc();
    let first: &[u8] = b"int d(int a,int b){return a/b;}";
    let mut file = Vec::from_slice(alloc, first).expect(&rt, "memory");
    let first: &[u8] =
        b"a.c:1 d 0.0 nonzero(b) delegated nonzero($1)\na.c:1 d 0.1 no_over(div,a,b) delegated no_over(div,$0,$1)\n";
    let mut text = Vec::from_slice(alloc, first).expect(&rt, "memory");
    for k in 1..=1000u32 {
        append(
            &rt,
            &mut file,
            format!(in alloc; "int m{k}(void){{return d(6,{k});}}"),
        );
        append(
            &rt,
            &mut text,
            format!(in alloc; "a.c:1 m{k} 0.0 nonzero({k}) closed range\n"),
        );
        append(
            &rt,
            &mut text,
            format!(in alloc; "a.c:1 m{k} 0.1 no_over(div,6,{k}) closed range\n"),
        );
    }
    append(
        &rt,
        &mut text,
        format!(in alloc;
            "assume a.c d nonzero($1)\nassume a.c d no_over(div,$0,$1)\ntotal 2002 closed 2000 delegated 2 open 0\n"
        ),
    );
    expect_report(&rt, alloc, &file, Status::Clean, &text);
}

#[test]
fn a_call_names_an_earlier_function_or_its_own_with_its_arguments(rt: HostRuntime) {
    let refused: [&[u8]; 12] = [
        b"int g(int a){return f(a);}int f(int a){return a;}",
        b"int f(int a){return a;}int g(int a){return f();}",
        b"int f(int a){return a;}int g(int a){return f(a,a);}",
        b"int f(int a){return a;}int g(int a){return f(a,);}",
        b"int f(int a){return a;}int g(int a){return f(,a);}",
        b"int f(int a){return a;}int g(int a){return f(a;}",
        b"int f(int a){return a;}int g(int a){return f;}",
        b"int f(int a){return a;}int g(int a){return (f)(a);}",
        b"int f(int a){return a;}int g(int a){return f(a)(a);}",
        b"int f(int a){return a;}int g(int f){return f(f);}",
        b"int f(void){return 1;}int g(void){return f(void);}",
        b"int f(int a){return a(1);}",
    ];
    for bytes in refused {
        expect_report(
            &rt,
            rt.alloc(),
            bytes,
            Status::Refused,
            b"refused not-yet a.c\n",
        );
    }
    expect_report(
        &rt,
        rt.alloc(),
        b"int f ( void ) { return 1 ; } int g(int f){return f;} int h(void){return f ( )*g(f());}",
        Status::Open,
        b"a.c:1 h 3.0 no_over(mul,%0,%2) open\ntotal 1 closed 0 delegated 0 open 1\n",
    );
}

#[test]
fn what_is_no_served_file_is_refused(rt: HostRuntime) {
    let refused: [&[u8]; 34] = [
        b"int f(int a){return -a;}",
        b"int f(int a){return a--b;}",
        b"int f(int a){return a;",
        b"int f(int a){return a}",
        b"int f(int a){return ;}",
        b"int f(int a){return a+;}",
        b"int f(int a){return (a;}",
        b"int f(int a){return a);}",
        b"int f(int a){return b;}",
        b"int f(int a){return a b;}",
        b"int f(int a,int a){return a;}",
        b"int f(int a,){return a;}",
        b"int f(int){return 0;}",
        b"int f(){return 0;}",
        b"int f(void,int a){return a;}",
        b"int f(void){return 00;}",
        b"int f(void){return 01;}",
        b"int f(void){return 2147483648;}",
        b"int f(void){return 1u;}",
        b"int f(void){return 0x1;}",
        b"int f(void){return/**/0;}",
        b"int f(void){return0;}",
        b"intf(void){return 0;}",
        b"int while(void){return 0;}",
        b"int f(int _Bool){return 0;}",
        b"int f(void){return 0;}\r\n",
        b"int f(void){return 0;}\0",
        b"int f(void){return 0;}\x0c",
        b"int \xff(void){return 0;}",
        b"int f(void){return 0;};",
        b"int f(void);",
        b"int f(void){return 0;}int f(int a){return a;}",
        b"long f(void){return 0;}",
        b"x",
    ];
    for bytes in refused {
        expect_report(
            &rt,
            rt.alloc(),
            bytes,
            Status::Refused,
            b"refused not-yet a.c\n",
        );
    }
}

#[test]
fn names_may_begin_like_keywords(rt: HostRuntime) {
    expect_report(
        &rt,
        rt.alloc(),
        b"int intx(int returnx,int _,int void_){return _*1;}\n\n",
        Status::Clean,
        b"a.c:1 intx 0.0 no_over(mul,_,1) closed range\ntotal 1 closed 1 delegated 0 open 0\n",
    );
}

/// A function whose value is `a`, with so many openings before it and as many closings behind it.
fn nested(rt: &impl Abort, alloc: Global, count: usize, opening: &[u8], closing: &[u8]) -> Vec<u8> {
    let mut text = Vec::from_slice(alloc, b"int f(int a){return ").expect(rt, "memory");
    for _ in 0..count {
        text.extend_from_slice(opening).expect(rt, "memory");
    }
    text.extend_from_slice(b"a").expect(rt, "memory");
    for _ in 0..count {
        text.extend_from_slice(closing).expect(rt, "memory");
    }
    text.extend_from_slice(b";}").expect(rt, "memory");
    text
}

#[test]
fn expressions_nest_256_deep(rt: HostRuntime) {
    let none: &[u8] = b"total 0 closed 0 delegated 0 open 0\n";
    let refused: &[u8] = b"refused not-yet a.c\n";
    let within = nested(&rt, rt.alloc(), 255, b"(", b")");
    expect_report(&rt, rt.alloc(), &within, Status::Clean, none);
    let beyond = nested(&rt, rt.alloc(), 256, b"(", b")");
    expect_report(&rt, rt.alloc(), &beyond, Status::Refused, refused);
    let chain = nested(&rt, rt.alloc(), 256, b"", b"*1");
    expect_report(&rt, rt.alloc(), &chain, Status::Refused, refused);
}

// The last of the 255 operators stands at node 254, and its left operand is the result of the one before.
#[test]
fn a_row_of_255_operators_is_served(rt: HostRuntime) {
    let chain = nested(&rt, rt.alloc(), 255, b"", b"*1");
    let first: &[u8] = b"a.c:1 f 0.0 no_over(mul,a,1) closed range\n";
    let mut text = Vec::from_slice(rt.alloc(), first).expect(&rt, "memory");
    for node in 1..255u32 {
        let line = format!(in rt.alloc();
            "a.c:1 f {node}.0 no_over(mul,%{},1) closed range\n",
            node - 1
        );
        let line = line.expect(&rt, "memory");
        text.extend_from_slice(line.as_bytes())
            .expect(&rt, "memory");
    }
    text.extend_from_slice(b"total 255 closed 255 delegated 0 open 0\n")
        .expect(&rt, "memory");
    expect_report(&rt, rt.alloc(), &chain, Status::Clean, &text);
}

#[test]
fn a_file_of_more_than_sixteen_megabytes_is_too_long(rt: HostRuntime) {
    let none: &[u8] = b"total 0 closed 0 delegated 0 open 0\n";
    for (count, status, text) in [
        (16_777_216, Status::Clean, none),
        (16_777_217, Status::Refused, b"refused too-long a.c\n"),
    ] {
        let blanks = vec![in rt.alloc(); b' '; count].expect(&rt, "memory");
        expect_report(&rt, rt.alloc(), &blanks, status, text);
    }
}

#[test]
fn words_that_are_no_command_get_the_usage(rt: HostRuntime) {
    let world = World {
        name: "a.c",
        bytes: b"",
        most: ROOM,
        failing_reads: &[],
        failing_writes: &[],
    };
    let usage: &[u8] = b"usage: cproof check FILE\n";
    let rows: [&[&str]; 10] = [
        &[],
        &["check"],
        &["a.c"],
        &["Check", "a.c"],
        &["check", ""],
        &["check", "-a.c"],
        &["check", "--"],
        &["check", "a\n.c"],
        &["check", "a.c", "a.c"],
        &["check", "\u{1f}"],
    ];
    for words in rows {
        expect(&rt, rt.alloc(), &world, words, Status::Usage, usage);
    }
    let none: &[u8] = b"total 0 closed 0 delegated 0 open 0\n";
    let spaced = World {
        name: "a b\u{e9}-.c",
        ..world
    };
    expect(
        &rt,
        rt.alloc(),
        &spaced,
        &["check", "a b\u{e9}-.c"],
        Status::Clean,
        none,
    );
}

#[test]
fn faults_of_the_outside_are_told(rt: HostRuntime) {
    let bytes: &[u8] = b"int d(int a,int b){return a/b;}";
    let world = World {
        name: "a.c",
        bytes,
        most: 10,
        failing_reads: &[],
        failing_writes: &[2],
    };
    let words: &[&str] = &["check", "a.c"];
    expect(
        &rt,
        rt.alloc(),
        &world,
        words,
        Status::WriteFault,
        b"a.c:1 d 0.",
    );
    let first = World {
        failing_reads: &[1],
        failing_writes: &[],
        ..world
    };
    expect(
        &rt,
        rt.alloc(),
        &first,
        words,
        Status::ReadFault,
        b"read-fault a.c\n",
    );
    let missing = World {
        name: "b.c",
        failing_reads: &[],
        ..first
    };
    expect(
        &rt,
        rt.alloc(),
        &missing,
        words,
        Status::ReadFault,
        b"read-fault a.c\n",
    );
}
