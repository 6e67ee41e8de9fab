ghost use Rattle.std.specs.Prelude.{◌<◌};

use po_base::{List, Memory, Text};
use po_io::{
    DirFiles, Failed, Files, MemFiles, MemSink, ReadFail, Sink, StdSink, WriteFail, read_file,
    write_all,
};
use std::alloc::Global;
use std::fmt::Display;
use std::test::Fail;
use std::{fs, io, rt};

/// What a reading is to come to.
type Reading<'b> = Result<&'b [u8], ReadFail>;

/// Numbers of calls, as a list.
fn numbers(alloc: Global, calls: &[u64]) -> Result<List<u64>, Memory> {
    Ok(List::from_vec(Vec::from_slice(alloc, calls)?))
}

/// A file of this name and these bytes.
fn entry(alloc: Global, name: &str, bytes: &[u8]) -> Result<(Text, List<u8>), Memory> {
    let name = Text::new(alloc, name.as_bytes())?;
    Ok((name, List::from_vec(Vec::from_slice(alloc, bytes)?)))
}

/// Files of these names and bytes.
fn shelf(alloc: Global, entries: &[(&str, &[u8])], fail: &[u64]) -> Result<MemFiles, Memory> {
    let mut files = List::new(alloc);
    for (name, bytes) in entries {
        files.push(entry(alloc, name, bytes)?)?;
    }
    Ok(MemFiles::new(files, numbers(alloc, fail)?))
}

/// Whether a reading came to what was wanted.
fn came(read: &Result<List<u8>, ReadFail>, wanted: Reading<'_>) -> bool {
    match read {
        Ok(bytes) => wanted == Ok(bytes.as_slice()),
        Err(cause) => wanted == Err(*cause),
    }
}

/// Whether files of which these calls fail are read by their names, one after the other and each under its limit, as wanted.
fn are_read(
    alloc: Global,
    entries: &[(&str, &[u8])],
    fail: &[u64],
    readings: &[(&str, u64, Reading<'_>)],
) -> Result<bool, Memory> {
    let mut files = shelf(alloc, entries, fail)?;
    for (name, limit, wanted) in readings {
        if !came(&read_file(alloc, &mut files, name, *limit), *wanted) {
            return Ok(false);
        }
    }
    Ok(true)
}

// A short file takes two reads: one gives its bytes, one shows its end. Reads are counted over all files.
#[test]
fn the_read_that_is_to_fail_fails_its_file(rt: HostRuntime) -> Result<(), Fail> {
    let entries: [(&str, &[u8]); 2] = [("a.c", b"int x;"), ("b.c", b"int y;\n")];
    let a: Reading<'_> = Ok(b"int x;");
    let b: Reading<'_> = Ok(b"int y;\n");
    let fault: Reading<'_> = Err(ReadFail::Failed);
    for (call, first, second) in [
        (1, fault, b),
        (2, fault, b),
        (3, a, fault),
        (4, a, fault),
        (5, a, b),
    ] {
        let readings = [("a.c", 100, first), ("b.c", 100, second)];
        assert!(rt; are_read(rt.alloc(), &entries, &[call], &readings)?);
    }
    Ok(())
}

#[test]
fn a_file_over_the_limit_is_too_long(rt: HostRuntime) -> Result<(), Fail> {
    let entries: [(&str, &[u8]); 5] = [
        ("none", b""),
        ("one", b"1"),
        ("five", b"12345"),
        ("twice", b"first"),
        ("twice", b"second"),
    ];
    let whole: Reading<'_> = Ok(b"12345");
    let long: Reading<'_> = Err(ReadFail::TooLong);
    let readings = [
        ("five", 4, long),
        ("five", 5, whole),
        ("five", 6, whole),
        ("five", u64::MAX, whole),
        ("none", 0, Ok(b"")),
        ("one", 0, long),
        ("twice", 100, Ok(b"first")),
        ("missing", 100, Err(ReadFail::Failed)),
    ];
    assert!(rt; are_read(rt.alloc(), &entries, &[], &readings)?);
    Ok(())
}

// Each read asks for 65,536 bytes: a file of one more is read by three reads, the third of which shows its end.
#[test]
fn a_long_file_is_read_in_pieces(rt: HostRuntime) -> Result<(), Fail> {
    let bytes = vec![in rt.alloc(); b'x'; 65_537]?;
    let whole: Reading<'_> = Ok(bytes.as_slice());
    let fault: Reading<'_> = Err(ReadFail::Failed);
    for (call, wanted) in [(1, fault), (2, fault), (3, fault), (4, whole)] {
        let readings = [("long.c", 65_537, wanted)];
        assert!(rt;
            are_read(
                rt.alloc(),
                &[("long.c", bytes.as_slice())],
                &[call],
                &readings
            )?
        );
    }
    Ok(())
}

/// Whether so many bytes of a text come to a sink that has room for so many, takes so many a call at most, and fails at this
/// call.
fn takes(
    alloc: Global,
    text: &[u8],
    room: usize,
    most: usize,
    call: u64,
    written: usize,
) -> Result<bool, Memory>
    requires { 0 < most }
{
    let mut sink = MemSink::new(alloc, room, most, numbers(alloc, &[call])?)?;
    let wanted = if written == text.len() {
        Ok(())
    } else {
        Err(WriteFail::Failed)
    };
    Ok(write_all(&mut sink, text) == wanted && Some(sink.bytes()) == text.get(..written))
}

#[test]
fn a_sink_in_memory_takes_what_it_may(rt: HostRuntime) -> Result<(), Fail> {
    let cases: [(usize, usize, u64, usize); 9] = [
        // room, the most of one call, the call that fails, bytes written
        (100, 10, 2, 10),
        (100, 10, 1, 0),
        (100, 10, 4, 26),
        (100, 100, 2, 26),
        (100, 1, 26, 25),
        (100, 1, 27, 26),
        (26, 10, 100, 26),
        (25, 10, 100, 25),
        (0, 10, 100, 0),
    ];
    for (room, most, call, written) in cases {
        assert!(rt;
            takes(
                rt.alloc(),
                b"abcdefghijklmnopqrstuvwxyz",
                room,
                most,
                call,
                written
            )?
        );
    }
    Ok(())
}

/// Whether a file of the system that holds `int x;` is read as that.
fn is_read(rt: &(impl rt::Files + AllocGlobal), name: &str) -> bool {
    let mut files = DirFiles::new(rt);
    let whole = read_file(rt.alloc(), &mut files, name, 6);
    let long = read_file(rt.alloc(), &mut files, name, 5);
    let mut two = [0u8; 2];
    let part = files.read(name, 3, &mut two);
    came(&whole, Ok(b"int x;"))
        && came(&long, Err(ReadFail::TooLong))
        && part == Ok(2)
        && two == *b" x"
}

#[test]
fn the_files_of_the_system_are_read(rt: HostRuntime) -> Result<(), Fail> {
    let name = "po_io_read_by_a_test.c";
    fs::write(&rt, name, "int x;")?;
    let read = is_read(&rt, name);
    fs::remove_file(&rt, name)?;
    assert!(rt; read);
    let missing = read_file(rt.alloc(), &mut DirFiles::new(&rt), name, 6);
    assert!(rt; came(&missing, Err(ReadFail::Failed)));
    Ok(())
}

/// What prints only so many bytes of a piece, or fails.
#[derive(Clone, Copy)]
struct Printer {
    takes: Option<usize>,
}

impl Print for Printer {
    fn print<D: Display + Drop>(&self, _value: D) -> io::Result<()> {
        Ok(())
    }

    fn println<D: Display + Drop>(&self, _value: D) -> io::Result<()> {
        Ok(())
    }

    fn write_all(&self, _bytes: &[u8]) -> io::Result<()> {
        Ok(())
    }

    fn write_some(&self, bytes: &[u8]) -> io::Result<usize> {
        match self.takes {
            Some(most) => Ok(most.min(bytes.len())),
            None => Err(io::Error::from(io::ErrorKind::BrokenPipe)),
        }
    }
}

#[test]
fn standard_output_fails_where_nothing_is_taken(rt: HostRuntime) {
    let cases: [(Option<usize>, &[u8], Result<usize, Failed>); 5] = [
        (Some(2), b"abc", Ok(2)),
        (Some(9), b"abc", Ok(3)),
        (Some(0), b"", Ok(0)),
        (Some(0), b"abc", Err(Failed)),
        (None, b"abc", Err(Failed)),
    ];
    for (takes, piece, wanted) in cases {
        let printer = Printer { takes };
        assert!(rt; StdSink::new(&printer).write(piece) == wanted);
    }
    assert!(rt; write_all(&mut StdSink::new(&rt), b"written by a test\n") == Ok(()));
}
