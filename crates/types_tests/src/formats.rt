use po_arith::Target;
use po_base::Memory;
use po_types::{Spec, format_of};
use std::alloc::Global;
use std::test::Fail;

/// Whether a format reads just this; None stands for a format that isn't read.
fn reads(alloc: Global, format: &[u8], wanted: Option<&[Spec]>) -> Result<bool, Memory> {
    match format_of(alloc, format, Target::L64)? {
        None => Ok(wanted.is_none()),
        Some(specs) => match wanted {
            None => Ok(false),
            Some(wanted) => Ok(specs.as_slice() == wanted),
        },
    }
}

#[test]
fn formats_read_what_their_conversions_say(rt: HostRuntime) -> Result<(), Fail> {
    let rows: [(&[u8], &[Spec]); 10] = [
        (b"", &[]),
        (b"100%% of 5d\n", &[]),
        (
            b"%d%i, %u %x%c",
            &[Spec::Int, Spec::Int, Spec::Int, Spec::Int, Spec::Int],
        ),
        (
            b"%ld%li%lu%lx",
            &[Spec::Long, Spec::Long, Spec::Long, Spec::Long],
        ),
        (b"%zu:%s", &[Spec::Size, Spec::Text]),
        (b"%5d%10s%120c", &[Spec::Int, Spec::Text, Spec::Int]),
        (b"%05d% d%+d", &[Spec::Int, Spec::Int, Spec::Int]),
        (b"%#x%#0-+ 8lx", &[Spec::Int, Spec::Long]),
        (b"%-s%--12c", &[Spec::Text, Spec::Int]),
        (b"%%%d%%", &[Spec::Int]),
    ];
    for (format, specs) in rows {
        assert!(rt; reads(rt.alloc(), format, Some(specs))?);
    }
    Ok(())
}

#[test]
fn other_formats_are_not_read(rt: HostRuntime) -> Result<(), Fail> {
    let formats: [&[u8]; 17] = [
        b"%", b"%5", b"%-", b"%l", b"%#d", b"%#c", b"%0s", b"%0c", b"%.3d", b"%lld", b"%hd", b"%p",
        b"%ls", b"%*d", b"%f", b"%5%", b"%ld%lz",
    ];
    for format in formats {
        assert!(rt; reads(rt.alloc(), format, None)?);
    }
    assert!(rt; reads(rt.alloc(), &[b'a', 0, b'b'], None)?);
    Ok(())
}
