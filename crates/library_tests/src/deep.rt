// Lines that nest as deep as lines may, handed to each call that reads one, and a wide view, which is written. tools/checks/stack runs each of these
// tests on a small stack: so each call is made by a function of its own, which takes little beside it.
use c_lines::{lay_anew, loaded_view, new_view, open_view, put_file, put_table, run_kernel};
use std::alloc::{AllocError as NoMemory, Global};
use std::marker::Brand;
use std::sync::ledger::Blank;
use std::test::Fail;
use views::View;

const RECORD: &str = "record P { x : i32 }";

const VIEW: &str = "view V : P [ 600 ] as soa ( multi , row )";

const TEXT: &[u8] = b"x\n1\n2\n";

// A line with brackets in brackets.
fn nested(
    alloc: Global,
    front: &str,
    begin: &str,
    inside: &str,
    end: &str,
) -> Result<String, NoMemory> {
    let mut line = String::new(alloc);
    line.push_str(front)?;
    for _ in 0..63 {
        line.push_str(begin)?;
    }
    line.push_str(inside)?;
    for _ in 0..63 {
        line.push_str(end)?;
    }
    Ok(line)
}

// The header of a file with these two lines.
fn header_of(alloc: Global, first: &str, second: &str) -> Result<Vec<u8>, NoMemory> {
    let size = first.len().saturating_add(second.len()).saturating_add(2);
    let size = u32::try_from(size).unwrap_or(0);
    let mut bytes = Vec::new(alloc);
    bytes.extend_from_slice(b"LLAMAB1\n")?;
    bytes.extend_from_slice(&size.to_le_bytes())?;
    bytes.extend_from_slice(first.as_bytes())?;
    bytes.extend_from_slice(b"\n")?;
    bytes.extend_from_slice(second.as_bytes())?;
    bytes.extend_from_slice(b"\n")?;
    Ok(bytes)
}

#[inline(never)]
fn made(alloc: Global, first: &str, second: &str) -> Option<View> {
    new_view(alloc, first.as_bytes(), second.as_bytes()).ok()
}

#[inline(never)]
fn is_loaded(alloc: Global, first: &str, second: &str) -> bool {
    let (first, second) = (first.as_bytes(), second.as_bytes());
    loaded_view::<Brand>(alloc, first, second, TEXT, Blank::new(1)).is_ok()
}

#[inline(never)]
fn is_opened(alloc: Global, file: &[u8]) -> bool {
    open_view::<Brand>(alloc, file, Blank::new(1)).is_ok()
}

#[inline(never)]
fn is_laid_anew(alloc: Global, view: &mut View, line: &str) -> bool {
    lay_anew::<Brand>(alloc, view, line.as_bytes(), Blank::new(1)).is_ok()
}

#[inline(never)]
fn is_run(alloc: Global, view: &mut View, line: &str) -> bool {
    run_kernel::<Brand>(alloc, view, line.as_bytes(), Blank::new(1)).is_ok()
}

// Whether each call that reads lines takes one of these two.
fn is_taken(alloc: Global, first: &str, second: &str) -> Result<bool, NoMemory> {
    let file = header_of(alloc, first, second)?;
    Ok(
        made(alloc, first, second).is_some()
            || is_loaded(alloc, first, second)
            || is_opened(alloc, file.as_slice()),
    )
}

#[test]
fn expressions_in_expressions_are_read(rt: HostRuntime) -> Result<(), Fail> {
    let line = nested(rt.alloc(), "reduce V count where ", "(", "x", ")")?;
    let mut view = made(rt.alloc(), RECORD, VIEW).ok_or("no view")?;
    assert!(rt; !is_taken(rt.alloc(), RECORD, line.as_str())?);
    assert!(rt; !is_laid_anew(rt.alloc(), &mut view, line.as_str()));
    assert!(rt; !is_run(rt.alloc(), &mut view, line.as_str()));
    Ok(())
}

#[test]
fn layouts_in_layouts_are_read(rt: HostRuntime) -> Result<(), Fail> {
    let (begin, end) = ("split(x, ", ", aos(packed, row))");
    let line = nested(
        rt.alloc(),
        "view V : P [ 2 ] as ",
        begin,
        "aos(packed, row)",
        end,
    )?;
    let mut view = made(rt.alloc(), RECORD, VIEW).ok_or("no view")?;
    assert!(rt; !is_taken(rt.alloc(), RECORD, line.as_str())?);
    let line = nested(rt.alloc(), "relayout V as ", begin, "aos(packed, row)", end)?;
    assert!(rt; !is_laid_anew(rt.alloc(), &mut view, line.as_str()));
    assert!(rt; !is_run(rt.alloc(), &mut view, line.as_str()));
    Ok(())
}

#[test]
fn records_in_records_are_read(rt: HostRuntime) -> Result<(), Fail> {
    let line = nested(rt.alloc(), "record P ", "{ x ", "{ x : u8 }", " }")?;
    assert!(rt; !is_taken(rt.alloc(), line.as_str(), VIEW)?);
    Ok(())
}

// A record of 64 leaves.
fn wide_record(alloc: Global) -> Result<String, NoMemory> {
    let mut line = String::new(alloc);
    line.push_str("record P { x { x { x { x { x { x { x { n : u16")?;
    for k in 1..64u32 {
        line.push_str(format!(in alloc; ", n{k} : u16")?.as_str())?;
    }
    line.push_str(" } } } } } } } }")?;
    Ok(line)
}

#[inline(never)]
fn is_put(alloc: Global, view: &View, bytes: &mut [u8]) -> bool {
    put_file(alloc, view, bytes, &mut 0).is_ok()
}

#[inline(never)]
fn is_shown(alloc: Global, view: &mut View, text: &mut [u8]) -> bool {
    put_table::<Brand>(alloc, view, text, &mut 0, Blank::new(1)).is_ok()
}

#[test]
fn a_wide_view_is_written(rt: HostRuntime) -> Result<(), Fail> {
    let line = wide_record(rt.alloc())?;
    let mut view = made(rt.alloc(), line.as_str(), VIEW).ok_or("no view")?;
    let mut bytes = vec![in rt.alloc(); 0u8; 131_072]?;
    assert!(rt; is_put(rt.alloc(), &view, bytes.as_mut_slice()));
    assert!(rt; is_shown(rt.alloc(), &mut view, bytes.as_mut_slice()));
    Ok(())
}
