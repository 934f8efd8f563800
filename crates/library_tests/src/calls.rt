// The calls of the library for C that take memory and that no command makes, with ample memory: that it is wanting is an answer that no clause
// rules out.
use c_lines::{
    Fault, do_line, give_back, lay_anew, lend, loaded_view, new_view, open_view, put_blob,
    put_file, put_layout, put_message, put_record, put_table, run_kernel, tell_line,
};
use std::alloc::Global;
use std::marker::Brand;
use std::sync::ledger::Blank;
use std::test::Fail;
use views::View;

const RECORD: &[u8] = b"record R { f0 : u16 , f1 : i8 }";

const VIEW: &[u8] = b"view V : R [ 3 ] as aos ( packed , row )";

const LOAD: &[u8] = b"load V : R [ ? ] as aos ( packed , row ) from \"any\"";

// Two records, as `print` shows them, and their file: the two lines of its header have 32 and 41 bytes.
const TEXT: &[u8] = b"f0,f1\n258,-1\n3,4\n";

const FILE: &[u8] =
    b"LLAMAB1\n\x49\x00\x00\x00record R { f0 : u16 , f1 : i8 }\nview V : R [ 2 ] as aos ( packed , row )\n\x02\x01\xff\x03\x00\x04";

// A view of these two records.
fn loaded(alloc: Global) -> Result<View, Fail> {
    let view = loaded_view::<Brand>(alloc, RECORD, LOAD, TEXT, Blank::new(1));
    Ok(view.ok().ok_or("not loaded")?)
}

// The view of their file.
fn opened(alloc: Global) -> Result<View, Fail> {
    let view = open_view::<Brand>(alloc, FILE, Blank::new(1));
    Ok(view.ok().ok_or("not opened")?)
}

// The number of a line that is done.
fn number_of(alloc: Global, view: &mut View, line: &[u8]) -> Option<Option<i128>> {
    do_line::<Brand>(alloc, view, line, Blank::new(1)).ok()
}

// Whether a line tells this text, of at most 40 bytes.
fn tells(alloc: Global, view: &mut View, line: &[u8], due: &[u8]) -> bool {
    let mut text = [0; 40];
    let mut needed = 0;
    let is_told = tell_line::<Brand>(
        alloc,
        view,
        line,
        &mut text,
        &mut needed,
        Blank::new(1),
    ).is_ok();
    is_told && needed <= text.len() && &text[..needed] == due
}

// Whether the text of a view is this one, of at most 18 bytes.
fn shows(alloc: Global, view: &mut View, due: &[u8]) -> bool {
    let mut text = [0; 18];
    let mut needed = 0;
    let put = put_table::<Brand>(alloc, view, &mut text, &mut needed, Blank::new(1));
    put.is_ok() && needed <= text.len() && &text[..needed] == due
}

#[test]
fn a_view_of_two_lines_has_zeros(rt: HostRuntime) -> Result<(), Fail> {
    let mut view = new_view(rt.alloc(), RECORD, VIEW).ok().ok_or("no view")?;
    assert!(rt; shows(rt.alloc(), &mut view, b"f0,f1\n0,0\n0,0\n0,0\n"));
    Ok(())
}

#[test]
fn a_dataset_is_loaded_printed_and_put_as_a_file(rt: HostRuntime) -> Result<(), Fail> {
    let mut view = loaded(rt.alloc())?;
    assert!(rt; shows(rt.alloc(), &mut view, TEXT));
    let (mut bytes, mut needed) = ([0; 91], 0);
    let put = put_file(rt.alloc(), &view, &mut bytes, &mut needed);
    assert!(rt; put.is_ok() && needed == 91 && &bytes[..] == FILE);
    Ok(())
}

#[test]
fn a_table_is_summed_and_laid_anew(rt: HostRuntime) -> Result<(), Fail> {
    let mut view = loaded(rt.alloc())?;
    let line = b"kernel V sum(f0) lanes 2";
    let sum = run_kernel::<Brand>(rt.alloc(), &mut view, line, Blank::new(1));
    assert!(rt; sum.ok() == Some(Some(261)));
    let line = b"relayout V as soa(multi, row)";
    assert!(rt; lay_anew::<Brand>(rt.alloc(), &mut view, line, Blank::new(1)).is_ok());
    let (mut bytes, mut needed) = ([0; 2], 0);
    let put = put_blob(&view, 1, &mut bytes, &mut needed);
    assert!(rt; put.is_ok() && bytes == [255, 4]);
    Ok(())
}

#[test]
fn lines_are_done_and_told(rt: HostRuntime) -> Result<(), Fail> {
    let mut view = loaded(rt.alloc())?;
    assert!(rt; number_of(rt.alloc(), &mut view, b"set V[1].f1 = f0 + 2") == Some(None));
    assert!(rt;
        number_of(
            rt.alloc(),
            &mut view,
            b"update V where f1 > 0 set f0 = f0 * f1"
        ) == Some(None)
    );
    assert!(rt; number_of(rt.alloc(), &mut view, b"reduce V sum f0") == Some(Some(273)));
    assert!(rt; number_of(rt.alloc(), &mut view, b"reduce V count where f1 < 0") == Some(Some(1)));
    assert!(rt;
        number_of(rt.alloc(), &mut view, b"kernel V greatest(f1) lanes 2") == Some(Some(5))
    );
    assert!(rt; tells(rt.alloc(), &mut view, b"print V", b"f0,f1\n258,-1\n15,5\n"));
    assert!(rt;
        tells(
            rt.alloc(),
            &mut view,
            b"print V window [1 : 2]",
            b"f0,f1\n15,5\n"
        )
    );
    assert!(rt; tells(rt.alloc(), &mut view, b"bytes V 0", b"02 01 ff 0f 00 05\n"));
    Ok(())
}

#[test]
fn an_answer_has_words(rt: HostRuntime) -> Result<(), Fail> {
    let fault = Fault {
        cause: 0,
        row: 3,
        leaf: 1,
        column: 0,
    };
    let (mut text, mut needed) = ([0; 21], 0);
    let put = put_message(rt.alloc(), 6, &fault, &mut text, &mut needed);
    assert!(rt; put.is_ok() && needed == 21 && text == *b"Range record 3 leaf 1");
    Ok(())
}

#[test]
fn a_file_is_opened(rt: HostRuntime) -> Result<(), Fail> {
    let mut view = opened(rt.alloc())?;
    assert!(rt; shows(rt.alloc(), &mut view, TEXT));
    Ok(())
}

#[test]
fn lent_bytes_are_changed_and_given_back(rt: HostRuntime) -> Result<(), Fail> {
    let mut view = loaded(rt.alloc())?;
    let (mut bytes, mut needed) = ([0; 6], 0);
    assert!(rt; lend(&view, &mut bytes, &mut needed).is_ok() && needed == 6);
    bytes[0] = 3;
    assert!(rt; give_back::<Brand>(rt.alloc(), &mut view, &bytes, Blank::new(1)).is_ok());
    assert!(rt; shows(rt.alloc(), &mut view, b"f0,f1\n259,-1\n3,4\n"));
    Ok(())
}

#[test]
fn an_opened_view_tells_its_lines(rt: HostRuntime) -> Result<(), Fail> {
    let view = opened(rt.alloc())?;
    let (mut text, mut needed) = ([0; 40], 0);
    let put = put_record(rt.alloc(), &view, &mut text[..31], &mut needed);
    assert!(rt; put.is_ok() && needed == 31 && &text[..31] == RECORD);
    let put = put_layout(rt.alloc(), &view, &mut text, &mut needed);
    assert!(rt; put.is_ok() && needed == 40 && text[..] == FILE[44..84]);
    Ok(())
}
