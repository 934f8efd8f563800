// Where the numbers of leaves lie, by a short form and by a look at each row, and the bytes of a blob.
use c_lines::{blob_at, new_view, place};
use std::test::Fail;
use views::View;

const RECORD: &[u8] = b"record R { f0 : u16 , f1 : i8 }";

// How many bytes a blob has, if there is one.
fn byte_count(view: &View, blob: usize) -> Option<usize> {
    match blob_at(view, blob) {
        Ok(bytes) => Some(bytes.count),
        Err(_) => None,
    }
}

#[test]
fn packed_records_are_one_group(rt: HostRuntime) -> Result<(), Fail> {
    let line = b"view V : R [ 3 ] as aos ( packed , row )";
    let view = new_view(rt.alloc(), RECORD, line).ok().ok_or("no view")?;
    let places = place(&view, 1).ok().ok_or("no places")?;
    assert!(rt; places.blob == 0 && places.bytes == 9 && places.base == 2);
    assert!(rt; places.lanes == 3 && places.lane == 3 && places.block == 0);
    assert!(rt; places.width == 8 && places.is_signed && !places.in_bits);
    Ok(())
}

#[test]
fn blocks_are_groups(rt: HostRuntime) -> Result<(), Fail> {
    let line = b"view V : R [ 3 ] as byteswap ( aosoa ( 2 , row ) )";
    let view = new_view(rt.alloc(), RECORD, line).ok().ok_or("no view")?;
    let places = place(&view, 0).ok().ok_or("no places")?;
    assert!(rt; places.lanes == 2 && places.lane == 2 && places.block == 6);
    assert!(rt; places.width == 16 && places.is_turned && !places.is_signed);
    Ok(())
}

#[test]
fn groups_of_three_rows_are_found(rt: HostRuntime) -> Result<(), Fail> {
    let line = b"view V : R [ 6 ] as aosoa ( 3 , row )";
    let view = new_view(rt.alloc(), RECORD, line).ok().ok_or("no view")?;
    let places = place(&view, 1).ok().ok_or("no places")?;
    assert!(rt; places.base == 6 && places.lanes == 3);
    assert!(rt; places.lane == 1 && places.block == 9);
    assert!(rt; places.width == 8 && places.is_signed && !places.in_bits);
    assert!(rt; byte_count(&view, 0) == Some(18) && byte_count(&view, 1).is_none());
    Ok(())
}

#[test]
fn bytes_apart_are_no_number(rt: HostRuntime) -> Result<(), Fail> {
    let line = b"view V : R [ 6 ] as bytesplit ( soa ( multi , row ) )";
    let view = new_view(rt.alloc(), RECORD, line).ok().ok_or("no view")?;
    assert!(rt; place(&view, 0).is_err() && place(&view, 1).is_ok());
    Ok(())
}
