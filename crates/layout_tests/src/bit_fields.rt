// Fields of bits in a blob: each width at each of the first bits and at the blob's last places, against loops over single bits.
use blobs::Blob;
use std::alloc::{AllocError as NoMemory, Global};
use std::test::Fail;

// Bytes in which no two fields of more than some bits are alike.
fn mixed(at: usize) -> u8 {
    let low = (at % 256) as u8;
    low.wrapping_mul(low).wrapping_mul(29).wrapping_add(0x5b) ^ low.rotate_left(3)
}

fn mixed_blob(alloc: Global, len: usize) -> Result<Blob, NoMemory> {
    let mut blob = Blob::zeroed(alloc, len)?;
    for at in 0..len {
        if at < blob.len() {
            blob.put(at, mixed(at));
        }
    }
    Ok(blob)
}

// A bit of these bytes.
fn mixed_bit(place: u64) -> u64 {
    u64::from((mixed((place / 8) as usize) >> (place % 8) as u32) & 1)
}

// The bits of a field of these bytes as a number, bit by bit.
fn mixed_bits(from: u64, width: u32) -> u64 {
    let mut value = 0u64;
    for bit in (0..width).rev() {
        let place = from.wrapping_add(u64::from(bit));
        value = value.wrapping_mul(2).wrapping_add(mixed_bit(place));
    }
    value
}

// Whether the bits of a field are other ones than in these bytes, and no bit beside it is.
fn is_flipped_there_alone(blob: &Blob, from: u64, width: u32) -> bool {
    for at in 0..blob.len() {
        for bit in 0..8u32 {
            let place = (at as u64).wrapping_mul(8).wrapping_add(u64::from(bit));
            let is_inside = from <= place && place.wrapping_sub(from) < u64::from(width);
            let is_flipped = u64::from((blob.get(at) >> bit) & 1) != mixed_bit(place);
            if is_flipped != is_inside {
                return false;
            }
        }
    }
    true
}

// Whether a field that lies within the blob is read and written as the loops say; a field past its end is left out.
fn is_right(alloc: Global, len: usize, from: u64, width: u32) -> Result<bool, NoMemory> {
    let mut blob = mixed_blob(alloc, len)?;
    if len > 17 || blob.len() != len || from > 136 || width < 1 || width > 64 {
        return Ok(false);
    }
    if from + u64::from(width) > blob.len() as u64 * 8 {
        return Ok(true);
    }
    let read = blob.bits(from, width);
    let value = !read & (u64::MAX >> (64 - width));
    if u128::from(value) >= 1 << width {
        return Ok(false);
    }
    blob.put_bits(from, width, value);
    Ok(read == mixed_bits(from, width) && is_flipped_there_alone(&blob, from, width))
}

#[test]
fn fields_of_each_width_are_read_and_written_anywhere(rt: HostRuntime) -> Result<(), Fail> {
    for len in [8usize, 9, 17] {
        let bits = len as u64 * 8;
        for width in 1..65u32 {
            for step in 0..8u64 {
                let last = bits.saturating_sub(u64::from(width)).saturating_sub(step);
                assert!(rt; is_right(rt.alloc(), len, step, width)?);
                assert!(rt; is_right(rt.alloc(), len, last, width)?);
            }
        }
    }
    Ok(())
}
