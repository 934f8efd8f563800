// The index of a row.
ghost use Rattle.std.specs.Prelude.{◌≡◌, ◌<◌, ◌≤◌, length, take};
ghost use Rattle.row_updates.specs.Imports.{indices, index_at};

use extents::Extents;

/// Puts the index of a row into the first of these numbers, one for each extent. In an array of one extent it is the row, and nothing is
/// divided.
#[inline(always)]
pub fn put_index(extents: &Extents, row: u64, numbers: &mut [u64; 4])
    requires { row < length (indices extents.now) }
    ensures { take (length extents.now) numbers.new ≡ index_at extents.now row }
{
    if extents.rank() == 1 {
        numbers[0] = row;
        return;
    }
    put_far(extents, row, numbers);
}

// The same by divisions.
#[inline(never)]
fn put_far(extents: &Extents, row: u64, numbers: &mut [u64; 4])
    requires { row < length (indices extents.now) }
    ensures { take (length extents.now) numbers.new ≡ index_at extents.now row }
{
    let index = extents.index_of(row);
    put_all(index.as_slice(), numbers);
}

fn put_all(index: &[u64], numbers: &mut [u64; 4])
    requires { length index.now ≤ 4 }
    ensures { take (length index.now) numbers.new ≡ index.now }
{
    for (d, number) in index.iter().enumerate() {
        numbers[d] = *number;
    }
}
