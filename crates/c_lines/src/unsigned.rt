// Numbers without a sign. A view reads and stores runs of numbers of 64 bits with one, so these go by their low bits.
ghost use Rattle.std.specs.Prelude.{◌≡◌, ◌<◌, ◌≤◌};
ghost use Rattle.c_lines.specs.Imports.{true, false, pos, length, map, take, U64, low_64, raised, TakesAll, leaf_count_of, leaf_type_of};
ghost use Rattle.c_lines.specs.Values.{reads_unsigned};

use crate::number::Number64;
use crate::values::leaf_type;
use byteorder::{ByteOrder, LittleEndian};
use record_dim::{LeafType, Steps};
use std::sync::ledger::Ledger;
use views::{LaneFault, RUN, View, laws_of_table};

impl Number64 for u64 {
    ghost number = { λ n. pos n };

    ghost sign = { false };

    ghost reads = { reads_unsigned };

    #[inline(always)]
    fn reads(kind: LeafType) -> bool {
        !kind.signed()
    }

    #[inline(always)]
    fn of(_kind: LeafType, value: i128) -> u64 {
        value as u64
    }

    #[inline(always)]
    fn whole(self) -> i128 {
        i128::from(self)
    }

    #[inline(always)]
    fn in_bytes(bytes: &[u8], size: usize) -> u64 {
        LittleEndian::read_uint(bytes, size)
    }

    fn read_run<L: Ledger>(
        view: &mut View,
        leaf: usize,
        first: u64,
        values: &mut [u64],
        steps: &mut Steps<L>,
    ) {
        laws_of_table(view);
        let _rows = view.extents().count();
        let mut buffer = [0; RUN];
        let mut done = 0;
        while done < values.len() {
            let count = (values.len() - done).min(RUN);
            let lows = &mut buffer[..count];
            view.read_run(leaf, first + done as u64, lows, steps);
            raise(lows, &mut values[done..done + count]);
            done += count;
        }
    }

    fn store_front<L: Ledger>(
        view: &mut View,
        leaf: usize,
        first: u64,
        values: &[u64],
        steps: &mut Steps<L>,
    ) -> Result<usize, LaneFault> {
        laws_of_table(view);
        let takes_all = takes_all(view, leaf);
        let mut buffer = [0; RUN];
        let count = put_lows(values, takes_all, &mut buffer);
        if count == 0 {
            return match view.set(first, leaf, i128::from(values[0]), steps) {
                Ok(()) => Ok(1),
                Err(fault) => Err(LaneFault { lane: 0, fault }),
            };
        }
        let lows = &buffer[..count];
        if takes_all {
            view.put_run(leaf, first, lows, steps);
        } else {
            view.store_run(leaf, first, lows, steps)?;
        }
        Ok(count)
    }
}

// Makes numbers those of which these are the low bits.
fn raise(lows: &[i64], values: &mut [u64])
    requires { length values.old ≡ length lows.now }
    ensures { map (λ n. pos n) values.new ≡ map (raised U64) lows.now }
{
    for k in 0..lows.len() {
        values[k] = lows[k].cast_unsigned();
    }
}

// Whether a leaf takes each number, as it is.
fn takes_all(view: &View, leaf: usize) -> bool
    requires { leaf < leaf_count_of view.now }
    ensures kind { result ≡ true → leaf_type_of view.now leaf ≡ U64 }
    ensures takes { result ≡ true → TakesAll view.now leaf }
{
    leaf_type(view, leaf) == LeafType::U64 && view.holds_all(leaf)
}

// Puts the low bits of numbers into a buffer, as many as it has room for, and, unless any go, up to the first that is not its own low bits.
// It tells how many.
fn put_lows(values: &[u64], any: bool, lows: &mut [i64; RUN]) -> usize
    ensures few { result ≤ length values.now }
    ensures room { result ≤ 256 }
    ensures some { any ≡ true → 0 < length values.now → 0 < result }
    ensures lows { take result lows.new ≡ map low_64 (take result (map (λ n. pos n) values.now)) }
    ensures own { any ≡ false → take result lows.new ≡ take result (map (λ n. pos n) values.now) }
{
    let most = values.len().min(RUN);
    for k in 0..most {
        let low = values[k].cast_signed();
        if low < 0 && !any {
            return k;
        }
        lows[k] = low;
    }
    most
}
