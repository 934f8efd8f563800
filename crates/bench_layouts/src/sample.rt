use expr_lang::Row;
use record_dim::Steps;
use std::sync::ledger::Ledger;

/// A row of the leaves x, y, z and w.
#[derive(Clone, Copy, Debug)]
pub struct Sample {
    x: i64,
    y: i64,
    z: i64,
    w: i64,
}

impl Sample {
    /// The row of this number.
    pub fn of_row(row: u32) -> Sample {
        let number = i64::from(row);
        Sample {
            x: number,
            y: 2 * number + 1,
            z: number,
            w: -number,
        }
    }
}

// A read changes nothing, so the state says nothing.
impl Row for Sample {
    ghost use Rattle.std.specs.Prelude.{ℕ};
    ghost use Rattle.bench_layouts.specs.Inner.Samples.{numbers_of};

    ghost State = { Unit {0} };

    ghost numbers = { numbers_of };

    ghost state = { λ _. tt };

    ghost after = { λ state _. state };

    fn read<L: Ledger>(&mut self, leaf: usize, _steps: &mut Steps<L>) -> i128 {
        i128::from(match leaf {
            0 => self.x,
            1 => self.y,
            2 => self.z,
            _ => self.w,
        })
    }
}
