// A row of two numbers that keeps the order of its reads.
ghost use Rattle.std.specs.Prelude.{◌≡◌};

use expr_lang::Row;
use record_dim::Steps;
use std::sync::ledger::Ledger;

const LOG_LIMIT: u64 = 1_000_000_000_000;

/// A row of two numbers. Its log has a decimal digit for each read, 1 for leaf 0, and 2 for leaf 1.
#[derive(Drop)]
pub(crate) struct LoggedRow {
    pub numbers: [i128; 2],
    pub log: u64,
}

impl Row for LoggedRow {
    ghost use Rattle.std.specs.Prelude.{ℕ, ◌+◌, ◌*◌, ◌%◌};

    ghost State = { ℕ };

    ghost numbers = { λ r. r.numbers };

    ghost state = { λ r. r.log };

    ghost after = { λ log leaf. 10 * (log % 1000000000000) + leaf % 9 + 1 };

    fn read<L: Ledger>(&mut self, leaf: usize, steps: &mut Steps<L>) -> i128 {
        steps.tick();
        self.log = 10 * (self.log % LOG_LIMIT) + leaf as u64 % 9 + 1;
        self.numbers[leaf]
    }
}
