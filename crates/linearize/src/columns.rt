// The line and the column of a row without a division: a product and a shift.
ghost use Rattle.std.specs.Prelude.{◌≡◌, ◌+◌, ◌*◌, ◌/◌, ◌%◌, ◌^◌, ◌<◌, ◌≤◌, [], ◌∷◌};
ghost use Rattle.linearize.specs.Slots.{interleaved};

use crate::digits::in_turn;

/// How many columns an array has, with their reciprocal: 2^48 over them, one more than the whole part.
#[derive(Clone, Copy)]
pub struct Columns {
    pub columns: u64,
    factor: u64,
    ghost some: { 0 < columns },
    ghost few: { columns ≤ 2 ^ 24 },
    ghost above: { 2 ^ 48 < factor * columns },
    ghost near: { factor * columns ≤ 2 ^ 48 + columns },
}

impl Columns {
    /// So many columns, from 1 to 2^24.
    pub fn of(columns: u64) -> Columns
        requires some { 0 < columns }
        requires few { columns ≤ 2 ^ 24 }
        ensures { result.columns ≡ columns }
    {
        Columns {
            columns,
            factor: (1u64 << 48) / columns + 1,
        }
    }

    /// The line of a row, which is the row over the columns.
    #[inline(always)]
    pub fn line(&self, row: u64) -> u64
        requires { row < 2 ^ 24 }
        ensures { result ≡ row / self.now.columns }
    {
        ((u128::from(row) * u128::from(self.factor)) >> 48) as u64
    }

    /// The column of a row that is in this line.
    #[inline(always)]
    pub fn column(&self, row: u64, line: u64) -> u64
        requires { line ≡ row / self.now.columns }
        ensures { result ≡ row % self.now.columns }
    {
        row - line * self.columns
    }

    /// The slot of a row by columns of so many lines.
    #[inline(always)]
    pub fn slot_by_columns(&self, row: u64, lines: u64) -> u64
        requires row { row < 2 ^ 24 }
        requires fits { row % self.now.columns * lines + row / self.now.columns < 2 ^ 64 }
        ensures { result ≡ row % self.now.columns * lines + row / self.now.columns }
    {
        let line = self.line(row);
        self.column(row, line) * lines + line
    }

    /// The slot of a row in Morton order: the digits of its line and of its column in turn.
    #[inline(always)]
    pub fn slot_by_digits(&self, row: u64) -> u64
        requires row { row < 2 ^ 24 }
        requires line { row / self.now.columns < 2 ^ 12 }
        requires column { row % self.now.columns < 2 ^ 12 }
        ensures { result ≡ interleaved (row / self.now.columns ∷ row % self.now.columns ∷ []) }
    {
        let line = self.line(row);
        in_turn(line, self.column(row, line))
    }
}
