ghost use Rattle.std.specs.Prelude.{◌≡◌};
ghost use Rattle.c_lines.specs.Answers.{refusal_number};
ghost use Rattle.c_lines.specs.Faults.{cause_of, column_of, fault_of, leaf_named, row_named};
ghost use Rattle.c_lines.specs.Told.{store_refusal};

use extents::BadExtents;
use map_expr::BadMapping;
use record_dim::BadRecord;
use views::StoreFault;
use worlds::{BadActors, BadAdvice, BadFile, BadKernel, BadStencil};

/// The number in C of a call that did what it is for.
pub const DONE: i32 = 0;

/// Which of the texts of a call: where it has one, that is the first.
#[derive(Clone, Copy)]
pub enum TextOf {
    First,
    Second,
}

/// Why a call is not done.
#[derive(Clone, Copy)]
pub enum Refusal {
    /// The handle holds no view.
    NoView,
    /// There is no such row, leaf, blob, path or index.
    NoPlace,
    NoMemory,
    /// The buffer is too short.
    NoRoom,
    /// The leaf has values that are none of the caller's type.
    BadType,
    /// A value lies outside of the declared range of its leaf.
    Range { row: u64, leaf: usize },
    /// A value lies in the declared range and not in that of how its leaf is stored.
    Narrow { row: u64, leaf: usize },
    /// The views have other records or other extents.
    Mismatch,
    /// A text is no line, from its column on, counted from 1.
    Syntax { text: TextOf, column: u64 },
    /// An expression in a text is more than 32 deep.
    TooDeep(TextOf),
    /// A text is a line of another command.
    OtherLine(TextOf),
    /// A text has more than 4,096 bytes.
    LineTooLong(TextOf),
    /// A name or a path stands in a text that names nothing.
    Unknown,
    BadRecord(BadRecord),
    BadExtents(BadExtents),
    BadMapping(BadMapping),
    /// A dataset or a view is over a limit.
    TooBig,
    BadKernel(BadKernel),
    /// The view has no row, so there is no least and no greatest value.
    Empty,
    /// No column of the dataset names the leaf.
    MissingColumn { leaf: usize },
    /// Two columns of the dataset name the leaf.
    ColumnTwice { leaf: usize },
    /// The row of the dataset has no field in the leaf's column.
    ShortRow { row: u64, leaf: usize },
    /// The field of the dataset is no number.
    Number { row: u64, leaf: usize },
    BadFile(BadFile),
    /// An update sets the leaf a second time.
    Twice { leaf: usize },
    /// A result lies outside 128 bits.
    Overflow { row: u64 },
    DivideByZero { row: u64 },
    /// The view counts no accesses.
    NotCounted,
    /// The spans are no window of the extents.
    BadWindow,
    /// The numbers of the leaf lie as no place says, or the accesses to it are counted.
    Irregular { leaf: usize },
    BadStencil(BadStencil),
    BadActors(BadActors),
    BadAdvice(BadAdvice),
    /// A byte holds bits of rows of two actors.
    SharedByte { blob: u64, byte: u64 },
}

/// What C learns of a refusal beside its number: which of several causes it is, and where. What a refusal does not have is 0.
#[repr(C)]
#[derive(Clone, Copy)]
pub struct Fault {
    pub cause: i32,
    pub row: u64,
    pub leaf: usize,
    pub column: u64,
}

impl Refusal {
    /// Its number in C.
    pub fn number(self) -> i32
        ensures { result ≡ refusal_number self }
    {
        match self {
            Refusal::NoView => 1,
            Refusal::NoPlace => 2,
            Refusal::NoMemory => 3,
            Refusal::NoRoom => 4,
            Refusal::BadType => 5,
            Refusal::Range { .. } => 6,
            Refusal::Narrow { .. } => 7,
            Refusal::Mismatch => 8,
            Refusal::Syntax { .. } => 9,
            Refusal::TooDeep(_) => 10,
            Refusal::OtherLine(_) => 11,
            Refusal::LineTooLong(_) => 12,
            Refusal::Unknown => 13,
            Refusal::BadRecord(_) => 14,
            Refusal::BadExtents(_) => 15,
            Refusal::BadMapping(_) => 16,
            Refusal::TooBig => 17,
            Refusal::BadKernel(_) => 18,
            Refusal::Empty => 19,
            Refusal::MissingColumn { .. } => 20,
            Refusal::ColumnTwice { .. } => 21,
            Refusal::ShortRow { .. } => 22,
            Refusal::Number { .. } => 23,
            Refusal::BadFile(_) => 24,
            // What is tested over the proved calls has 25 and 26.
            Refusal::Twice { .. } => 27,
            Refusal::Overflow { .. } => 28,
            Refusal::DivideByZero { .. } => 29,
            Refusal::NotCounted => 30,
            Refusal::BadWindow => 31,
            Refusal::Irregular { .. } => 32,
            Refusal::BadStencil(_) => 33,
            Refusal::BadActors(_) => 34,
            Refusal::BadAdvice(_) => 35,
            Refusal::SharedByte { .. } => 36,
        }
    }

    /// What C learns of it beside that.
    pub fn fault(self) -> Fault
        ensures { result ≡ fault_of self }
    {
        Fault {
            cause: self.cause(),
            row: self.row(),
            leaf: self.leaf(),
            column: self.column(),
        }
    }

    // Which of several causes it is, or which text it is of.
    pub(crate) fn cause(self) -> i32
        ensures { result ≡ cause_of self }
    {
        match self {
            Refusal::Syntax { text, .. } => text as i32 + 1,
            Refusal::TooDeep(text) => text as i32 + 1,
            Refusal::OtherLine(text) => text as i32 + 1,
            Refusal::LineTooLong(text) => text as i32 + 1,
            Refusal::BadRecord(bad) => bad as i32 + 1,
            Refusal::BadExtents(bad) => bad as i32 + 1,
            Refusal::BadMapping(bad) => bad as i32 + 1,
            Refusal::BadKernel(bad) => bad as i32 + 1,
            Refusal::BadFile(bad) => bad as i32 + 1,
            Refusal::BadStencil(bad) => bad as i32 + 1,
            Refusal::BadActors(bad) => bad as i32 + 1,
            Refusal::BadAdvice(bad) => bad as i32 + 1,
            _ => 0,
        }
    }

    pub(crate) fn row(self) -> u64
        ensures { result ≡ row_named self }
    {
        match self {
            Refusal::Range { row, .. } => row,
            Refusal::Narrow { row, .. } => row,
            Refusal::ShortRow { row, .. } => row,
            Refusal::Number { row, .. } => row,
            Refusal::Overflow { row } => row,
            Refusal::DivideByZero { row } => row,
            Refusal::SharedByte { blob, .. } => blob,
            _ => 0,
        }
    }

    pub(crate) fn leaf(self) -> usize
        ensures { result ≡ leaf_named self }
    {
        match self {
            Refusal::Range { leaf, .. } => leaf,
            Refusal::Narrow { leaf, .. } => leaf,
            Refusal::MissingColumn { leaf } => leaf,
            Refusal::ColumnTwice { leaf } => leaf,
            Refusal::ShortRow { leaf, .. } => leaf,
            Refusal::Number { leaf, .. } => leaf,
            Refusal::Twice { leaf } => leaf,
            Refusal::Irregular { leaf } => leaf,
            _ => 0,
        }
    }

    fn column(self) -> u64
        ensures { result ≡ column_of self }
    {
        match self {
            Refusal::Syntax { column, .. } => column,
            Refusal::SharedByte { byte, .. } => byte,
            _ => 0,
        }
    }

    /// That of a store that is refused.
    pub fn of_store(row: u64, leaf: usize, fault: StoreFault) -> Refusal
        ensures { result ≡ store_refusal row leaf fault }
    {
        match fault {
            StoreFault::Range => Refusal::Range { row, leaf },
            StoreFault::Narrow => Refusal::Narrow { row, leaf },
        }
    }
}
