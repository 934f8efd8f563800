use extents::BadExtents;
use map_expr::BadMapping;
use record_dim::{BadRecord, Name, Path, Text};

/// Why a command or a script is refused. A `leaf` is the path text of a leaf.
#[derive(Drop)]
pub enum CommandFault {
    /// The text is no line of the language. Columns are counted from 1.
    Syntax { column: u64 },
    /// An expression is more than 32 deep.
    TooDeep,
    /// The line has more than 4,096 bytes.
    LineTooLong,
    /// The first line that is not blank has the tokens `version` and a number that is neither 1 nor 2.
    BadVersion,
    /// The script has more than 2^20 bytes or 65,536 lines.
    ScriptTooLong,
    /// A dataset, a view or all views together are over a limit.
    TooBig,
    /// The index has another rank or lies outside the extents, or there is no blob of this number.
    BadIndex,
    /// The spans are no window of the extents.
    BadWindow,
    /// There is no least and no greatest value, since the view has no row.
    Empty,
    /// Two views have other records or other extents.
    Mismatch,
    /// The view counts no accesses.
    NotCounted,
    /// 64 views are live.
    TooManyViews,
    /// A name, a path or an index names nothing.
    Unknown(UnknownName),
    /// The name is defined already.
    Taken(Name),
    /// An update sets the leaf a second time.
    Twice { leaf: Text },
    /// No column of the dataset names the leaf.
    MissingColumn { leaf: Text },
    /// Two columns of the dataset name the leaf.
    ColumnTwice { leaf: Text },
    BadRecord(BadRecord),
    BadExtents(BadExtents),
    BadMapping(BadMapping),
    BadKernel(BadKernel),
    BadFile(BadFile),
    BadActors(BadActors),
    BadStencil(BadStencil),
    BadAdvice(BadAdvice),
    /// The byte holds bits of rows of two actors.
    SharedByte { blob: u64, byte: u64 },
    /// The row of the dataset has no field in the leaf's column.
    ShortRow { row: u64, leaf: Text },
    /// The field of the dataset is no number.
    Number { row: u64, leaf: Text },
    /// The value lies outside the declared range of the leaf.
    Range { row: u64, leaf: Text },
    /// The value lies in the declared range of the leaf and outside the range in which it is stored.
    Narrow { row: u64, leaf: Text },
    /// A result lies outside 128 bits.
    Overflow { row: u64 },
    DivideByZero { row: u64 },
}

/// Why bytes are no blob file of which a view is made.
#[derive(Clone, Copy)]
pub enum BadFile {
    /// The first eight bytes are not those of a blob file.
    Magic,
    /// Behind them there is no header.
    Header,
    /// No view is made of the header's record, extents and mapping.
    Layout,
    /// The bytes behind the header are not as many as those of the blobs.
    Length,
    /// They are not the image of rows that such a view may hold.
    Contents,
}

/// Why rows are not shared out among actors.
#[derive(Clone, Copy)]
pub enum BadActors {
    /// There are more than 63 cuts, they fall somewhere, or one is over the number of rows.
    Cuts,
    /// There are more than 2^20 turns.
    Turns,
}

/// Why a stencil is refused.
#[derive(Clone, Copy)]
pub enum BadStencil {
    /// The offsets of a term have another rank or are out of range, or from some row of the window it reads outside the extents.
    Reach,
    /// A weight or the divisor is out of range.
    Weight,
    /// There are more than 64 terms.
    Terms,
    /// There are more than 1,000 rounds.
    Rounds,
}

/// Why no layout is advised.
#[derive(Clone, Copy)]
pub enum BadAdvice {
    /// A granule has not a power of two of bytes, from 1 to 4,096.
    Granule,
    /// There are more than 16 passes.
    Passes,
    /// There are more than 16 candidates.
    Candidates,
}

/// A name, a path or an index that names nothing.
#[derive(Drop)]
pub enum UnknownName {
    Name(Name),
    Path(Path),
    Index(u32),
}

/// Why a kernel is refused.
#[derive(Clone, Copy)]
pub enum BadKernel {
    /// The number of lanes is not 1, 2, 4, 8 or 16.
    Lanes,
    /// The type of a leaf has more than 32 bits.
    Wide,
    /// A constant lies outside its range, or the least is above the greatest.
    Constant,
}
