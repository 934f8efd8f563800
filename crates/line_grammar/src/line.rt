ghost use Rattle.std.specs.Prelude.{◌≡◌, option_map};
ghost use Rattle.line_grammar.specs.Sentences.{Show, file_read_by, sentence_of, show_of};

use crate::FileName;
use expr_lang::{BinOp, Expr};
use extents::{ExtentWord, Span};
use map_expr::{MapExpr, MapExprList};
use record_dim::{Dim, Name, Path, Sequence};

/// The extents of a view, in order.
pub type ExtentWords = Sequence<ExtentWord>;

/// The index of a row, or the cuts between actors, in order.
pub type IndexWords = Sequence<u32>;

/// The assignments of an update, in order.
pub type SetList = Sequence<SetText>;

/// Paths, in order.
pub type PathList = Sequence<Path>;

/// The passes that a layout is chosen for, in order.
pub type PassTextList = Sequence<PassText>;

/// The spans of a window, in order.
pub type WindowWords = Sequence<Span>;

/// Weighted terms, in order.
pub type TermTextList = Sequence<TermText>;

/// How far a neighbour is away in each dimension, in order.
pub type OffsetTexts = Sequence<i128>;

/// One line of a script.
#[derive(Drop)]
pub enum Line {
    /// A line without tokens, which does nothing.
    Blank,
    /// Names a record.
    Define {
        name: Name,
        dim: Dim,
    },
    /// Names a mapping.
    Mapping {
        name: Name,
        expr: MapExpr,
    },
    /// A view of zeros over the record `schema`. With `wrap` a store keeps the low bits of a value that does not fit, and
    /// without it such a value is refused.
    View {
        name: Name,
        schema: Name,
        words: ExtentWords,
        wrap: bool,
        expr: MapExpr,
    },
    /// The same, with the values of the dataset `file`.
    Load {
        name: Name,
        schema: Name,
        words: ExtentWords,
        wrap: bool,
        expr: MapExpr,
        file: FileName,
    },
    /// Stores a value in one row.
    Assign {
        view: Name,
        index: IndexWords,
        path: Path,
        value: Expr,
    },
    /// Stores values in each row where the filter is not 0, and in each row where there is none.
    Update {
        view: Name,
        filter: Option<Expr>,
        sets: SetList,
    },
    /// The same, by actors that load and store single bytes. Between `cuts` lie the rows of one actor each, `seed` begins the
    /// schedule of whose turn it is, and after so many turns the bytes are shown.
    Actors {
        view: Name,
        filter: Option<Expr>,
        sets: SetList,
        cuts: IndexWords,
        seed: u32,
        turns: u32,
    },
    /// Runs a kernel over so many lanes.
    Kernel {
        view: Name,
        kernel: KernelText,
        lanes: u32,
    },
    /// One number of all rows.
    Reduce {
        view: Name,
        kind: ReduceKind,
        path: Path,
    },
    /// The number of rows where the filter is not 0.
    Count {
        view: Name,
        filter: Expr,
    },
    /// Copies the table of `source` to `target`.
    Copy {
        source: Name,
        target: Name,
    },
    /// The same table under another mapping.
    Relayout {
        view: Name,
        expr: MapExpr,
    },
    Print(Name),
    Counts(Name),
    Heat(Name),
    Layout(Name),
    Drop(Name),
    /// The bytes of one blob.
    Bytes {
        view: Name,
        blob: u32,
    },
    /// The view as the bytes of a blob file.
    SaveView(Name),
    /// A view of the bytes of the blob file `file`.
    OpenFile {
        name: Name,
        file: FileName,
    },
    /// What the passes cost in granules of `granule` bytes under each of the mappings, and the cheapest; with `splits` also under
    /// the splits made of two of them.
    Advise {
        view: Name,
        granule: u32,
        passes: PassTextList,
        maps: MapExprList,
        splits: bool,
    },
    /// The rows of a window.
    PrintWindow {
        view: Name,
        window: WindowWords,
    },
    /// So many times, the leaf becomes in each row of a window the sum of the terms, divided by `divisor`.
    Stencil {
        view: Name,
        window: WindowWords,
        path: Path,
        terms: TermTextList,
        divisor: u32,
        rounds: u32,
    },
}

impl Line {
    /// The name of the file that the line reads: that of a dataset or of a blob file.
    pub fn file(&self) -> Option<&FileName>
        ensures { option_map (λ file. file.now) result ≡ file_read_by (sentence_of self.now) }
    {
        match self {
            Line::Load { file, .. } | Line::OpenFile { file, .. } => Some(file),
            _ => None,
        }
    }

    /// The line that shows this of a view.
    pub fn show(kind: ShowKind, view: Name) -> Line
        ensures { sentence_of result ≡ Show kind view }
    {
        match kind {
            ShowKind::Print => Line::Print(view),
            ShowKind::Counts => Line::Counts(view),
            ShowKind::Heat => Line::Heat(view),
            ShowKind::Layout => Line::Layout(view),
        }
    }

    /// What the line shows, and of which view, where it does nothing else.
    pub fn shown(&self) -> Option<(ShowKind, Name)>
        ensures { result ≡ show_of (sentence_of self.now) }
    {
        match self {
            Line::Print(view) => Some((ShowKind::Print, *view)),
            Line::Counts(view) => Some((ShowKind::Counts, *view)),
            Line::Heat(view) => Some((ShowKind::Heat, *view)),
            Line::Layout(view) => Some((ShowKind::Layout, *view)),
            _ => None,
        }
    }
}

/// The path of a leaf, and the value that it gets.
#[derive(Drop)]
pub struct SetText {
    pub path: Path,
    pub value: Expr,
}

/// The paths of the leaves that a pass over all rows reads, and how often it is made.
#[derive(Drop)]
pub struct PassText {
    pub paths: PathList,
    pub times: u32,
}

/// A weighted term: `weight` times the leaf in the row whose index is `offsets` away.
#[derive(Drop)]
pub struct TermText {
    pub weight: i128,
    pub path: Path,
    pub offsets: OffsetTexts,
}

/// What a reduction gives.
#[derive(Clone, Copy)]
pub enum ReduceKind {
    Sum,
    Min,
    Max,
}

/// What a line of one word and the name of a view shows.
#[derive(Clone, Copy)]
pub enum ShowKind {
    /// The rows.
    Print,
    /// How often each leaf was read and written.
    Counts,
    /// How often each granule was accessed.
    Heat,
    /// Whose each bit is.
    Layout,
}

/// A kernel with its leaves and numbers.
#[derive(Drop)]
pub enum KernelText {
    /// `y + a * x` becomes `y`.
    Axpy { a: i128, x: Path, y: Path },
    /// `x` becomes the nearest number from `lo` to `hi`.
    Clamp { x: Path, lo: i128, hi: i128 },
    Sum(Path),
    Least(Path),
    Greatest(Path),
    /// How many rows compare so. `op` is one of the six comparisons.
    CountWhere { x: Path, op: BinOp, c: i128 },
}

/// The word that begins a line.
#[derive(Clone, Copy)]
pub enum Command {
    Record,
    Mapping,
    View,
    Load,
    Set,
    Update,
    Kernel,
    Reduce,
    Copy,
    Relayout,
    Show(ShowKind),
    Drop,
    Bytes,
    Save,
    Open,
    Advise,
    Stencil,
}

/// The word that begins a form of a mapping.
#[derive(Clone, Copy)]
pub enum MapWord {
    Aos,
    Soa,
    Aosoa,
    BitAos,
    BitSoa,
    Split,
    Byteswap,
    Bytesplit,
    Change,
    Count,
    Heat,
}

/// The word that begins a kernel.
#[derive(Clone, Copy)]
pub enum KernelWord {
    Axpy,
    Clamp,
    Sum,
    Least,
    Greatest,
    CountWhere,
}
