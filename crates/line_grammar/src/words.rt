// How a script spells the values of its enums: a word each, an operator a sign or a word.
ghost use Rattle.std.specs.Prelude.{◌≡◌};
ghost use Rattle.line_grammar.specs.Tokens.{listed};
ghost use Rattle.line_grammar.specs.Words.{aos_word, command_word, form_word, kernel_word, order_word, reduction_word, show_word, soa_word, type_word};

use crate::{Command, KernelWord, MapWord, ReduceKind, ShowKind};
use extents::Order;
use places::{AosForm, SoaForm};
use record_dim::LeafType;

/// Values that a script spells by a word each.
pub trait Spelled: Copy {
    ghost use Rattle.std.specs.Prelude.{ℕ, List};

    ghost word: { Self → List ℕ };

    /// The word.
    fn word(self) -> &'static str
        ensures { result.now ≡ word self };
}

// The first of these values that the word spells.
pub(crate) fn listed<T: Spelled>(values: &[T], word: &str) -> Option<T>
    ensures { result ≡ listed T.word values.now word.now }
{
    match values {
        [] => None,
        [first, ..] if word == first.word() => Some(*first),
        [_, rest @ ..] => listed(rest, word),
    }
}

impl Spelled for LeafType {
    ghost word = { type_word };

    fn word(self) -> &'static str {
        match self {
            LeafType::Bool => "bool",
            LeafType::U8 => "u8",
            LeafType::U16 => "u16",
            LeafType::U32 => "u32",
            LeafType::U64 => "u64",
            LeafType::I8 => "i8",
            LeafType::I16 => "i16",
            LeafType::I32 => "i32",
            LeafType::I64 => "i64",
        }
    }
}

impl Spelled for Order {
    ghost word = { order_word };

    fn word(self) -> &'static str {
        match self {
            Order::Row => "row",
            Order::Col => "col",
            Order::Morton => "morton",
        }
    }
}

impl Spelled for AosForm {
    ghost word = { aos_word };

    fn word(self) -> &'static str {
        match self {
            AosForm::Packed => "packed",
            AosForm::Aligned => "aligned",
            AosForm::Min => "min",
        }
    }
}

impl Spelled for SoaForm {
    ghost word = { soa_word };

    fn word(self) -> &'static str {
        match self {
            SoaForm::Single => "single",
            SoaForm::Aligned => "aligned",
            SoaForm::Multi => "multi",
        }
    }
}

impl Spelled for MapWord {
    ghost word = { form_word };

    fn word(self) -> &'static str {
        match self {
            MapWord::Aos => "aos",
            MapWord::Soa => "soa",
            MapWord::Aosoa => "aosoa",
            MapWord::BitAos => "bitaos",
            MapWord::BitSoa => "bitsoa",
            MapWord::Split => "split",
            MapWord::Byteswap => "byteswap",
            MapWord::Bytesplit => "bytesplit",
            MapWord::Change => "change",
            MapWord::Count => "count",
            MapWord::Heat => "heat",
        }
    }
}

impl Spelled for KernelWord {
    ghost word = { kernel_word };

    fn word(self) -> &'static str {
        match self {
            KernelWord::Axpy => "axpy",
            KernelWord::Clamp => "clamp",
            KernelWord::Sum => "sum",
            KernelWord::Least => "least",
            KernelWord::Greatest => "greatest",
            KernelWord::CountWhere => "count_where",
        }
    }
}

impl Spelled for ReduceKind {
    ghost word = { reduction_word };

    fn word(self) -> &'static str {
        match self {
            ReduceKind::Sum => "sum",
            ReduceKind::Min => "min",
            ReduceKind::Max => "max",
        }
    }
}

impl Spelled for ShowKind {
    ghost word = { show_word };

    fn word(self) -> &'static str {
        match self {
            ShowKind::Print => "print",
            ShowKind::Counts => "counts",
            ShowKind::Heat => "heat",
            ShowKind::Layout => "layout",
        }
    }
}

// How many of the words that begin a line the first version has.
pub(crate) const FIRST_COMMANDS: usize = 16;

// The words that begin a line, those of the first version in front.
pub(crate) const COMMANDS: [Command; 20] = [
    Command::Record,
    Command::Mapping,
    Command::View,
    Command::Load,
    Command::Set,
    Command::Update,
    Command::Kernel,
    Command::Reduce,
    Command::Copy,
    Command::Relayout,
    Command::Show(ShowKind::Print),
    Command::Show(ShowKind::Counts),
    Command::Show(ShowKind::Heat),
    Command::Show(ShowKind::Layout),
    Command::Drop,
    Command::Bytes,
    Command::Save,
    Command::Open,
    Command::Advise,
    Command::Stencil,
];

impl Spelled for Command {
    ghost word = { command_word };

    fn word(self) -> &'static str {
        match self {
            Command::Record => "record",
            Command::Mapping => "mapping",
            Command::View => "view",
            Command::Load => "load",
            Command::Set => "set",
            Command::Update => "update",
            Command::Kernel => "kernel",
            Command::Reduce => "reduce",
            Command::Copy => "copy",
            Command::Relayout => "relayout",
            Command::Show(kind) => kind.word(),
            Command::Drop => "drop",
            Command::Bytes => "bytes",
            Command::Save => "save",
            Command::Open => "open",
            Command::Advise => "advise",
            Command::Stencil => "stencil",
        }
    }
}
