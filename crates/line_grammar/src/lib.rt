//! The lines of the script language: their types, their tokens and their grammar. Below these, for any tokens: the words of a
//! grammar, how phrases of it are read, and where reading them stops.
#![tactic(auto)]

mod file_name;
mod items;
mod line;
mod quoted;
mod token;
mod version;
mod words;

pub use file_name::FileName;
pub use items::{
    Choice, Comparison, Conjunction, Count, Disjunction, FirstCommand, Index, IntegerType, Item,
    Number, Product, Sum, Symbol, map_word, operator,
};
pub use line::{
    Command, ExtentWords, IndexWords, KernelText, KernelWord, Line, MapWord, OffsetTexts, PassText,
    PassTextList, PathList, ReduceKind, SetList, SetText, ShowKind, TermText, TermTextList,
    WindowWords,
};
pub use quoted::Quoted;
pub use token::Token;
pub use version::Version;
pub use words::Spelled;
