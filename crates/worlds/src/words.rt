// The words of each fault.
ghost use Rattle.std.specs.Prelude.{◌≡◌, ◌++◌};
ghost use Rattle.worlds.specs.Imports.{codes};
ghost use Rattle.worlds.specs.FaultTexts.{fault_words, unknown_words, record_words, extents_words, mapping_words, kernel_fault_words, file_words, actors_words, stencil_words, advice_words};
ghost use Rattle.worlds.specs.Inner.Details.{detail_text, place_text};

use crate::detail::{Detail, Words};
use crate::{BadActors, BadAdvice, BadFile, BadKernel, BadStencil, CommandFault, UnknownName};
use extents::BadExtents;
use map_expr::BadMapping;
use record_dim::{BadRecord, Text};

/// The words of a fault.
pub fn words_of(fault: &CommandFault) -> Words<'_>
    ensures { result.name.now ++ detail_text result.detail ≡ fault_words fault.now }
{
    match fault {
        CommandFault::Syntax { column } => words("Syntax column ", Detail::Count(*column)),
        CommandFault::TooDeep => words("TooDeep", Detail::Nothing),
        CommandFault::LineTooLong => words("LineTooLong", Detail::Nothing),
        CommandFault::BadVersion => words("BadVersion", Detail::Nothing),
        CommandFault::ScriptTooLong => words("ScriptTooLong", Detail::Nothing),
        CommandFault::TooBig => words("TooBig", Detail::Nothing),
        CommandFault::BadIndex => words("BadIndex", Detail::Nothing),
        CommandFault::BadWindow => words("BadWindow", Detail::Nothing),
        CommandFault::Empty => words("Empty", Detail::Nothing),
        CommandFault::Mismatch => words("Mismatch", Detail::Nothing),
        CommandFault::NotCounted => words("NotCounted", Detail::Nothing),
        CommandFault::TooManyViews => words("TooManyViews", Detail::Nothing),
        CommandFault::Unknown(name) => unknown_words(name),
        CommandFault::Taken(name) => words("Taken ", Detail::Text(name.as_str())),
        CommandFault::Twice { leaf } => words("Twice ", Detail::Text(leaf.as_str())),
        CommandFault::MissingColumn { leaf } => {
            words("MissingColumn ", Detail::Text(leaf.as_str()))
        }
        CommandFault::ColumnTwice { leaf } => words("ColumnTwice ", Detail::Text(leaf.as_str())),
        CommandFault::BadRecord(bad) => words("BadRecord ", Detail::Text(record_words(*bad))),
        CommandFault::BadExtents(bad) => words("BadExtents ", Detail::Text(extents_words(*bad))),
        CommandFault::BadMapping(bad) => words("BadMapping ", Detail::Text(mapping_words(*bad))),
        CommandFault::BadKernel(bad) => words("BadKernel ", Detail::Text(kernel_words(*bad))),
        CommandFault::BadFile(bad) => words("BadFile ", Detail::Text(file_words(*bad))),
        CommandFault::BadActors(bad) => words("BadActors ", Detail::Text(actors_words(*bad))),
        CommandFault::BadStencil(bad) => words("BadStencil ", Detail::Text(stencil_words(*bad))),
        CommandFault::BadAdvice(bad) => words("BadAdvice ", Detail::Text(advice_words(*bad))),
        CommandFault::SharedByte { blob, byte } => {
            let (blob, byte) = (*blob, *byte);
            words("SharedByte blob ", Detail::Byte { blob, byte })
        }
        CommandFault::ShortRow { row, leaf } => words("ShortRow record ", place(*row, leaf)),
        CommandFault::Number { row, leaf } => words("Number record ", place(*row, leaf)),
        CommandFault::Range { row, leaf } => words("Range record ", place(*row, leaf)),
        CommandFault::Narrow { row, leaf } => words("Narrow record ", place(*row, leaf)),
        CommandFault::Overflow { row } => words("Overflow record ", Detail::Count(*row)),
        CommandFault::DivideByZero { row } => words("DivideByZero record ", Detail::Count(*row)),
    }
}

fn words<'a>(name: &'static str, detail: Detail<'a>) -> Words<'a>
    ensures name { result.name.now ≡ name.now }
    ensures detail { detail_text result.detail ≡ detail_text detail.entry }
{
    Words { name, detail }
}

fn place(row: u64, leaf: &Text) -> Detail<'_>
    ensures { detail_text result ≡ place_text row leaf.now }
{
    Detail::Place {
        row,
        leaf: leaf.as_str(),
    }
}

// The words of what names nothing.
fn unknown_words(name: &UnknownName) -> Words<'_>
    ensures { result.name.now ++ detail_text result.detail ≡ codes "Unknown " ++ unknown_words name.now }
{
    match name {
        UnknownName::Name(name) => words("Unknown ", Detail::Text(name.as_str())),
        UnknownName::Path(path) => words("Unknown ", Detail::Path(path)),
        UnknownName::Index(dimension) => {
            words("Unknown i", Detail::Count(u64::from(*dimension)))
        }
    }
}

fn record_words(bad: BadRecord) -> &'static str
    ensures { result.now ≡ record_words bad }
{
    match bad {
        BadRecord::TooDeep => "TooDeep",
        BadRecord::Empty => "Empty",
        BadRecord::Twice => "Twice",
        BadRecord::NoElements => "NoElements",
        BadRecord::TooManyLeaves => "TooManyLeaves",
    }
}

fn extents_words(bad: BadExtents) -> &'static str
    ensures { result.now ≡ extents_words bad }
{
    match bad {
        BadExtents::Rank => "Rank",
        BadExtents::TwoRows => "TwoRows",
        BadExtents::RowsBesideZero => "RowsBesideZero",
        BadExtents::NotDivisible => "NotDivisible",
        BadExtents::NotEqual => "NotEqual",
        BadExtents::TooMany => "TooMany",
    }
}

fn mapping_words(bad: BadMapping) -> &'static str
    ensures { result.now ≡ mapping_words bad }
{
    match bad {
        BadMapping::TooDeep => "TooDeep",
        BadMapping::Counter => "Counter",
        BadMapping::Lanes => "Lanes",
        BadMapping::Width => "Width",
        BadMapping::Granule => "Granule",
        BadMapping::Side => "Side",
        BadMapping::Field => "Field",
        BadMapping::NotFull => "NotFull",
    }
}

fn kernel_words(bad: BadKernel) -> &'static str
    ensures { result.now ≡ kernel_fault_words bad }
{
    match bad {
        BadKernel::Lanes => "Lanes",
        BadKernel::Wide => "Wide",
        BadKernel::Constant => "Constant",
    }
}

fn file_words(bad: BadFile) -> &'static str
    ensures { result.now ≡ file_words bad }
{
    match bad {
        BadFile::Magic => "Magic",
        BadFile::Header => "Header",
        BadFile::Layout => "Layout",
        BadFile::Length => "Length",
        BadFile::Contents => "Contents",
    }
}

fn actors_words(bad: BadActors) -> &'static str
    ensures { result.now ≡ actors_words bad }
{
    match bad {
        BadActors::Cuts => "Cuts",
        BadActors::Turns => "Turns",
    }
}

fn stencil_words(bad: BadStencil) -> &'static str
    ensures { result.now ≡ stencil_words bad }
{
    match bad {
        BadStencil::Reach => "Reach",
        BadStencil::Weight => "Weight",
        BadStencil::Terms => "Terms",
        BadStencil::Rounds => "Rounds",
    }
}

fn advice_words(bad: BadAdvice) -> &'static str
    ensures { result.now ≡ advice_words bad }
{
    match bad {
        BadAdvice::Granule => "Granule",
        BadAdvice::Passes => "Passes",
        BadAdvice::Candidates => "Candidates",
    }
}
