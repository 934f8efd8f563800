// `view V : P [..] wrap as ..`.
ghost use Rattle.std.specs.Prelude.{◌≡◌, ◌<◌, IfOk, IfErr, OnOk, true, length};
ghost use Rattle.session.specs.Imports.{IsShape, term_of, named, new_table, view, with_view, is_nameless, Gives};

use crate::session::Session;
use blob_file::mode_by;
use command_checks::{
    MappingList, RecordList, StepFault, ViewEntry, free_view, has_room, made, nameless, resolved,
    schema_of, shaped,
};
use extents::{ExtentWord, Shape};
use line_grammar::ExtentWords;
use map_expr::MapExpr;
use record_dim::{Name, Schema};
use std::alloc::Global;
use views::{StoreMode, View};

/// What makes a view: its name, the name of its record, its extents, whether it keeps the low bits of a value that does not fit, and its
/// mapping.
#[derive(Drop)]
pub struct New<'a> {
    pub name: Name,
    pub schema: Name,
    pub words: &'a [ExtentWord],
    pub wrap: bool,
    pub expr: &'a MapExpr,
}

/// What the words of a new view stand for, and its shape.
#[derive(Drop)]
pub struct Found<'a> {
    pub schema: &'a Schema,
    pub mode: StoreMode,
    pub expr: MapExpr,
    pub shape: Shape,
}

ghost use Rattle.session.specs.Stands.{world_in};
ghost use Rattle.session.specs.Loads.{named_of, new_of};

impl<'a> New<'a> {
    /// What makes a view, of the words of a line.
    pub fn of(
        name: Name,
        schema: Name,
        words: &'a ExtentWords,
        wrap: bool,
        expr: &'a MapExpr,
    ) -> New<'a>
        ensures { new_of result ≡ record { name = name; schema = schema; words = words.now; wrap = wrap; term = term_of expr.now } }
    {
        New {
            name,
            schema,
            words: words.as_slice(),
            wrap,
            expr,
        }
    }
}

impl Session {
    ghost use Rattle.session.specs.Stands.{Stands, left_of, world_of};

    /// Makes a view of zeros.
    #[tactic(auto, unfolding(worlds::specs::View::view))]
    pub(crate) fn view(self, new: &New<'_>) -> Result<Session, StepFault>
        ensures { Gives left_of result (view (world_of self) (new_of new.now)) }
    {
        let view = new_view(
            self.alloc,
            &self.records,
            &self.mappings,
            self.views.as_slice(),
            new,
        )?;
        self.with_view(new.name, view)
    }

    /// One view more.
    pub(crate) fn with_view(mut self, name: Name, view: View) -> Result<Session, StepFault>
        ensures added { IfOk result (λ next. Stands next (with_view (world_of self) name view)) }
        ensures starved { IfErr result (λ fault. fault ≡ StepFault.NoMemory) }
    {
        self.views.push(ViewEntry { name, view })?;
        Ok(self)
    }
}

/// What the words of a new view stand for, and its shape: the tests that need no file.
pub fn named<'a>(
    alloc: Global,
    records: &'a RecordList,
    mappings: &MappingList,
    views: &[ViewEntry],
    new: &New<'_>,
) -> Result<Found<'a>, StepFault>
    ensures named { Gives named_of result (named (world_in records.now mappings.now views.now) (new_of new.now)) }
    ensures nameless { IfOk result (λ found. is_nameless (term_of found.expr) ≡ true) }
    ensures shape { IfOk result (λ found. found.shape ≡ new.now.words.now) }
    ensures is_shape { OnOk result (IsShape new.now.words.now) }
    ensures room { OnOk result (length views.now < 64) }
{
    free_view(views, new.name)?;
    let schema = schema_of(records, new.schema)?;
    let expr = nameless(alloc, mappings, new.expr)?;
    has_room(views)?;
    let shape = shaped(new.words)?;
    Ok(Found {
        schema,
        mode: mode_by(new.wrap),
        expr,
        shape,
    })
}

// The view that stands at first.
#[tactic(auto, unfolding(worlds::specs::View::new_table))]
fn new_view(
    alloc: Global,
    records: &RecordList,
    mappings: &MappingList,
    views: &[ViewEntry],
    new: &New<'_>,
) -> Result<View, StepFault>
    ensures { Gives (λ view. view) result (new_table (world_in records.now mappings.now views.now) (new_of new.now)) }
{
    let found = named(alloc, records, mappings, views, new)?;
    let extents = resolved(&found.shape, new.words, None)?;
    made(alloc, views, found.mode, found.schema, extents, &found.expr)
}
