// `record P { .. }` and `mapping M = ..`.
ghost use Rattle.std.specs.Prelude.{◌≡◌, true};
ghost use Rattle.session.specs.Imports.{term_of, schema_fields, tree_of, IsRecord, define, fit, mapping, is_nameless, Gives};
ghost use Rattle.session.specs.Inner.Changes.{mapping_fits};

use crate::session::Session;
use command_checks::{MappingEntry, RecordEntry, StepFault, nameless};
use map_expr::MapExpr;
use record_dim::{Dim, MakeSchema, Name, Schema};
use std::alloc::Global;
use worlds::CommandFault;

impl Session {
    ghost use Rattle.session.specs.Stands.{left_of, world_of};

    /// Names a record.
    #[tactic(auto, unfolding(worlds::specs::Define::define))]
    pub(crate) fn define(self, name: Name, dim: &Dim) -> Result<Session, StepFault>
        requires { IsRecord dim.now }
        ensures { Gives left_of result (define (world_of self) name (tree_of dim.now)) }
    {
        self.records.free(name)?;
        let schema = new_schema(self.alloc, dim)?;
        let records = self.records.with(RecordEntry { name, schema })?;
        Ok(Session { records, ..self })
    }

    /// Names a mapping expression, the names in it replaced.
    #[tactic(auto, unfolding(worlds::specs::Mapping::mapping))]
    pub(crate) fn mapping(self, name: Name, expr: &MapExpr) -> Result<Session, StepFault>
        ensures { Gives left_of result (mapping (world_of self) name (term_of expr.now)) }
    {
        self.mappings.free(name)?;
        let expr = nameless(self.alloc, &self.mappings, expr)?;
        fits(&expr)?;
        let mappings = self.mappings.with(MappingEntry { name, expr })?;
        Ok(Session { mappings, ..self })
    }
}

// The schema of a tree of fields.
fn new_schema(alloc: Global, dim: &Dim) -> Result<Schema, StepFault>
    requires { IsRecord dim.now }
    ensures { Gives schema_fields result (fit (tree_of dim.now)) }
{
    match Schema::new(alloc, dim.copy(alloc)?) {
        Ok(schema) => Ok(schema),
        Err(fault) => match fault {
            MakeSchema::Bad(bad) => Err(StepFault::Command(CommandFault::BadRecord(bad))),
            MakeSchema::NoMemory => Err(StepFault::NoMemory),
        },
    }
}

// That an expression can be a mapping, whatever its cells are.
#[tactic(auto, using(command_checks::specs::BasesLaws::nameless_term))]
fn fits(expr: &MapExpr) -> Result<(), StepFault>
    requires { is_nameless (term_of expr.now) ≡ true }
    ensures { Gives (λ done. tt) result (mapping_fits (term_of expr.now)) }
{
    match expr.check() {
        Ok(()) => Ok(()),
        Err(bad) => Err(StepFault::Command(CommandFault::BadMapping(bad))),
    }
}
