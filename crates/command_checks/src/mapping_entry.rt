ghost use Rattle.std.specs.Prelude.{◌≡◌, true};
ghost use Rattle.command_checks.specs.Imports.{term_of};
ghost use Rattle.command_checks.specs.Inner.Bases.{is_nameless};

use map_expr::MapExpr;
use record_dim::Name;

/// A mapping expression and its name. No other name stands in it.
#[derive(Drop)]
pub struct MappingEntry {
    pub name: Name,
    pub expr: MapExpr,
    ghost nameless: { is_nameless (term_of expr) ≡ true },
}
