ghost use Rattle.std.specs.Prelude.{◌≡◌, ◌↔◌, IsTrue};
ghost use Rattle.map_expr.specs.Terms.{term_of, uncounted};

use crate::MapExpr;
use crate::widths::{same_steps, same_widths};

impl MapExpr {
    /// Whether two expressions are one, names and numbers included. It takes stack for each level of the expression.
    pub fn same(&self, other: &MapExpr) -> bool
        ensures { IsTrue result ↔ (term_of self.now ≡ term_of other.now) }
    {
        match (self, other) {
            (MapExpr::Aos { form, order }, MapExpr::Aos { form: f, order: o }) => {
                form == f && order == o
            }
            (MapExpr::Soa { form, order }, MapExpr::Soa { form: f, order: o }) => {
                form == f && order == o
            }
            (MapExpr::Aosoa { lanes, order }, MapExpr::Aosoa { lanes: l, order: o }) => {
                lanes == l && order == o
            }
            (
                MapExpr::BitAos {
                    width,
                    fields,
                    order,
                },
                MapExpr::BitAos {
                    width: w,
                    fields: f,
                    order: o,
                },
            ) => width == w && order == o && same_widths(fields.as_slice(), f.as_slice()),
            (
                MapExpr::BitSoa {
                    width,
                    fields,
                    order,
                },
                MapExpr::BitSoa {
                    width: w,
                    fields: f,
                    order: o,
                },
            ) => width == w && order == o && same_widths(fields.as_slice(), f.as_slice()),
            (
                MapExpr::Split { path, first, rest },
                MapExpr::Split {
                    path: p,
                    first: f,
                    rest: r,
                },
            ) => same_steps(path.as_slice(), p.as_slice()) && first.same(f) && rest.same(r),
            (MapExpr::Byteswap(inner), MapExpr::Byteswap(other)) => inner.same(other),
            (MapExpr::Bytesplit(inner), MapExpr::Bytesplit(other)) => inner.same(other),
            (
                MapExpr::Change { from, to, inner },
                MapExpr::Change {
                    from: f,
                    to: t,
                    inner: i,
                },
            ) => from == f && to == t && inner.same(i),
            (MapExpr::Count(inner), MapExpr::Count(other)) => inner.same(other),
            (
                MapExpr::Heat { granule, inner },
                MapExpr::Heat {
                    granule: g,
                    inner: i,
                },
            ) => granule == g && inner.same(i),
            (MapExpr::Named(name), MapExpr::Named(other)) => name == other,
            _ => false,
        }
    }

    /// The expression without the counters at its top.
    pub fn uncounted(&self) -> &MapExpr
        ensures { term_of result.now ≡ uncounted (term_of self.now) }
    {
        match self {
            MapExpr::Count(inner) | MapExpr::Heat { granule: _, inner } => inner.uncounted(),
            _ => self,
        }
    }
}
