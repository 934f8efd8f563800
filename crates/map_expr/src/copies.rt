ghost use Rattle.std.specs.Prelude.{◌≡◌, IfOk};
ghost use Rattle.map_expr.specs.Terms.{term_of};

use crate::MapExpr;
use crate::widths::copy_widths;
use std::alloc::{AllocError as NoMemory, Global};

impl MapExpr {
    /// An equal expression. It takes stack for each level of the expression.
    pub fn copy(&self, alloc: Global) -> Result<MapExpr, NoMemory>
        ensures { IfOk result (λ copy. term_of copy ≡ term_of self.now) }
    {
        match self {
            MapExpr::Aos { form, order } => Ok(MapExpr::Aos {
                form: *form,
                order: *order,
            }),
            MapExpr::Soa { form, order } => Ok(MapExpr::Soa {
                form: *form,
                order: *order,
            }),
            MapExpr::Aosoa { lanes, order } => Ok(MapExpr::Aosoa {
                lanes: *lanes,
                order: *order,
            }),
            MapExpr::BitAos {
                width,
                fields,
                order,
            } => Ok(MapExpr::BitAos {
                width: *width,
                fields: copy_widths(alloc, fields)?,
                order: *order,
            }),
            MapExpr::BitSoa {
                width,
                fields,
                order,
            } => Ok(MapExpr::BitSoa {
                width: *width,
                fields: copy_widths(alloc, fields)?,
                order: *order,
            }),
            MapExpr::Split { path, first, rest } => {
                let path = path.copy(alloc)?;
                let first = Box::new(alloc, first.copy(alloc)?)?;
                let rest = Box::new(alloc, rest.copy(alloc)?)?;
                Ok(MapExpr::Split { path, first, rest })
            }
            MapExpr::Byteswap(inner) => {
                Ok(MapExpr::Byteswap(Box::new(alloc, inner.copy(alloc)?)?))
            }
            MapExpr::Bytesplit(inner) => {
                Ok(MapExpr::Bytesplit(Box::new(alloc, inner.copy(alloc)?)?))
            }
            MapExpr::Change { from, to, inner } => {
                let inner = Box::new(alloc, inner.copy(alloc)?)?;
                Ok(MapExpr::Change {
                    from: *from,
                    to: *to,
                    inner,
                })
            }
            MapExpr::Count(inner) => Ok(MapExpr::Count(Box::new(alloc, inner.copy(alloc)?)?)),
            MapExpr::Heat { granule, inner } => {
                let inner = Box::new(alloc, inner.copy(alloc)?)?;
                Ok(MapExpr::Heat {
                    granule: *granule,
                    inner,
                })
            }
            MapExpr::Named(name) => Ok(MapExpr::Named(*name)),
        }
    }
}
