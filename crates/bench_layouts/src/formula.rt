ghost use Rattle.std.specs.Prelude.{IfOk, IsTrue};
ghost use Rattle.record_dim.specs.Prelude.{is_name};
ghost use Rattle.bench_layouts.specs.Inner.Formula.{IsFormula};

use crate::fault::BenchFault;
use crate::record::sample_schema;
use expr_lang::{BinOp, BindFault, Bound, Expr, bind};
use record_dim::{Name, Path};
use std::alloc::{AllocError as NoMemory, Global};

/// `(x * 2 + y) * z - w` over a record of the leaves x, y, z and w.
pub fn formula(alloc: Global) -> Result<Bound, BenchFault>
    ensures { IfOk result IsFormula }
{
    let schema = sample_schema(alloc)?;
    let expr = expression(alloc)?;
    match bind(alloc, &expr, &schema, 0) {
        Ok(bound) => Ok(bound),
        Err(BindFault::NoMemory) => Err(NoMemory.into()),
        Err(_) => Err(BenchFault::Unknown),
    }
}

fn expression(alloc: Global) -> Result<Expr, NoMemory> {
    let double = binary(alloc, BinOp::Mul, leaf(alloc, "x")?, Expr::Number(2))?;
    let sum = binary(alloc, BinOp::Add, double, leaf(alloc, "y")?)?;
    let product = binary(alloc, BinOp::Mul, sum, leaf(alloc, "z")?)?;
    binary(alloc, BinOp::Sub, product, leaf(alloc, "w")?)
}

fn leaf(alloc: Global, name: &str) -> Result<Expr, NoMemory>
    requires { IsTrue (is_name name.now) }
{
    let Some(name) = Name::new(name) else {
        unreachable!()
    };
    Ok(Expr::Path(Path::new(alloc, name)?))
}

fn binary(alloc: Global, op: BinOp, left: Expr, right: Expr) -> Result<Expr, NoMemory> {
    let left = Box::new(alloc, left)?;
    let right = Box::new(alloc, right)?;
    Ok(Expr::Binary { op, left, right })
}
