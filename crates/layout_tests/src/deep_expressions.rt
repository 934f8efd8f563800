// Expressions that are deeper than one of a line: they are made, bound, worked out and dropped without a long stack.
ghost use Rattle.std.specs.Prelude.{◌≡◌, ◌<◌};

use crate::tables::schema_of;
use expr_lang::{BinOp, EvalFault, Expr, Row, bind, eval};
use record_dim::{LeafType, Name, Path, Steps};
use std::alloc::{AllocError as NoMemory, Global};
use std::marker::Brand;
use std::sync::ledger::{Blank, Ledger};
use std::test::Fail;

// A row of one number.
#[derive(Drop)]
struct OneNumber {
    number: i128,
}

impl Row for OneNumber {
    ghost use Rattle.std.specs.Prelude.{ℕ, [], ◌∷◌};

    ghost State = { ℕ };

    ghost numbers = { λ r. r.number ∷ [] };

    ghost state = { λ _. 0 };

    ghost after = { λ _ _. 0 };

    fn read<L: Ledger>(&mut self, _leaf: usize, steps: &mut Steps<L>) -> i128 {
        steps.tick();
        self.number
    }
}

// The one leaf.
fn leaf(alloc: Global) -> Result<Expr, Fail> {
    let name = Name::new("f0").ok_or("no name")?;
    Ok(Expr::Path(Path::new(alloc, name)?))
}

// The expression under one sign.
fn signed(alloc: Global, inner: Expr, is_not: bool) -> Result<Expr, NoMemory> {
    let inner = Box::new(alloc, inner)?;
    Ok(if is_not {
        Expr::Not(inner)
    } else {
        Expr::Neg(inner)
    })
}

fn binary(alloc: Global, op: BinOp, left: Expr, right: Expr) -> Result<Expr, NoMemory> {
    let left = Box::new(alloc, left)?;
    let right = Box::new(alloc, right)?;
    Ok(Expr::Binary { op, left, right })
}

// The value where the leaf is 2.
fn value<L: Ledger>(
    alloc: Global,
    expr: &Expr,
    blank: Blank,
) -> Result<Result<i128, EvalFault>, Fail>
    requires name { blank.name ≡ L.name }
    requires parts { blank.parts ≡ L.parts }
    requires some { 0 < blank.parts }
{
    let schema = schema_of(alloc, &[LeafType::I64])?;
    if schema.leaf_count() != 1 {
        return Err(Fail::new("not one leaf"));
    }
    let bound = bind(alloc, expr, &schema, 0)?;
    let mut row = OneNumber { number: 2 };
    let mut steps = Steps::<L>::new(blank);
    Ok(eval(&bound, &mut row, [].as_slice(), &mut steps))
}

#[test]
fn long_chains_take_little_stack(rt: HostRuntime) -> Result<(), Fail> {
    let alloc = rt.alloc();
    let mut sum = leaf(alloc)?;
    let mut signs = leaf(alloc)?;
    for operators in 1..=4000u64 {
        sum = binary(alloc, BinOp::Add, sum, leaf(alloc)?)?;
        signs = signed(alloc, signs, operators % 2 == 1)?;
        assert!(rt; operators > 40 || sum.depth() == operators + 1);
    }
    assert!(rt; sum.depth() == 4001 && signs.depth() == 4001);
    assert!(rt; value::<Brand>(alloc, &sum, Blank::new(1))? == Ok(8002));
    assert!(rt; value::<Brand>(alloc, &signs, Blank::new(1))? == Ok(-1));
    let right = binary(alloc, BinOp::Mul, leaf(alloc)?, sum)?;
    assert!(rt; right.depth() == 4002);
    Ok(())
}
