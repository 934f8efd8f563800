ghost use Rattle.std.specs.Prelude.{◌≡◌, [], ◌∷◌, ◌++◌, IfOk, OnOk, OnErr};
ghost use Rattle.record_dim.specs.declared.path.PathStep.TheVariants.{Name as Named};

use crate::Name;
use std::alloc::{AllocError as NoMemory, Global};
use std::marker::Model;

/// One step down a record: to the field of this name, or to the element of this number, counted from 0.
#[derive(Clone, Copy, Debug, PartialEq, Eq)]
pub enum PathStep {
    Name(Name),
    At(u32),
}

/// The steps from a record down to a node in it. The first is a name. Contracts see the list of the steps.
#[derive(Debug, Drop)]
pub struct Path {
    steps: Vec<PathStep>,
}

impl Model for Path {
    ghost use Rattle.std.specs.Prelude.{List};
    ghost use Rattle.record_dim.specs.declared.path.PathStep.{PathStep};
    ghost use Rattle.record_dim.specs.Paths.{BeginsWithName};

    ghost Value = { List PathStep };

    ghost view = { λ p. p.steps.items };

    ghost invariant = { λ p. BeginsWithName p.steps.items };
}

impl Path {
    ghost use Rattle.record_dim.specs.Paths.{BeginsWithName};

    /// The path of one step.
    pub fn new(alloc: Global, first: Name) -> Result<Path, NoMemory>
        ensures { IfOk result (λ path. path ≡ Named first ∷ []) }
    {
        let mut steps = Vec::new(alloc);
        steps.push(PathStep::Name(first))?;
        Ok(Path { steps })
    }

    /// Puts a step at the end. Where memory is wanting, the path stays as it was.
    pub fn push(&mut self, step: PathStep) -> Result<(), NoMemory>
        ensures ok { OnOk result (self.new ≡ self.old ++ step ∷ []) }
        ensures err { OnErr result (self.new ≡ self.old) }
    {
        self.steps.push(step)?;
        Ok(())
    }

    /// An equal path.
    pub fn copy(&self, alloc: Global) -> Result<Path, NoMemory>
        ensures { IfOk result (λ copy. copy ≡ self.now) }
    {
        let steps = self.as_slice().to_vec(alloc)?;
        Ok(Path { steps })
    }

    /// The steps, in order.
    pub fn as_slice(&self) -> &[PathStep]
        ensures value { result.now ≡ self.now }
        ensures begins { BeginsWithName self.now }
    {
        self.steps.as_slice()
    }
}
