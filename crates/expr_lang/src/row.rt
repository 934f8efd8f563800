ghost use Rattle.std.specs.Prelude.{◌≡◌, ℕ, ◌<◌, ℤ, pos, List, length};
ghost use Rattle.std.specs.List.{slice_index_or};

use record_dim::Steps;
use std::sync::ledger::Ledger;

/// A row whose leaves are read one at a time. It means a list of numbers, one for each leaf, and a state, which a read may
/// change: the counts of accesses, say.
pub trait Row {
    ghost State: { Type 0 };

    ghost numbers: { Self → List ℤ };

    ghost state: { Self → State };

    // the state after one read of this leaf
    ghost after: { State → ℕ → State };

    /// The entry of a leaf.
    fn read<L: Ledger>(&mut self, leaf: usize, steps: &mut Steps<L>) -> i128
        requires { leaf < length (numbers self.old) }
        ensures value { result ≡ slice_index_or (numbers self.old) leaf (pos 0) }
        ensures numbers { numbers self.new ≡ numbers self.old }
        ensures state { state self.new ≡ after (state self.old) leaf };
}
