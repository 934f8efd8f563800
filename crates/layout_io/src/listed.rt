// Calls that a fake lets fail, by their numbers.
ghost use Rattle.std.specs.Prelude.{◌↔◌, IsTrue, Contains};

/// Whether this call is among the listed ones.
pub(crate) fn is_listed(listed: &[u64], call: u64) -> bool
    ensures { IsTrue result ↔ Contains listed.now call }
{
    listed.contains(&call)
}
