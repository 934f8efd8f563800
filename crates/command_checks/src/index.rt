// Tables of names.
ghost use Rattle.std.specs.Prelude.{◌≡◌, ℕ, List, Some, None, IfOk, IfErr, cond};
ghost use Rattle.command_checks.specs.Imports.{option_or, same_name};
ghost use Rattle.command_checks.specs.Inner.Indexed.{place_in};

use crate::fault::StepFault;
use record_dim::Name;
use std::collections::BTreeMap;

/// The place of a name.
pub(crate) fn place_of(places: &BTreeMap<Name, usize>, name: Name) -> Option<usize>
    ensures { result ≡ place_in places.now name }
{
    places.get(&name).copied()
}

/// The same table with a place for one name more. A name that has a place keeps it.
pub(crate) fn with_place(
    mut places: BTreeMap<Name, usize>,
    name: Name,
    place: usize,
) -> Result<BTreeMap<Name, usize>, StepFault>
    ensures first { IfOk result (λ next. (other : List ℕ) → place_in next other
        ≡ option_or (place_in places other) (cond (same_name name other) (Some place) None)) }
    ensures starved { IfErr result (λ fault. fault ≡ StepFault.NoMemory) }
{
    match place_of(&places, name) {
        Some(_) => Ok(places),
        None => {
            places.insert(name, place)?;
            Ok(places)
        }
    }
}
