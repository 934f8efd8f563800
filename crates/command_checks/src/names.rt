// Names that are taken, and names that stand for something.
ghost use Rattle.std.specs.Prelude.{◌≡◌, IfOk, IfErr, is_some, map};
ghost use Rattle.command_checks.specs.Imports.{position_from, schema_fields, same_name, known, free, refused_if};
ghost use Rattle.command_checks.specs.Inner.Places.{IsAt};
ghost use Rattle.command_checks.specs.SessionEntries.{record_of, view_of};
ghost use Rattle.command_checks.specs.Inner.Gives.{Gives, GivesUp};

use crate::entries::ViewEntry;
use crate::entry_list::RecordList;
use crate::fault::StepFault;
use record_dim::{Name, Schema};
use worlds::{CommandFault, UnknownName};

/// The schema of the record of this name.
pub fn schema_of(records: &RecordList, name: Name) -> Result<&Schema, StepFault>
    ensures { Gives (λ schema. schema_fields schema.now) result (known name (map record_of records.now)) }
{
    Ok(&records.known(name)?.schema)
}

/// That no view has the name already.
pub fn free_view(views: &[ViewEntry], name: Name) -> Result<(), StepFault>
    ensures { Gives (λ done. tt) result (free name (map view_of views.now)) }
{
    untaken(view_place(views, name), name)
}

/// The place of the view of this name.
pub fn known_view(views: &[ViewEntry], name: Name) -> Result<usize, StepFault>
    ensures at { IfOk result (IsAt view_of name views.now) }
    ensures unknown { IfErr result (GivesUp (known name (map view_of views.now))) }
{
    match view_place(views, name) {
        Some(place) => Ok(place),
        None => Err(unknown(name)),
    }
}

fn view_place(views: &[ViewEntry], name: Name) -> Option<usize>
    ensures { result ≡ position_from (λ entry. same_name entry.name name) 0 views.now }
{
    views.iter().position(|entry| entry.name == name)
}

/// That a name has no place yet.
pub(crate) fn untaken(place: Option<usize>, name: Name) -> Result<(), StepFault>
    ensures { Gives (λ done. tt) result (refused_if (is_some place) (CommandFault.Taken name)) }
{
    match place {
        Some(_) => Err(StepFault::Command(CommandFault::Taken(name))),
        None => Ok(()),
    }
}

/// The refusal of a name that stands for nothing.
pub(crate) fn unknown(name: Name) -> StepFault
    ensures { result ≡ StepFault.Command (CommandFault.Unknown (UnknownName.Name name)) }
{
    StepFault::Command(CommandFault::Unknown(UnknownName::Name(name)))
}
