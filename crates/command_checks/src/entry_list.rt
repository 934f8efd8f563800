// Lists of named entries.
ghost use Rattle.std.specs.Prelude.{◌≡◌, ◌++◌, ◌∷◌, [], IfOk, IfErr, map};
ghost use Rattle.command_checks.specs.Imports.{position_from, same_name, known, free};
ghost use Rattle.command_checks.specs.Inner.Gives.{Gives};

use crate::entries::RecordEntry;
use crate::fault::StepFault;
use crate::index::{place_of, with_place};
use crate::mapping_entry::MappingEntry;
use crate::named_entry::NamedEntry;
use crate::names::{unknown, untaken};
use record_dim::Name;
use std::alloc::Global;
use std::collections::BTreeMap;
use std::marker::Model;

/// Entries in the order in which they were named, beside a table of their names. Contracts see the list of the entries.
#[derive(Drop)]
pub struct EntryList<T: NamedEntry> {
    pub entries: Vec<T>,
    pub places: BTreeMap<Name, usize>,
}

/// The records of a session.
pub type RecordList = EntryList<RecordEntry>;

/// The mappings of a session.
pub type MappingList = EntryList<MappingEntry>;

impl<T: NamedEntry> Model for EntryList<T> {
    ghost use Rattle.std.specs.Prelude.{List};
    ghost use Rattle.command_checks.specs.Inner.Indexed.{IsIndex};

    ghost Value = { List T };

    ghost view = { λ list. list.entries.items };

    ghost invariant = { λ list. IsIndex T.entry_of list.entries.items list.places };
}

impl<T: NamedEntry + Drop> EntryList<T> {
    /// No entry.
    pub fn new(alloc: Global) -> EntryList<T>
        ensures { result ≡ [] }
    {
        EntryList {
            entries: Vec::new(alloc),
            places: BTreeMap::new(alloc),
        }
    }

    /// One entry more, behind the others.
    pub fn with(self, entry: T) -> Result<EntryList<T>, StepFault>
        ensures added { IfOk result (λ list. list ≡ self ++ entry ∷ []) }
        ensures starved { IfErr result (λ fault. fault ≡ StepFault.NoMemory) }
    {
        let EntryList {
            mut entries,
            places,
        } = self;
        let places = with_place(places, entry.name(), entries.len())?;
        entries.push(entry)?;
        Ok(EntryList { entries, places })
    }

    /// That no entry has the name already.
    pub fn free(&self, name: Name) -> Result<(), StepFault>
        ensures { Gives (λ done. tt) result (free name (map T.entry_of self.now)) }
    {
        untaken(self.place_of(name), name)
    }

    /// The entry of this name.
    pub fn known(&self, name: Name) -> Result<&T, StepFault>
        ensures { Gives (λ entry. (T.entry_of entry.now).held) result (known name (map T.entry_of self.now)) }
    {
        match self.place_of(name) {
            Some(place) => Ok(&self.entries[place]),
            None => Err(unknown(name)),
        }
    }

    // Where the first entry of a name stands.
    fn place_of(&self, name: Name) -> Option<usize>
        ensures { result ≡ position_from (λ entry. same_name (T.entry_of entry).name name) 0 self.now }
    {
        place_of(&self.places, name)
    }
}
