// What entries have in common.
ghost use Rattle.std.specs.Prelude.{◌≡◌};
ghost use Rattle.command_checks.specs.Imports.{MapTerm, Fields, Entry};
ghost use Rattle.command_checks.specs.SessionEntries.{record_of, mapping_of};

use crate::entries::RecordEntry;
use crate::mapping_entry::MappingEntry;
use record_dim::Name;

/// An entry of a session.
pub trait NamedEntry {
    // What it is in a world.
    ghost Held: { Type 0 };

    ghost entry_of: { Self → Entry Held };

    /// Its name.
    fn name(&self) -> Name
        ensures { result ≡ (entry_of self.now).name };
}

impl NamedEntry for RecordEntry {
    ghost Held = { Fields };

    ghost entry_of = { record_of };

    fn name(&self) -> Name {
        self.name
    }
}

impl NamedEntry for MappingEntry {
    ghost Held = { MapTerm };

    ghost entry_of = { mapping_of };

    fn name(&self) -> Name {
        self.name
    }
}
