// Laws of views that are saved and opened. The functions do nothing: their contracts are the laws.
ghost use Rattle.saved_runs.specs.ReopenedRuns.{RunsReopen, RunsSavable};
ghost use Rattle.saved_runs.specs.SavedRuns.{OpenedSaves, SavedOpens};

use blob_file::{bits_law, opened_law, rows_law};
use schema_lang::line_law;

/// A view that is opened of a file saves as the bytes of the file, and the save changes nothing.
pub fn opened_saves()
    ensures { OpenedSaves }
{
    opened_law();
    rows_law();
}

/// What a savable table saves is opened, in each world that has room for it, as a table of the same record, extents, mode, mapping and
/// rows, to which each value was written once.
pub fn saved_opens()
    ensures { SavedOpens }
{
    opened_law();
    rows_law();
}

/// Each table to which a run over lines of the second version of the language comes can be said by a file.
pub fn runs_savable()
    ensures { RunsSavable }
{
    opened_law();
    rows_law();
    bits_law();
    line_law();
}

/// What a save writes in such a run is opened, in each world that has room for it, as the table that it saves.
pub fn runs_reopen()
    ensures { RunsReopen }
{
    saved_opens();
    runs_savable();
}
