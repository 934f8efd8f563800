// Laws of blob files. The functions do nothing: their contracts are the laws.
ghost use Rattle.std.specs.Prelude.{◌≡◌, ◌*◌, length, sum_by};
ghost use Rattle.blob_file.specs.Imports.{joined, owners_of};
ghost use Rattle.blob_file.specs.Saving.{blobs_of};
ghost use Rattle.blob_file.specs.Statements.{HoldsBits, HoldsRows, OneFile, OpensFiles, ReadsBack};

use line_writer::canonical_law;
use places::laws_of;
use schema_lang::{line_law, one_line_law};
use views::{View, laws_of_table};

/// No bytes are the files of two headers of schemas, extents and mappings without names, nor of one with two lists of blobs.
pub fn file_law()
    ensures { OneFile }
{}

/// What is opened of bytes is that of which they are the file, where a view can be made with its header.
pub fn opened_law()
    ensures { OpensFiles }
{
    canonical_law();
    one_line_law();
    line_law();
}

/// The blobs in which rows lie that a view of a header may hold stand for these rows.
pub fn rows_law()
    ensures { HoldsRows }
{}

/// A view of a header that a file can be opened with stores each leaf in a bit at least.
pub fn bits_law()
    ensures { HoldsBits }
{}

/// The bytes of the blobs of a view, one behind another, are read back as its rows.
pub fn body_law(view: &View)
    ensures sized { 8 * length (joined (blobs_of view.now)) ≡ sum_by length (owners_of view.now) }
    ensures back { ReadsBack view.now }
{
    laws_of(view.map());
    laws_of_table(view);
}
