// A law of what is printed and loaded.
ghost use Rattle.std.specs.Prelude.{◌≡◌, Ok, length};
ghost use Rattle.record_dim.specs.Prelude.{schema_fields, texts_of};
ghost use Rattle.views.specs.Prelude.{leaf_types_of, table_holds, AllStay};
ghost use Rattle.csv_rows.specs.Datasets.{csv_records};
ghost use Rattle.csv_rows.specs.Loads.{dataset_of};
ghost use Rattle.csv_rows.specs.Texts.{print_text};

use views::{View, laws_of_table};

/// What `print_rows` writes of a view is a dataset, and its table is that of the view, for each view of the same schema that can hold all its
/// values: a strict one in which they fit, or one that keeps of each the value itself. It changes nothing.
pub fn printed_loads(_printed: &View, _loaded: &View)
    requires schema { _loaded.now.fields ≡ _printed.now.fields }
    requires stay { AllStay _loaded.now.mode (length _printed.now.rows) (leaf_types_of _loaded.now) (table_holds _loaded.now) _printed.now.rows }
    ensures { dataset_of _loaded.now (csv_records (print_text (texts_of _printed.now.fields) _printed.now.rows)) ≡ Ok _printed.now.rows }
{
    laws_of_table(_loaded);
    let _some = _printed.schema().leaf_count();
}
