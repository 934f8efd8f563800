// What calls by lines have in common with scripts.
ghost use Rattle.c_lines.specs.Agreement.{TablesAgree, TablesLeaveRoom};

/// The laws of calls by lines. This function does nothing: its contract is the laws.
///
/// A view of two lines, a view of a dataset, a new layout, a kernel and a copy are by their definitions what the commands of these lines make, and
/// are refused where the command is, for the same cause, and in the same row and leaf; but a call makes a table beside no other one, and a script
/// beside all of its views. That is the same where these leave room for the largest table, as each table does.
pub fn lines_agree()
    ensures room { TablesLeaveRoom }
    ensures table { TablesAgree }
{}
