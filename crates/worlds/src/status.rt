/// How a run of the program ended.
#[derive(Clone, Copy, Debug, PartialEq, Eq)]
pub enum Status {
    /// The script was run to its end.
    Done,
    /// A command ended with a named fault, and its line was written.
    CommandFault,
    /// The words are not one of the known forms; the usage line was written.
    Usage,
    /// A file was not read; the line that says so was written.
    SourceFault,
    /// A write failed: a proper prefix of the output was taken.
    SinkFault,
    /// There was no memory: a prefix of the output was taken.
    NoMemory,
}

ghost use Rattle.std.specs.Prelude.{◌≡◌};
ghost use Rattle.worlds.specs.RunAnswers.{exit_number};

impl Status {
    /// The exit status of the program.
    pub fn number(self) -> u8
        ensures { result ≡ exit_number self }
    {
        match self {
            Status::Done => 0,
            Status::CommandFault => 1,
            Status::Usage => 2,
            Status::SourceFault => 3,
            Status::SinkFault => 4,
            Status::NoMemory => 5,
        }
    }
}
