ghost use Rattle.std.specs.Prelude.{◌≡◌};
ghost use Rattle.po_app.specs.Exit.{exit_code};

/// How a command ended. The numbers are the exit statuses of the program.
#[derive(Clone, Copy, Debug, PartialEq, Eq)]
pub enum Status {
    /// The report was written, and no obligation is open.
    Clean = 0,
    /// The report was written, and an obligation is open.
    Open = 1,
    /// The words are no command.
    Usage = 2,
    /// The file isn't served.
    Refused = 3,
    /// The file could not be read.
    ReadFault = 4,
    /// The text could not be written whole.
    WriteFault = 5,
    /// Memory was wanting.
    NoMemory = 6,
}

impl Status {
    /// The exit status of the program.
    pub fn code(self) -> u8
        ensures { result ≡ exit_code self }
    {
        self as u8
    }
}
