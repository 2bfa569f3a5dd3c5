ghost use Rattle.std.specs.Prelude.{◌≡◌, option_copied};
ghost use Rattle.tars_base.specs.Status.{number_of, message_of};

/// How a run of the program ended.
#[derive(Clone, Copy, Debug, PartialEq, Eq)]
pub enum Status {
    /// The command was carried out.
    Done,
    /// A text that was read whole is refused, and the refusal was written.
    Refused,
    /// The words of the command line are none of its forms.
    Usage,
    /// A file could not be read. Nothing was written.
    ReadFault,
    /// A prefix of the text was written, and no more could be.
    WriteFault,
    /// Memory ran out. Nothing was written.
    Memory,
    /// The net could not be listened on. Nothing was written.
    NetFault,
}

impl Status {
    /// The exit status of the process.
    pub fn number(self) -> u8
        ensures { result ≡ number_of self }
    {
        self as u8
    }

    /// The line that tells of a fault, without its end.
    pub fn message(self) -> Option<&'static str>
        ensures { option_copied result ≡ message_of self }
    {
        match self {
            Status::Done | Status::Refused | Status::Usage => None,
            Status::ReadFault => Some("read fault"),
            Status::WriteFault => Some("write fault"),
            Status::Memory => Some("no memory"),
            Status::NetFault => Some("net fault"),
        }
    }
}
