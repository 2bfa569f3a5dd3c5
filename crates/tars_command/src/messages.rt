//! What standard error tells of a run.

ghost use Rattle.std.specs.Prelude.{◌≡◌, option_copied};
ghost use Rattle.tars_command.specs.Messages.{error_line_of};

use tars_base::Status;

/// The line that goes to standard error at the end of a run, without its end.
pub fn error_line(status: Status) -> Option<&'static str>
    ensures { option_copied result ≡ error_line_of status }
{
    match status {
        Status::Usage => Some("usage: check encode decode compat plan made drill serve call"),
        other => other.message(),
    }
}
