//! How a program stops. Source: this project's own rules.

ghost use Rattle.std.specs.Prelude.{◌≡◌, ◌⊎◌, false};
ghost use Rattle.std.specs.Process.{exit_status};

use std::fmt;
use std::io::Write;
use std::process::ExitCode;

/// The exit status where the input or the output failed, standard error among them.
const STREAM_FAILED: u8 = 5;

/// Stops with this exit status, and with this line on standard error where there is one: with status 5 where that can't
/// be written.
pub fn stop<T: fmt::Display>(rt: &HostRuntime, status: u8, has_line: bool, line: &T) -> ExitCode
    ensures quiet { has_line ≡ false → exit_status result ≡ status }
    ensures told { (exit_status result ≡ status) ⊎ (exit_status result ≡ 5) }
{
    if has_line && writeln!(rt.stderr(), "{line}").is_err() {
        return ExitCode::from(STREAM_FAILED);
    }
    ExitCode::from(status)
}
