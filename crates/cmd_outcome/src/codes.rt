ghost use Rattle.std.specs.Prelude.{◌≡◌};
ghost use Rattle.cmd_outcome.specs.Codes.{NOT_WRITABLE, RECOVERING, SHUTTING_DOWN, is_one_of, state_change_of};

use crate::StateChange;

/// A write was sent to a member that is not the primary (SDAM, "not writable primary").
pub const NOT_WRITABLE_PRIMARY: i32 = 10107;
/// A read that wants a primary was sent to another member (SDAM, "not writable primary").
pub const NOT_PRIMARY_NO_SECONDARY_OK: i32 = 13435;
/// What servers before 4.2 said for the two above (SDAM, "not writable primary").
pub const LEGACY_NOT_PRIMARY: i32 = 10058;
/// The server shut down while the command ran (SDAM, "node is recovering").
pub const INTERRUPTED_AT_SHUTDOWN: i32 = 11600;
/// The server's role changed while the command ran (SDAM, "node is recovering").
pub const INTERRUPTED_DUE_TO_REPL_STATE_CHANGE: i32 = 11602;
/// The member is neither primary nor secondary now (SDAM, "node is recovering").
pub const NOT_PRIMARY_OR_SECONDARY: i32 = 13436;
/// The primary stepped down while the command ran (SDAM, "node is recovering").
pub const PRIMARY_STEPPED_DOWN: i32 = 189;
/// The server is shutting down (SDAM, "node is recovering").
pub const SHUTDOWN_IN_PROGRESS: i32 = 91;

/// The label of an error after which a write may be sent once more (Retryable Writes).
pub const RETRYABLE_WRITE_ERROR: &str = "RetryableWriteError";
/// The label of an error that says that nothing was written (Retryable Writes).
pub const NO_WRITES_PERFORMED: &str = "NoWritesPerformed";

/// What an error's code says of the server's state, None where it is no state change error (SDAM, Error handling).
pub fn state_change(code: i32) -> Option<StateChange>
    ensures change { result ≡ state_change_of code }
{
    if is_not_writable(code) || is_recovering(code) {
        Some(StateChange {
            code,
            shutdown: is_shutting_down(code),
        })
    } else {
        None
    }
}

fn is_not_writable(code: i32) -> bool
    ensures { result ≡ is_one_of NOT_WRITABLE code }
{
    code == NOT_WRITABLE_PRIMARY
        || code == NOT_PRIMARY_NO_SECONDARY_OK
        || code == LEGACY_NOT_PRIMARY
}

fn is_recovering(code: i32) -> bool
    ensures { result ≡ is_one_of RECOVERING code }
{
    code == INTERRUPTED_AT_SHUTDOWN
        || code == INTERRUPTED_DUE_TO_REPL_STATE_CHANGE
        || code == NOT_PRIMARY_OR_SECONDARY
        || code == PRIMARY_STEPPED_DOWN
        || code == SHUTDOWN_IN_PROGRESS
}

fn is_shutting_down(code: i32) -> bool
    ensures { result ≡ is_one_of SHUTTING_DOWN code }
{
    code == INTERRUPTED_AT_SHUTDOWN || code == SHUTDOWN_IN_PROGRESS
}
