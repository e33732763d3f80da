/// How far a command went in one phase of a step.
#[derive(Clone, Copy, Debug, PartialEq, Eq, Drop)]
pub enum Progress {
    /// The phase is over, and the step goes on.
    Done,
    /// It waits, until that moment at the latest, in microseconds.
    Wait { until: u64 },
    /// It leases a session at its next step: the id of this step's words was used before.
    Again,
}
