//! How a run of a script ends.
ghost use Rattle.std.specs.Prelude.{◌≡◌};
ghost use Rattle.scripts.specs.Statuses.{run_status_number};

/// How a run of a script ended (this project's profile).
#[derive(Clone, Copy, Debug, PartialEq, Eq)]
pub enum RunStatus {
    /// The script was carried out, and its result was written.
    Done,
    /// The script was refused, and the refusal was written.
    ScriptRefused,
    /// A read or a write failed, or the limit on read calls was passed.
    DeviceFailed,
    /// An allocation failed.
    OutOfMemory,
    /// The cluster refused a call, and not because an allocation failed; or a worker was cut off; or what
    /// a run of threads found does not fit together, which no run is known to find. Nothing was written.
    ClusterRefused,
}

impl RunStatus {
    /// The number that the process ends with.
    pub fn number(self) -> u8
        ensures { result ≡ run_status_number self }
    {
        match self {
            RunStatus::Done => 0,
            RunStatus::ScriptRefused => 1,
            RunStatus::DeviceFailed => 3,
            RunStatus::OutOfMemory => 4,
            RunStatus::ClusterRefused => 5,
        }
    }
}
