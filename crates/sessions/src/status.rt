//! How a session ends.
ghost use Rattle.std.specs.Prelude.{◌≡◌};
ghost use Rattle.sessions.specs.Statuses.{session_status_number};

/// How a session ended (this project's profile).
#[derive(Clone, Copy, Debug, PartialEq, Eq)]
pub enum SessionStatus {
    /// The input ended, and each line was answered.
    Done,
    /// A read failed; each line before it was answered.
    ReadFailed,
    /// A write failed.
    WriteFailed,
    /// The input did not end within 2^64 - 1 reads.
    Unended,
}

impl SessionStatus {
    /// The number that the process ends with.
    pub fn number(self) -> u8
        ensures { result ≡ session_status_number self }
    {
        match self {
            SessionStatus::Done => 0,
            SessionStatus::ReadFailed | SessionStatus::WriteFailed | SessionStatus::Unended => 3,
        }
    }
}
