//! How the program ends.
ghost use Rattle.std.specs.Prelude.{◌≡◌};
ghost use Rattle.command_line.specs.Statuses.{status_number};

use scripts::RunStatus;

/// How the program ended (this project's profile).
#[derive(Debug, Drop)]
pub enum Status {
    /// A run ended so, or an allocation failed before it began (`OutOfMemory`).
    Ran(RunStatus),
    /// The command line was refused, or asked for help: the text for standard error.
    CommandLineRefused(String),
}

impl Status {
    /// The number that the process ends with.
    pub fn number(&self) -> u8
        ensures { result ≡ status_number self.now }
    {
        match self {
            Status::Ran(status) => status.number(),
            Status::CommandLineRefused(_) => 2,
        }
    }
}
