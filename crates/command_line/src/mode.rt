//! The modes of the program, by their names.
ghost use Rattle.std.specs.Prelude.{◌≡◌};
ghost use Rattle.command_line.specs.Modes.{mode_named};

/// What a run of the program does.
#[derive(Clone, Copy, Debug, PartialEq, Eq)]
pub enum Mode {
    /// Folds the journal rows of a script into metadata.
    Fold,
    /// Carries out the events of a script in a cluster without threads.
    Turns,
    /// Commits the batches of a script, those of each proxy in a thread of its own.
    Threads,
}

/// The names of the modes, as the command line takes them.
pub static NAMES: [&str; 3] = ["fold", "turns", "threads"];

impl Mode {
    /// The mode of this name.
    pub fn from_name(name: &str) -> Option<Mode>
        ensures { result ≡ mode_named name.now }
    {
        match name {
            "fold" => Some(Mode::Fold),
            "turns" => Some(Mode::Turns),
            "threads" => Some(Mode::Threads),
            _ => None,
        }
    }
}
