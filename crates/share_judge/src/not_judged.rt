//! Why nothing was judged.

ghost use Rattle.std.specs.Prelude.{◌≡◌, Ok};

use system_keys::OutOfMemory;

/// Why nothing was judged, by a call that lets its caller keep the verdicts before they count. `E`
/// is the error of the caller's function, and `F` that function.
#[derive(Debug, Drop)]
pub enum NotJudged<E, F> {
    /// An allocation failed before the caller's function was called. This is that function.
    OutOfMemory(F),
    /// The caller could not keep the verdicts, for this reason.
    NotKept(E),
}

impl<E: Copy, F: Copy> NotJudged<E, F> {
    /// Returns a copy. Never fails.
    pub fn copy(&self) -> Result<NotJudged<E, F>, OutOfMemory>
        ensures { result ≡ Ok self.now }
    {
        match self {
            NotJudged::OutOfMemory(back) => Ok(NotJudged::OutOfMemory(*back)),
            NotJudged::NotKept(reason) => Ok(NotJudged::NotKept(*reason)),
        }
    }
}
