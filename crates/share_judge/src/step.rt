//! A step: the version from a key on, now and before the share that is judged.

ghost use Rattle.std.specs.Prelude.{◌≡◌};
ghost use Rattle.share_judge.specs.Steps.{version_before};

use model::Version;

/// The version from a start on, and the one that it took the place of.
#[derive(Clone, Copy, Debug)]
pub(crate) struct Step {
    pub(crate) version: Version,
    /// The version before the share of `version`. It says nothing of other shares.
    pub(crate) before: Version,
}

/// There is no version.
pub(crate) const NO_STEP: Step = Step {
    version: 0,
    before: 0,
};

impl Step {
    /// The step once the share of this version is written over it.
    pub(crate) fn over(self, share: Version) -> Step
        ensures version { result.version ≡ share }
        ensures before { result.before ≡ version_before share self }
    {
        Step {
            version: share,
            before: self.version_before(share),
        }
    }

    /// The version before the share of this version.
    pub(crate) fn version_before(self, share: Version) -> Version
        ensures { result ≡ version_before share self }
    {
        if self.version == share {
            self.before
        } else {
            self.version
        }
    }
}
