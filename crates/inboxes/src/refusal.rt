//! Why an end of an inbox is refused.

ghost use Rattle.std.specs.Prelude.{◌≡◌};
ghost use Rattle.inboxes.specs.Refusals.{refusal_name, refusal_number};

/// Why a call is refused (this project's profile). The number and the name stand in printed text.
#[derive(Clone, Copy, Debug, PartialEq, Eq)]
pub enum Refusal {
    /// The sender is to another resolver.
    NotSender,
}

impl Refusal {
    /// The number that is printed.
    pub fn number(&self) -> u32
        ensures { result ≡ refusal_number self.now }
    {
        match self {
            Refusal::NotSender => 61,
        }
    }

    /// The name that is printed beside the number.
    pub fn name(&self) -> &'static str
        ensures { result.now ≡ refusal_name self.now }
    {
        match self {
            Refusal::NotSender => "NotSender",
        }
    }
}
