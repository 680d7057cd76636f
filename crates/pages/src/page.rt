//! The trait of what text is printed to.
ghost use Rattle.std.specs.Prelude.{ℕ, List};
ghost use Rattle.pages.specs.Printing.{Prints};

/// What text is printed to.
pub trait Page {
    /// What a page was when printing on it began.
    ghost Beginning: { Type 0 };

    /// Since this beginning the text was printed.
    ghost has_printed: { Self → Self.Beginning → List ℕ → Type 0 };

    /// Prints a text after what was printed.
    fn push(&mut self, text: &str)
        ensures { Prints has_printed self.old self.new text.now };
}
