//! The parameter that stands for the channels of all inboxes of a run.

use std::marker::Brand;

/// The channels of the inboxes of one run, by the numbers of their resolvers. Each run of a program
/// picks them once, so that types tell that two ends are of one set of inboxes.
pub trait Channels {
    ghost use Rattle.std.specs.Prelude.{List};
    ghost use Rattle.inboxes.specs.Places.{Place};

    ghost places: { List Place };
}

impl Channels for Brand {
    ghost use Rattle.std.specs.Prelude.{[]};

    ghost places = { [] };
}
