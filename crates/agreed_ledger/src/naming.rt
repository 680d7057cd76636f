//! The parameter that stands for the cells of a ledger.

use std::marker::Brand;

/// The cells of one ledger, and its configuration. Each run of a program picks them once.
pub trait Naming {
    ghost use Rattle.agreed_ledger.specs.Cells.{Cells};

    ghost cells: { Cells };
}

impl Naming for Brand {
    ghost use Rattle.std.specs.Prelude.{[]};

    ghost cells = { record {
      records = [];
      verdicts = [];
      config = record { proxies = 1; resolvers = 1; window = 1; step = 1 };
    } };
}
