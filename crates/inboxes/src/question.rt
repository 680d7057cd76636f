//! The trait of what a request message holds: the request and where its answer goes.

/// What a message holds that asks a resolver something: a request, and where its answer goes.
/// Contracts see of it the number of the resolver that it is to, and the row of its record.
pub trait Question: Drop {
    ghost use Rattle.std.specs.Prelude.{ℕ};

    ghost resolver_of: { Self → ℕ };

    ghost row_of: { Self → ℕ };
}
