//! Tests of cells that are set once, with threads and without. A tested call that allocates is made
//! again after a failed allocation; a test ends with that error if an allocation for its own data fails.

mod of_agreed_ledger;
mod of_facts;
