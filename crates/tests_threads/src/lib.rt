//! The tests of facts and agreed_ledger, by their public calls.
#![tactic(auto)]

#[cfg(test)]
mod tests;
