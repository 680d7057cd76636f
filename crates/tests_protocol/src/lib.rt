//! The tests of dated_owners, request_builder, share_judge, state_memory, metadata, proxy_state and
//! turn_world, by their public calls.
#![tactic(auto)]

#[cfg(test)]
mod tests;
