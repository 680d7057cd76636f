//! The tests of system_keys, model, mutation, script_tokens, scripts and fold_run, by their public calls.
#![tactic(auto)]

#[cfg(test)]
mod tests;
