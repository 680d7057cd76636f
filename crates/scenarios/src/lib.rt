//! Scenarios: small clusters and what happens in them, each with all its answers. They compute, and
//! so show what the definitions of `model` say.
#![tactic(auto)]

mod stories;

pub use stories::{
    clear_scenarios, fold_scenarios, lock_scenarios, memory_scenarios, owner_scenarios,
    private_scenarios, proxy_scenarios, refusal_scenarios, resolver_scenarios, stamp_scenarios,
    verdict_scenarios,
};
