//! The numbers that configure a cluster: proxies, resolvers, window and step.
//!
//! *Profile*: all of it. Release 7.1 sets these numbers by knobs and by its configuration.

ghost use Rattle.std.specs.Prelude.{◌≡◌, MatchResult};
ghost use Rattle.model.specs.Configs.{Config as Numbers, IsConfig, is_from_one_to};
ghost use Rattle.model.specs.declared.refusal.Refusal.TheVariants as refusals;

use crate::refusal::Refusal;
use std::marker::Model;
use system_keys::OutOfMemory;

/// The most proxies of a cluster.
const PROXIES_LIMIT: u64 = 64;

/// The most resolvers of a cluster.
pub const RESOLVERS_LIMIT: u64 = 64;

/// The greatest window of a cluster.
const WINDOW_LIMIT: u64 = 1_000_000_000;

/// Each version is below this limit.
pub const VERSION_LIMIT: u64 = 1 << 63;

/// The greatest step from one version to the next: that from version 0 to the greatest version.
const STEP_LIMIT: u64 = VERSION_LIMIT - 1;

/// The numbers of a cluster, each within its limits: how many proxies and resolvers it has, how
/// many versions back a snapshot may lie, and how many versions lie between batches.
#[derive(Clone, Copy, Debug, PartialEq, Eq)]
pub struct Config {
    proxies: usize,
    resolvers: usize,
    window: u64,
    step: u64,
}

impl Model for Config {
    ghost use Rattle.std.specs.Prelude.{◌≡◌, true};
    ghost use Rattle.model.specs.Configs.{Config as Numbers, is_config};

    ghost Value = { Numbers };

    ghost view = { λ c. record {
      proxies = c.proxies;
      resolvers = c.resolvers;
      window = c.window;
      step = c.step;
    } };

    ghost invariant = { λ c. is_config (record {
      proxies = c.proxies;
      resolvers = c.resolvers;
      window = c.window;
      step = c.step;
    }) ≡ true };

    ghost inverse = { λ numbers. record {
      proxies = numbers.proxies;
      resolvers = numbers.resolvers;
      window = numbers.window;
      step = numbers.step;
    } };
}

impl Config {
    /// Takes 1 to 64 proxies, 1 to 64 resolvers, a window from 1 to 1,000,000,000, and a step from
    /// 1 to 9,223,372,036,854,775,807. Otherwise it returns `BadConfig`. It allocates no memory.
    pub fn new(proxies: usize, resolvers: usize, window: u64, step: u64) -> Result<Config, Refusal>
        ensures { let numbers : Numbers = record {
          proxies = proxies;
          resolvers = resolvers;
          window = window;
          step = step;
        } in
            MatchResult result
            (λ config. IsConfig numbers × (config ≡ numbers))
            (λ refusal. (IsConfig numbers → ⊥) × (refusal ≡ refusals.BadConfig)) }
    {
        if is_from_one_to(PROXIES_LIMIT, proxies as u64)
            && is_from_one_to(RESOLVERS_LIMIT, resolvers as u64)
            && is_from_one_to(WINDOW_LIMIT, window)
            && is_from_one_to(STEP_LIMIT, step)
        {
            Ok(Config {
                proxies,
                resolvers,
                window,
                step,
            })
        } else {
            Err(Refusal::BadConfig)
        }
    }

    /// The number of commit proxies, from 1 to 64.
    pub fn proxies(&self) -> usize
        ensures value { result ≡ self.now.proxies }
        ensures limits { IsConfig self.now }
    {
        self.proxies
    }

    /// The number of resolvers, from 1 to 64.
    pub fn resolvers(&self) -> usize
        ensures value { result ≡ self.now.resolvers }
        ensures limits { IsConfig self.now }
    {
        self.resolvers
    }

    /// How many versions a snapshot may lie before the version of its batch: 1 to 1,000,000,000.
    pub fn window(&self) -> u64
        ensures value { result ≡ self.now.window }
        ensures limits { IsConfig self.now }
    {
        self.window
    }

    /// How many versions lie from one batch to the next: 1 to 9,223,372,036,854,775,807.
    pub fn step(&self) -> u64
        ensures value { result ≡ self.now.step }
        ensures limits { IsConfig self.now }
    {
        self.step
    }

    /// Returns a copy. It allocates no memory and never fails.
    pub fn copy(&self) -> Result<Config, OutOfMemory>
        ensures { result ≡ Ok self.now }
    {
        Ok(*self)
    }
}

/// Returns whether the number is from 1 up to the limit.
pub fn is_from_one_to(limit: u64, number: u64) -> bool
    ensures { result ≡ is_from_one_to limit number }
{
    1 <= number && number <= limit
}
