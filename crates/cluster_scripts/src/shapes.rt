//! The numbers of a cluster, and moves, from JSON values.

ghost use Rattle.serde_json.specs.View.{view};
ghost use Rattle.scripts.specs.ScriptFaults.{IsReadAs};
ghost use Rattle.scripts.specs.Shapes.{or_bad_shape};
ghost use Rattle.cluster_scripts.specs.Shapes.{config_shape, move_shape};

use crate::given_move::GivenMove;
use model::Config;
use scripts::{ScriptFault, Shaped, field, has_fields};
use serde_json::Value;
use std::alloc::Global;

/// The numbers of the cluster, from four fields of a script. Fails with `BadShape` if one is not
/// there, or is outside its limits (this project's profile).
#[tactic(auto, using(crate::proofs::ConfigLemmas::within_limits, crate::proofs::ConfigLemmas::outside_limits))]
pub fn config(alloc: Global, value: &Value) -> Result<Config, ScriptFault>
    ensures { IsReadAs (λ found. found) result (or_bad_shape (config_shape (view value.now))) }
{
    let proxies = field(alloc, value, "proxies")?;
    let resolvers = field(alloc, value, "resolvers")?;
    let window = field(alloc, value, "window")?;
    let step = field(alloc, value, "step")?;
    match Config::new(proxies, resolvers, window, step) {
        Ok(config) => Ok(config),
        Err(_) => Err(ScriptFault::BadShape),
    }
}

impl Shaped for GivenMove {
    ghost shape = { move_shape };

    fn from_value(alloc: Global, value: &Value) -> Result<GivenMove, ScriptFault> {
        if !has_fields(value, 2) {
            return Err(ScriptFault::BadShape);
        }
        Ok(GivenMove {
            range: field(alloc, value, "range")?,
            dest: field(alloc, value, "resolver")?,
        })
    }
}
