//! The whole text of a turns script: the lines of its events, and then those of its proxies.

ghost use Rattle.std.specs.Prelude.{◌≡◌, ◌++◌, IfSome, OnOk, string_bytes};
ghost use Rattle.turns_run.specs.CarryingOut.{IsTextOf};
ghost use Rattle.turns_run.specs.Text.{printed_text, proxies_text};

use crate::carried_out::CarriedOut;
use crate::event_lines::carry_out_events;
use crate::proxies::print_proxies;
use crate::script::TurnsScript;
use crate::turns_fields::TurnsFields;
use model::Config;
use script_tokens::Tokens;
use scripts::{MadeOfTokens, take_object};
use std::alloc::Global;
use system_keys::{Bytes, Items, OutOfMemory};
use turn_world::TurnWorld;

/// Prints the text of a turns script (this project's profile): the lines of its events, carried
/// out one after another, and then those of each proxy. Fails only with `OutOfMemory`.
pub(crate) fn print_turns(
    alloc: Global,
    text: &mut String,
    script: TurnsScript,
) -> Result<(), OutOfMemory>
    ensures { OnOk result (string_bytes text.new
        ≡ string_bytes text.old ++ printed_text script) }
{
    let mut world = TurnWorld::new(alloc, &script.config)?;
    carry_out_events(text, script.events, &mut world)?;
    print_proxies(alloc, text, &script.config, &world, script.ask.as_slice())
}

/// What is made to print a turns script while its tokens are read.
#[derive(Drop)]
pub struct TurnsLeftover {
    world: TurnWorld,
    ask: Items<Bytes>,
}

/// The text of a turns script, printed while its tokens are read.
#[derive(Drop)]
pub(crate) struct TurnsText {
    /// The lines of its events, and then those of its proxies.
    pub(crate) text: String,
    /// What was made to print it.
    pub(crate) leftover: TurnsLeftover,
}

impl MadeOfTokens for TurnsText {
    ghost is_made_of = { λ made d. IsTextOf d made };

    // Where the numbers of the cluster come after the events, it decides nothing.
    fn make(alloc: Global, reader: &mut Tokens<'_>, depth: usize) -> Option<TurnsText> {
        let fields: TurnsFields<CarriedOut> = take_object(alloc, reader, depth)?;
        let config = fields.config()?;
        let (carried_out, ask) = (fields.events?, fields.ask?);
        end_turns_text(alloc, &config, carried_out, ask)
    }
}

/// The whole text, where a cluster with these numbers carried the events out.
fn end_turns_text(
    alloc: Global,
    config: &Config,
    carried_out: CarriedOut,
    ask: Items<Bytes>,
) -> Option<TurnsText>
    ensures { IfSome result (λ made. (carried_out.world.config ≡ config.now)
        × (string_bytes made.text ≡ string_bytes carried_out.text
        ++ proxies_text config.now carried_out.world.world ask)) }
{
    let CarriedOut { mut text, world } = carried_out;
    if *world.config() != *config {
        return None;
    }
    match print_proxies(alloc, &mut text, config, &world, ask.as_slice()) {
        Ok(()) => Some(TurnsText {
            text,
            leftover: TurnsLeftover { world, ask },
        }),
        Err(_) => None,
    }
}
