//! The lines of each proxy at the end of a script: its version, and what its metadata says.

ghost use Rattle.std.specs.Prelude.{◌≡◌, ◌++◌, OnOk, string_bytes};
ghost use Rattle.model.specs.Metadata.{metadata as metadata_of};
ghost use Rattle.cluster_lines.specs.MetadataLines.{metadata_text, proxy_line};
ghost use Rattle.turns_run.specs.Text.{proxies_text};

use cluster_lines::print_proxy_metadata;
use model::Config;
use std::alloc::Global;
use system_keys::{Bytes, OutOfMemory};
use turn_world::{Proxy, TurnWorld};

/// Prints each proxy of the cluster, in order: its number, its routing, and the tags of the asked
/// keys. Fails only with `OutOfMemory`.
pub fn print_proxies(
    alloc: Global,
    text: &mut String,
    config: &Config,
    world: &TurnWorld,
    keys: &[Bytes],
) -> Result<(), OutOfMemory>
    requires { world.now.config ≡ config.now }
    ensures { OnOk result (string_bytes text.new
        ≡ string_bytes text.old ++ proxies_text config.now world.now.world keys.now) }
{
    for number in 0..config.proxies() {
        // The cluster has a proxy of each of these numbers.
        let Some(proxy) = world.proxy(number) else {
            unreachable!()
        };
        print_proxy(alloc, text, number, proxy, keys)?;
    }
    Ok(())
}

/// Prints one proxy: its number, its routing, and the tags of the asked keys. Fails only with
/// `OutOfMemory`.
pub fn print_proxy(
    alloc: Global,
    text: &mut String,
    number: usize,
    proxy: &Proxy,
    keys: &[Bytes],
) -> Result<(), OutOfMemory>
    ensures { OnOk result (string_bytes text.new
        ≡ string_bytes text.old ++ (proxy_line number
        ++ metadata_text proxy.now.version (metadata_of proxy.now.journal) keys.now)) }
{
    print_proxy_metadata(alloc, text, number, proxy.version(), proxy.metadata(), keys)
}
