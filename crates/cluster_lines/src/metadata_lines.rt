//! The lines that are printed of metadata at a version.

ghost use Rattle.std.specs.Prelude.{◌≡◌, ◌++◌, OnOk, flat_map, map, string_bytes};
ghost use Rattle.model.specs.Metadata.{key_servers_entries, route_of};
ghost use Rattle.pages.specs.Printing.{Prints};
ghost use Rattle.scripts.specs.Lines.{asked_line, asked_text, route_line};
ghost use Rattle.cluster_lines.specs.MetadataLines.{metadata_text, proxy_line};

use metadata::Metadata;
use model::{ProxyNumber, Version};
use pages::Page;
use scripts::{print_asked_key, print_route, print_routing_head, take_page};
use std::alloc::Global;
use std::fmt::Write;
use system_keys::{Bytes, METADATA_VERSION_KEY, OutOfMemory};

/// Prints the metadata of a proxy at a version: the number of the proxy, its routing, and the tags
/// of the asked keys. Fails only with `OutOfMemory`.
pub fn print_proxy_metadata(
    alloc: Global,
    text: &mut String,
    number: ProxyNumber,
    version: Version,
    metadata: &Metadata,
    keys: &[Bytes],
) -> Result<(), OutOfMemory>
    ensures { OnOk result (string_bytes text.new
        ≡ string_bytes text.old ++ (proxy_line number
        ++ metadata_text version metadata.now keys.now)) }
{
    writeln!(text, "proxy {number}")?;
    print_metadata(alloc, text, version, metadata, keys)
}

/// Prints metadata at a version: its routing, and the tags of the asked keys. Fails only with
/// `OutOfMemory`.
pub fn print_metadata(
    alloc: Global,
    text: &mut String,
    version: Version,
    metadata: &Metadata,
    keys: &[Bytes],
) -> Result<(), OutOfMemory>
    ensures { OnOk result (string_bytes text.new
        ≡ string_bytes text.old ++ metadata_text version metadata.now keys.now) }
{
    let mut page = take_page(alloc, text);
    let metadata_version = metadata.row(METADATA_VERSION_KEY);
    print_routing_head(&mut page, version, metadata.is_locked(), metadata_version);
    print_routes(alloc, &mut page, metadata)?;
    print_asked_keys(&mut page, metadata, keys)?;
    *text = page.into_text()?;
    Ok(())
}

/// Prints a line for each keyServers entry, in the order of keys. Fails only with `OutOfMemory`.
fn print_routes<P: Page>(
    alloc: Global,
    page: &mut P,
    metadata: &Metadata,
) -> Result<(), OutOfMemory>
    ensures { OnOk result (Prints P.has_printed page.old page.new
        (flat_map route_line
        (map (route_of metadata.now) (key_servers_entries metadata.now)))) }
{
    let mut routes = metadata.routes();
    while let Some((begin, tags)) = routes.next() {
        let list = tags.list(alloc)?;
        print_route(page, begin, list.as_slice());
    }
    Ok(())
}

/// Prints the tags of the asked keys. Fails only with `OutOfMemory`.
fn print_asked_keys<P: Page>(
    page: &mut P,
    metadata: &Metadata,
    keys: &[Bytes],
) -> Result<(), OutOfMemory>
    ensures { OnOk result
        (Prints P.has_printed page.old page.new (asked_text metadata.now keys.now)) }
{
    for key in keys {
        print_tags_of_key(page, metadata, key)?;
    }
    Ok(())
}

/// Prints an asked key and its tags. Fails only with `OutOfMemory`.
fn print_tags_of_key<P: Page>(
    page: &mut P,
    metadata: &Metadata,
    key: &Bytes,
) -> Result<(), OutOfMemory>
    ensures { OnOk result
        (Prints P.has_printed page.old page.new (asked_line metadata.now key.now)) }
{
    let tags = metadata.tags_of_key(key.as_slice())?;
    print_asked_key(page, key.as_slice(), tags.as_slice());
    Ok(())
}
