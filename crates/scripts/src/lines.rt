//! The lines of a routing, and of tags that are asked.

ghost use Rattle.std.specs.Prelude.{option_map};
ghost use Rattle.pages.specs.Printing.{Prints};
ghost use Rattle.scripts.specs.Lines.{locked_line, metadata_version_line, quoted_or_none};
ghost use Rattle.scripts.specs.Lines.{route_line, routing_head, tags_line, version_line};

use crate::line_pieces::{push_numbered, push_quoted};
use crate::words::push_list;
use model::Version;
use pages::Page;
use system_keys::Tag;

/// Prints what stands before the routes of a routing: its version, whether it is locked, and its
/// metadata version.
pub fn print_routing_head<P: Page>(
    page: &mut P,
    version: Version,
    locked: bool,
    metadata_version: Option<&[u8]>,
)
    ensures { Prints P.has_printed page.old page.new
        (routing_head version locked (option_map (λ value. value.now) metadata_version.entry)) }
{
    print_version(page, version);
    print_locked(page, locked);
    print_metadata_version(page, metadata_version);
}

/// Prints a route: the key that it begins at, and its tags.
pub fn print_route<P: Page>(page: &mut P, key: &[u8], tags: &[Tag])
    ensures { Prints P.has_printed page.old page.new
        (route_line (record { key = key.now; tags = tags.now })) }
{
    page.push("route ");
    push_quoted(page, key);
    page.push(" ");
    push_list(page, tags);
    page.push("\n");
}

/// Prints an asked key and its tags.
pub fn print_asked_key<P: Page>(page: &mut P, key: &[u8], tags: &[Tag])
    ensures { Prints P.has_printed page.old page.new (tags_line key.now tags.now) }
{
    page.push("tags ");
    push_quoted(page, key);
    page.push(" ");
    push_list(page, tags);
    page.push("\n");
}

fn print_version<P: Page>(page: &mut P, version: Version)
    ensures { Prints P.has_printed page.old page.new (version_line version) }
{
    push_numbered(page, "version ", version);
    page.push("\n");
}

fn print_locked<P: Page>(page: &mut P, locked: bool)
    ensures { Prints P.has_printed page.old page.new (locked_line locked) }
{
    page.push(if locked {
        "locked yes\n"
    } else {
        "locked no\n"
    });
}

fn print_metadata_version<P: Page>(page: &mut P, value: Option<&[u8]>)
    ensures { Prints P.has_printed page.old page.new
        (metadata_version_line (option_map (λ value. value.now) value.entry)) }
{
    page.push("metadata_version ");
    push_quoted_or_none(page, value);
    page.push("\n");
}

fn push_quoted_or_none<P: Page>(page: &mut P, value: Option<&[u8]>)
    ensures { Prints P.has_printed page.old page.new
        (quoted_or_none (option_map (λ value. value.now) value.entry)) }
{
    match value {
        Some(bytes) => push_quoted(page, bytes),
        None => page.push("none"),
    }
}
