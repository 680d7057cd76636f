//! The lines of a batch and of a closing: version and outcomes, or the refusal.

ghost use Rattle.std.specs.Prelude.{◌≡◌, ◌++◌, OnOk, Ok, Err, string_bytes};
ghost use Rattle.threads_lines.specs.Lines.{batch_line, batch_text, closing_line, closing_text};
ghost use Rattle.threads_lines.specs.Lines.{refusal_text, refusal_value, version_text};

use agreed_ledger::Refusal;
use model::{Finished, ProxyNumber, Version};
use scripts::{print_list, print_refused};
use std::fmt::Write;
use system_keys::OutOfMemory;

/// Prints the outcomes of a batch, which stands at this place among those of the proxy. Fails only
/// with `OutOfMemory`.
pub(crate) fn print_finished_batch(
    text: &mut String,
    proxy: ProxyNumber,
    place: usize,
    finished: &Finished,
) -> Result<(), OutOfMemory>
    ensures { OnOk result (string_bytes text.new
        ≡ string_bytes text.old ++ batch_line proxy place (Ok finished.now)) }
{
    push_batch(text, proxy, place)?;
    print_list(text, finished.outcomes.as_slice())?;
    text.push_str("\n")?;
    Ok(())
}

/// Prints that a batch got no record. Fails only with `OutOfMemory`.
pub(crate) fn print_refused_batch(
    text: &mut String,
    proxy: ProxyNumber,
    place: usize,
    refusal: &Refusal,
) -> Result<(), OutOfMemory>
    ensures { OnOk result (string_bytes text.new
        ≡ string_bytes text.old ++ batch_line proxy place (Err refusal.now)) }
{
    push_batch(text, proxy, place)?;
    push_ledger_refusal(text, refusal)?;
    text.push_str("\n")?;
    Ok(())
}

/// Prints the version of the batch by which a proxy closes. Fails only with `OutOfMemory`.
pub(crate) fn print_closing_version(
    text: &mut String,
    proxy: ProxyNumber,
    finished: &Finished,
) -> Result<(), OutOfMemory>
    ensures { OnOk result (string_bytes text.new
        ≡ string_bytes text.old ++ closing_line proxy (Ok finished.now)) }
{
    push_closing(text, proxy)?;
    push_version(text, finished.version)?;
    text.push_str("\n")?;
    Ok(())
}

/// Prints that the batch by which a proxy closes got no record. Fails only with `OutOfMemory`.
pub(crate) fn print_refused_closing(
    text: &mut String,
    proxy: ProxyNumber,
    refusal: &Refusal,
) -> Result<(), OutOfMemory>
    ensures { OnOk result (string_bytes text.new
        ≡ string_bytes text.old ++ closing_line proxy (Err refusal.now)) }
{
    push_closing(text, proxy)?;
    push_ledger_refusal(text, refusal)?;
    text.push_str("\n")?;
    Ok(())
}

/// Appends how the line of a batch begins: its proxy, and its place among those of that proxy.
fn push_batch(text: &mut String, proxy: ProxyNumber, place: usize) -> Result<(), OutOfMemory>
    ensures { OnOk result (string_bytes text.new
        ≡ string_bytes text.old ++ batch_text proxy place) }
{
    write!(text, "batch {proxy} {place} ")?;
    Ok(())
}

/// Appends how the line of a closing begins.
fn push_closing(text: &mut String, proxy: ProxyNumber) -> Result<(), OutOfMemory>
    ensures { OnOk result (string_bytes text.new ≡ string_bytes text.old ++ closing_text proxy) }
{
    write!(text, "closing {proxy} ")?;
    Ok(())
}

/// Appends the version of a commit.
fn push_version(text: &mut String, version: Version) -> Result<(), OutOfMemory>
    ensures { OnOk result (string_bytes text.new ≡ string_bytes text.old ++ version_text version) }
{
    write!(text, "version {version}")?;
    Ok(())
}

// Fails also for the refusal `OutOfMemory`, which has no number.
fn push_ledger_refusal(text: &mut String, refusal: &Refusal) -> Result<(), OutOfMemory>
    ensures { OnOk result (string_bytes text.new
        ≡ string_bytes text.old ++ refusal_text refusal.now) }
{
    let number = refusal.number().ok_or(OutOfMemory)?;
    print_refused(text, number, refusal.name())?;
    push_refusal_value(text, refusal)
}

/// Appends what a refusal carries after a space, if it carries anything.
fn push_refusal_value(text: &mut String, refusal: &Refusal) -> Result<(), OutOfMemory>
    ensures { OnOk result (string_bytes text.new
        ≡ string_bytes text.old ++ refusal_value refusal.now) }
{
    match refusal {
        Refusal::LedgerFull { rows } => write!(text, " {rows}")?,
        Refusal::BadConfig
        | Refusal::NoSuchResolver
        | Refusal::NoSuchProxy
        | Refusal::VersionsEnd
        | Refusal::CellTaken
        | Refusal::OutOfMemory => {}
    }
    Ok(())
}
