//! The lines of how each two proxies meet, and of each proxy's audit.

ghost use Rattle.std.specs.Prelude.{◌≡◌, ◌<◌, ◌-◌, ◌+◌, ◌++◌, length, OnOk, string_bytes};
ghost use Rattle.threads_lines.specs.Meetings.{AreAuditsOf, AreMeetingLines, AreMeetingsOf};
ghost use Rattle.threads_lines.specs.Meetings.{audit_line, audit_text, meeting_line};
ghost use Rattle.threads_lines.specs.Parts.{GrowsBy};

use agreed_ledger::Naming;
use locked_cluster::{BehindBy, Meeting, ProxyGuard, ResolverGuard, audit, meet};
use model::ProxyNumber;
use std::fmt::Write;
use system_keys::OutOfMemory;

/// Prints how each two of the proxies meet, the lower one first, by their places. Fails only with
/// `OutOfMemory`.
pub fn print_meetings<N: Naming>(
    text: &mut String,
    proxies: &[ProxyGuard<'_, N>],
) -> Result<(), OutOfMemory>
    ensures { OnOk result (GrowsBy (AreMeetingsOf proxies.now)
        (string_bytes text.old) (string_bytes text.new)) }
{
    for one in 0..proxies.len() {
        print_meetings_of(text, one, proxies)?;
    }
    Ok(())
}

/// Prints how a proxy meets each one after it.
fn print_meetings_of<N: Naming>(
    text: &mut String,
    one: ProxyNumber,
    proxies: &[ProxyGuard<'_, N>],
) -> Result<(), OutOfMemory>
    requires { one < length proxies.now }
    ensures { OnOk result
        (GrowsBy (AreMeetingLines proxies.now one (length proxies.now - (one + 1)))
        (string_bytes text.old) (string_bytes text.new)) }
{
    for other in one + 1..proxies.len() {
        let met = meet(&proxies[one], &proxies[other]);
        print_meeting(text, one, other, met)?;
    }
    Ok(())
}

/// Prints the line of two proxies that met.
fn print_meeting(
    text: &mut String,
    one: ProxyNumber,
    other: ProxyNumber,
    met: Meeting,
) -> Result<(), OutOfMemory>
    ensures { OnOk result
        (string_bytes text.new ≡ string_bytes text.old ++ meeting_line one other met) }
{
    let name = match met {
        Meeting::Same => "same",
        Meeting::Behind => "behind",
        Meeting::Ahead => "ahead",
    };
    writeln!(text, "meet {one} {other} {name}")?;
    Ok(())
}

/// Prints the audit of each of the proxies by the resolvers, in order, by its place. Fails only with
/// `OutOfMemory`.
pub fn print_audits<N: Naming>(
    text: &mut String,
    proxies: &[ProxyGuard<'_, N>],
    resolvers: &[ResolverGuard<'_, N>],
) -> Result<(), OutOfMemory>
    ensures { OnOk result
        (GrowsBy (AreAuditsOf N.cells.config proxies.now resolvers.now)
        (string_bytes text.old) (string_bytes text.new)) }
{
    for number in 0..proxies.len() {
        let audited = audit(&proxies[number], resolvers);
        print_audit(text, number, &audited)?;
    }
    Ok(())
}

/// Prints the line of an audit of a proxy.
fn print_audit(
    text: &mut String,
    proxy: ProxyNumber,
    audited: &Result<(), BehindBy>,
) -> Result<(), OutOfMemory>
    ensures { OnOk result
        (string_bytes text.new ≡ string_bytes text.old ++ audit_line proxy audited.now) }
{
    match audited {
        Ok(()) => writeln!(text, "audit {proxy} ok")?,
        Err(behind) => writeln!(
            text,
            "audit {proxy} behind {} {}",
            behind.resolver, behind.version
        )?,
    }
    Ok(())
}
