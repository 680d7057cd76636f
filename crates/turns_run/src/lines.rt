//! The lines of a sequenced batch, a move and an offer, with verdicts and unseen rows.

ghost use Rattle.pages.specs.Printing.{Prints};
ghost use Rattle.turns_run.specs.Lines.{move_line, offer_line, offered_text, sequence_line};
ghost use Rattle.turns_run.specs.Lines.{sequence_text};

use model::{Reply, ResolverNumber, RowNumber, Version};
use pages::Page;
use scripts::{push_list, push_numbered, push_word};

/// Prints that a batch has the record at a row, and its version.
pub fn print_sequence<P: Page>(page: &mut P, row: RowNumber, version: Version)
    ensures { Prints P.has_printed page.old page.new (sequence_line row version) }
{
    push_sequence(page, row, version);
    page.push("\n");
}

/// Appends the line of a sequenced row.
fn push_sequence<P: Page>(page: &mut P, row: RowNumber, version: Version)
    ensures { Prints P.has_printed page.old page.new (sequence_text row version) }
{
    push_numbered(page, "sequence row ", row as u64);
    push_numbered(page, " version ", version);
}

/// Prints that a range moved.
pub fn print_move<P: Page>(page: &mut P, date: Version)
    ensures { Prints P.has_printed page.old page.new (move_line date) }
{
    push_numbered(page, "move date ", date);
    page.push("\n");
}

/// Prints a reply after this word, which says whether it was given before.
pub fn print_offer<P: Page>(page: &mut P, word: &str, reply: &Reply)
    ensures { Prints P.has_printed page.old page.new (offer_line word.now reply.now) }
{
    push_offer_start(page, reply.row, reply.resolver);
    push_word(page, word);
    page.push(" ");
    push_list(page, reply.verdicts.as_slice());
    page.push(" unseen ");
    push_list(page, reply.unseen.as_slice());
    page.push("\n");
}

/// Appends how the line of an offer begins, up to its verdicts.
fn push_offer_start<P: Page>(page: &mut P, row: RowNumber, resolver: ResolverNumber)
    ensures { Prints P.has_printed page.old page.new (offered_text row resolver) }
{
    push_numbered(page, "offer row ", row as u64);
    push_numbered(page, " resolver ", resolver as u64);
}
