//! The lines of a finished batch: each transaction's outcome, then its mutations with their tags and
//! private copies.

ghost use Rattle.std.specs.Prelude.{◌≡◌, flat_map, true};
ghost use Rattle.pages.specs.Printing.{Prints};
ghost use Rattle.turns_run.specs.Lines.{copy_line, mutation_line, mutation_text, mutations_of};
ghost use Rattle.turns_run.specs.Lines.{outcome_numbers, private_text};
ghost use Rattle.turns_run.specs.Lines.{outcome_text, transaction_line, transactions_text};
ghost use Rattle.turns_run.specs.OrderOfMutations.{IsAfter, are_in_order};

use model::{Outcome, PrivateCopy, Tagged};
use pages::Page;
use scripts::{Word, push_list, push_numbered, push_quoted};

/// Prints the outcome of each transaction of a batch, and after it the tags and the private copy of
/// each of its mutations, which are in the order of their transactions: each is looked at once.
pub(crate) fn print_transactions<P: Page>(page: &mut P, tagged: &[Tagged], outcomes: &[Outcome])
    requires { are_in_order 0 tagged.now ≡ true }
    ensures { Prints P.has_printed page.old page.new (transactions_text tagged.now 0 outcomes.now) }
{
    let mut rest = tagged;
    let mut number = 0;
    for outcome in outcomes {
        print_transaction(page, number, *outcome);
        rest = print_mutations_at_front(page, number, rest);
        number += 1;
    }
}

// Prints the mutations of this transaction, which come first, and returns those after them.
fn print_mutations_at_front<'a, P: Page>(
    page: &mut P,
    number: usize,
    tagged: &'a [Tagged],
) -> &'a [Tagged]
    requires { are_in_order number tagged.now ≡ true }
    ensures printed { Prints P.has_printed page.old page.new
        (flat_map mutation_text (mutations_of number tagged.now)) }
    ensures later { IsAfter number tagged.now result.now }
{
    let mut later = tagged;
    'mutations: while let Some((first, rest)) = later.split_first() {
        if first.number != number {
            return later;
        }
        print_mutation(page, first);
        later = rest;
    }
    later
}

/// Prints the line of a transaction: its number and its outcome.
fn print_transaction<P: Page>(page: &mut P, number: usize, outcome: Outcome)
    ensures { Prints P.has_printed page.old page.new (transaction_line number outcome) }
{
    push_numbered(page, "txn ", number as u64);
    page.push(" ");
    push_outcome(page, outcome);
    page.push("\n");
}

/// Appends the name of an outcome.
#[tactic(auto, using(pages::proofs::Prints::prints_both))]
fn push_outcome<P: Page>(page: &mut P, outcome: Outcome)
    ensures { Prints P.has_printed page.old page.new (outcome_text outcome) }
{
    outcome.push_to(page);
    push_outcome_numbers(page, outcome)
}

/// Appends the numbers of an outcome that has some.
#[tactic(auto, using(pages::proofs::Prints::prints_both))]
fn push_outcome_numbers<P: Page>(page: &mut P, outcome: Outcome)
    ensures { Prints P.has_printed page.old page.new (outcome_numbers outcome) }
{
    match outcome {
        Outcome::Committed { version, number } => {
            push_numbered(page, " ", version);
            push_numbered(page, " ", number as u64);
        }
        Outcome::Conflict => page.push(" 1020"),
        Outcome::TooOld => page.push(" 1007"),
        Outcome::Locked => page.push(" 1038"),
    }
}

/// Prints the line of a mutation of a finished batch, with its tags, and after it its private copy.
fn print_mutation<P: Page>(page: &mut P, mutation: &Tagged)
    ensures { Prints P.has_printed page.old page.new (mutation_text mutation.now) }
{
    print_mutation_tags(page, mutation);
    print_private_copy(page, mutation)
}

/// Prints the tags of a mutation.
fn print_mutation_tags<P: Page>(page: &mut P, mutation: &Tagged)
    ensures { Prints P.has_printed page.old page.new (mutation_line mutation.now) }
{
    push_numbered(page, "mutation ", mutation.number as u64);
    push_numbered(page, " ", mutation.place as u64);
    page.push(" tags ");
    push_list(page, mutation.tags.as_slice());
    page.push("\n");
}

/// Prints the private copy of a mutation, if it has one.
fn print_private_copy<P: Page>(page: &mut P, mutation: &Tagged)
    ensures { Prints P.has_printed page.old page.new
        (private_text mutation.now.number mutation.now.place mutation.now.private) }
{
    match &mutation.private {
        Some(copy) => print_copy_line(page, mutation.number, mutation.place, copy),
        None => {}
    }
}

/// Prints a private copy of a mutation: its key and its tag.
fn print_copy_line<P: Page>(page: &mut P, number: usize, place: usize, copy: &PrivateCopy)
    ensures { Prints P.has_printed page.old page.new (copy_line number place copy.now) }
{
    push_numbered(page, "private ", number as u64);
    push_numbered(page, " ", place as u64);
    page.push(" ");
    push_quoted(page, copy.key.as_slice());
    page.push(" ");
    copy.tag.push_to(page);
    page.push("\n");
}
