//! The whole text of a fold script: its rows are folded, and the routing is printed.

ghost use Rattle.std.specs.Prelude.{◌≡◌, ◌++◌, IfSome, OnOk, string_bytes};
ghost use Rattle.model.specs.Metadata.{metadata};
ghost use Rattle.cluster_lines.specs.MetadataLines.{metadata_text};
ghost use Rattle.fold_run.specs.Folding.{IsTextOf};
ghost use Rattle.fold_run.specs.Text.{folded_text, last_version};

use crate::fold_fields::FoldFields;
use crate::folded_rows::FoldedRows;
use crate::script::FoldScript;
use cluster_lines::print_metadata;
use metadata::Metadata;
use model::{JournalRow, RESOLVERS_LIMIT, is_from_one_to};
use script_tokens::Tokens;
use scripts::{MadeOfTokens, take_object};
use std::alloc::Global;
use system_keys::{Bytes, Items, OutOfMemory};

/// Prints the text of a fold script (this project's profile): the routing of its folded rows and
/// the tags of its asked keys. Fails only with `OutOfMemory`.
#[tactic(auto, unfolding(model::specs::Metadata::metadata))]
pub(crate) fn print_folded(
    alloc: Global,
    text: &mut String,
    script: FoldScript,
) -> Result<(), OutOfMemory>
    ensures { OnOk result (string_bytes text.new
        ≡ string_bytes text.old ++ folded_text script) }
{
    let FoldScript { rows, ask } = script;
    let version = last_version(rows.as_slice());
    let metadata = Metadata::new(alloc).fold_own_rows(rows)?;
    print_metadata(alloc, text, version, &metadata, ask.as_slice())
}

/// The version of the last row, or 0 if there is none.
fn last_version(rows: &[JournalRow]) -> u64
    ensures { result ≡ last_version rows.now }
{
    match rows.last() {
        Some(row) => row.version,
        None => 0,
    }
}

/// What is made to print a fold script while its tokens are read.
#[derive(Drop)]
pub struct FoldLeftover {
    metadata: Metadata,
    ask: Items<Bytes>,
}

/// The text of a fold script, which is folded while its tokens are read.
#[derive(Drop)]
pub(crate) struct FoldText {
    /// The routing of its folded rows, and the tags of its asked keys.
    pub(crate) text: String,
    /// What was made to print it.
    pub(crate) leftover: FoldLeftover,
}

impl MadeOfTokens for FoldText {
    ghost is_made_of = { λ made d. IsTextOf d made };

    // Where the number of resolvers comes after the rows, it decides nothing.
    fn make(alloc: Global, reader: &mut Tokens<'_>, depth: usize) -> Option<FoldText> {
        let fields: FoldFields<FoldedRows> = take_object(alloc, reader, depth)?;
        let (resolvers, folded, ask) = (fields.resolvers?, fields.rows?, fields.ask?);
        if folded.resolvers != resolvers || !is_from_one_to(RESOLVERS_LIMIT, resolvers) {
            return None;
        }
        text_of_folded(alloc, folded, ask)
    }
}

/// The whole text, where the rows are folded.
fn text_of_folded(alloc: Global, folded: FoldedRows, ask: Items<Bytes>) -> Option<FoldText>
    ensures { IfSome result (λ made. string_bytes made.text
        ≡ metadata_text folded.version folded.journal ask) }
{
    let FoldedRows {
        version,
        journal,
        ..
    } = folded;
    let metadata = journal.into_metadata().ok()?;
    let mut text = String::new(alloc);
    match print_metadata(alloc, &mut text, version, &metadata, ask.as_slice()) {
        Ok(()) => Some(FoldText {
            text,
            leftover: FoldLeftover { metadata, ask },
        }),
        Err(_) => None,
    }
}
