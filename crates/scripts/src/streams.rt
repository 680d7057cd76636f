//! The traits of what is read from tokens, without a JSON value.

ghost use Rattle.std.specs.Prelude.{◌≡◌, IfSome, Some, option_and_then};
ghost use Rattle.serde_json.specs.Data.{Data};
ghost use Rattle.serde_json.specs.Read.{read};
ghost use Rattle.scripts.specs.Streams.{Takes, TakesData};
ghost use Rattle.scripts.specs.Values.{value_of};

use crate::shaped::Shaped;
use script_tokens::Tokens;
use std::alloc::Global;

// How deep lists and objects may nest: as deep as `serde_json` reads them.
const DEPTH_LIMIT: usize = 127;

/// A type that is read from the tokens of a JSON value of its shape.
pub trait Streamed: Shaped {
    /// Takes the tokens of one value, which may nest `depth` deep, and returns what it stands for.
    ///
    /// Returns `None` if the value does not have the shape, if a field is repeated, if the script is
    /// written in a way that `Tokens` does not know, or if an allocation fails. Then the caller reads
    /// the JSON value.
    fn from_tokens(alloc: Global, reader: &mut Tokens<'_>, depth: usize) -> Option<Self>
        ensures { IfSome result (λ found. Takes Self.shape depth reader.old found reader.new) };
}

/// What is made of the tokens of a JSON value.
pub trait MadeOfTokens: Drop {
    ghost is_made_of: { Self → Data → Type 0 };

    /// Takes the tokens of one value, which may nest `depth` deep, and returns what is made of it.
    /// Returns `None` as `Streamed` does.
    fn make(alloc: Global, reader: &mut Tokens<'_>, depth: usize) -> Option<Self>
        ensures { IfSome result (λ made. (d : Data)
            × TakesData depth reader.old d reader.new × is_made_of made d) };
}

/// Returns what the JSON value that the bytes are stands for (this project's profile).
///
/// Returns `None` if the bytes are not a value of the shape, and in the other cases of
/// `Streamed::from_tokens`. So `None` decides nothing: `read_value` and `shaped` do.
#[tactic(auto, using(crate::proofs::ValueLemmas::value_of_text))]
pub fn read_tokens<X: Streamed>(alloc: Global, bytes: &[u8]) -> Option<X>
    ensures { IfSome result
        (λ found. option_and_then X.shape (value_of bytes.now) ≡ Some found) }
{
    let found: Shown<X> = make_of_tokens(alloc, bytes)?;
    Some(found.value)
}

/// Returns what is made of the JSON value that the bytes are. Returns `None` if the bytes are no
/// value, and in the cases of `MadeOfTokens::make`.
#[tactic(auto, using(crate::proofs::ValueLemmas::value_of_text))]
pub fn make_of_tokens<X: MadeOfTokens>(alloc: Global, bytes: &[u8]) -> Option<X>
    ensures { IfSome result (λ made. (d : Data)
        × (value_of bytes.now ≡ Some d) × X.is_made_of made d) }
{
    let text = simdutf8::basic::from_utf8(bytes).ok()?;
    make_of_text(alloc, text)
}

fn make_of_text<X: MadeOfTokens>(alloc: Global, text: &str) -> Option<X>
    ensures { IfSome result (λ made. (d : Data) × (read text.now ≡ Some d) × X.is_made_of made d) }
{
    let mut reader = Tokens::new(text);
    let made = X::make(alloc, &mut reader, DEPTH_LIMIT)?;
    if reader.is_at_end() { Some(made) } else { None }
}

// A value of a shape, which is made of the value that it stands for.
#[derive(Drop)]
struct Shown<X: Drop> {
    value: X,
}

impl<X: Streamed> MadeOfTokens for Shown<X> {
    ghost is_made_of = { λ found d. X.shape d ≡ Some found.value };

    #[tactic(auto, using(crate::proofs::StreamLemmas::taken_data))]
    fn make(alloc: Global, reader: &mut Tokens<'_>, depth: usize) -> Option<Shown<X>> {
        let value = X::from_tokens(alloc, reader, depth)?;
        Some(Shown { value })
    }
}
