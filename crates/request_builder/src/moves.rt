//! The list of all moves so far, in chunks that records share.

ghost use Rattle.std.specs.Prelude.{◌≡◌, ◌≤◌, ◌++◌, ◌∷◌, [], length, slice_get, Some};
ghost use Rattle.std.specs.Prelude.{IfOk, OnOk, OnErr, MatchOption};
ghost use Rattle.request_builder.specs.Moves.{moves_in};

use model::Move;
use std::alloc::{AllocError, Global};
use std::marker::Model;
use std::sync::Arc;
use system_keys::{Items, OutOfMemory};

/// Moves in the order in which they were made. Copies share them: a copy is a new list of chunks.
///
/// A push joins the move with all chunks after the last one that is longer than everything after it.
/// So there are about as many chunks as the number of moves has binary digits, and each move is
/// copied at most about so often.
#[derive(Debug, Drop)]
pub struct Moves {
    count: usize,
    chunks: Vec<Arc<Items<Move>>>,
}

impl Model for Moves {
    ghost use Rattle.std.specs.Prelude.{◌≡◌, List, length};
    ghost use Rattle.model.specs.declared.moves.Move.{Move};
    ghost use Rattle.request_builder.specs.Moves.{moves_in};

    ghost Value = { List Move };

    ghost view = { λ m. moves_in m.chunks.items };

    ghost invariant = { λ m. m.count ≡ length (moves_in m.chunks.items) };
}

impl Moves {
    /// Returns an empty list. Does not allocate.
    pub fn new(alloc: Global) -> Moves
        ensures { result ≡ [] }
    {
        Moves {
            count: 0,
            chunks: Vec::new(alloc),
        }
    }

    /// How many moves there are.
    pub fn len(&self) -> usize
        ensures { result ≡ length self.now }
    {
        self.count
    }

    /// The move at a place, from 0, or None if there is none. It looks at each chunk at most once.
    pub fn get(&self, place: usize) -> Option<&Move>
        ensures { MatchOption result (length self.now ≤ place)
            (λ found. slice_get self.now place ≡ Some found.now) }
    {
        move_at(&self.chunks, place)
    }

    /// Appends a move. Fails only with `OutOfMemory`, and then nothing has changed.
    pub fn push(&mut self, one: Move) -> Result<(), OutOfMemory>
        ensures ok { OnOk result (self.new ≡ self.old ++ one ∷ []) }
        ensures err { OnErr result (self.new ≡ self.old) }
    {
        let Some(count) = self.count.checked_add(1) else {
            return Err(OutOfMemory);
        };
        let alloc: Global = *self.chunks.allocator();
        let (kept, room) = kept_chunks_and_room(&self.chunks);
        let moves = join_chunks(alloc, room, &self.chunks[kept..], one)?;
        let chunk = Arc::new(alloc, Items::from(moves))?;
        let Ok(()) = self.chunks.reserve(1) else {
            return Err(OutOfMemory);
        };
        self.chunks.truncate(kept);
        self.chunks.push_reserved(chunk);
        self.count = count;
        Ok(())
    }

    /// Returns a copy, which shares the moves. Fails only with `OutOfMemory`.
    pub fn copy(&self) -> Result<Moves, OutOfMemory>
        ensures { IfOk result (λ copy. copy ≡ self.now) }
    {
        Ok(self.clone()?)
    }
}

impl Clone for Moves {
    ghost is_clone = { λ moves copy. copy ≡ moves };

    fn clone(&self) -> Result<Moves, AllocError> {
        Ok(Moves {
            count: self.count,
            chunks: self.chunks.clone()?,
        })
    }
}

/// The move at a place of the chunks, or None if there is none.
fn move_at(chunks: &[Arc<Items<Move>>], place: usize) -> Option<&Move>
    ensures { MatchOption result (length (moves_in chunks.now) ≤ place)
        (λ found. slice_get (moves_in chunks.now) place ≡ Some found.now) }
{
    let mut left = place;
    for chunk in chunks {
        let moves = chunk.as_slice();
        if left < moves.len() {
            return Some(&moves[left]);
        }
        left -= moves.len();
    }
    None
}

/// How many chunks stay when a move is appended, and how long the chunk is that the others and the
/// move make.
fn kept_chunks_and_room(chunks: &[Arc<Items<Move>>]) -> (usize, usize)
    ensures { result.0 ≤ length chunks.now }
{
    let mut room: usize = 1;
    for place in (0..chunks.len()).rev() {
        let length = chunks[place].as_slice().len();
        if room < length {
            return (place + 1, room);
        }
        room = room.saturating_add(length);
    }
    (0, room)
}

/// Copies of the moves of the chunks, and one more move.
fn join_chunks(
    alloc: Global,
    room: usize,
    chunks: &[Arc<Items<Move>>],
    one: Move,
) -> Result<Vec<Move>, OutOfMemory>
    ensures { IfOk result (λ moves. moves.items ≡ moves_in chunks.now ++ one ∷ []) }
{
    let mut moves = Vec::with_capacity(alloc, room)?;
    for chunk in chunks {
        append_copies(&mut moves, chunk.as_slice())?;
    }
    moves.push(one)?;
    Ok(moves)
}

/// Appends copies of more moves.
fn append_copies(moves: &mut Vec<Move>, more: &[Move]) -> Result<(), OutOfMemory>
    ensures { OnOk result (moves.new.items ≡ moves.old.items ++ more.now) }
{
    for one in more {
        moves.push(one.copy()?)?;
    }
    Ok(())
}
