//! A session in memory.

ghost use Rattle.std.specs.Prelude.{◌≡◌, ◌<◌, [], ℕ, List, IsErrOf, OnErr, OnOk, Some, length};
ghost use Rattle.session_texts.specs.Pages.{HoldsAnswer};
ghost use Rattle.session_texts.specs.Placing.{AnswersLine, PlacesAnswer};
ghost use Rattle.session_texts.specs.Sessions.{after_line, after_lost_line, answer_to};
ghost use Rattle.session_texts.specs.Sessions.{first_session};

use crate::answer_page::AnswerPage;
use crate::placing::{ANSWER_LOST, place_answer};
use script_texts::OUT_OF_MEMORY;
use session_run::{Answering, Session};
use std::alloc::Global;
use std::marker::Model;
use system_keys::OutOfMemory;

/// Why a line has no answer.
#[derive(Clone, Copy, Debug, PartialEq, Eq)]
pub enum LineFault {
    /// An allocation failed. Nothing is changed.
    OutOfMemory,
    /// The line was carried out, and an allocation failed for its answer.
    AnswerLost,
}

/// A session, and the answer to its last line.
#[derive(Drop)]
pub struct TextSession {
    session: Session,
    answer: Vec<u8>,
}

impl Model for TextSession {
    ghost use Rattle.session_texts.specs.Sessions.{SessionView};

    ghost Value = { SessionView };

    ghost view = { λ s. record { cluster = s.session.cluster; answer = s.answer.items } };
}

impl TextSession {
    /// The session before its first line.
    pub fn new(alloc: Global) -> TextSession
        ensures { result ≡ first_session }
    {
        TextSession {
            session: Session::new(),
            answer: Vec::new(alloc),
        }
    }

    /// The answer to the last line that was carried out; empty before the first, and if it was lost.
    pub fn answer(&self) -> &[u8]
        ensures { result.now ≡ self.now.answer }
    {
        self.answer.as_slice()
    }

    /// Carries out a line, and keeps its answer. An answer of up to `room` bytes is not lost.
    pub fn answer_line(&mut self, alloc: Global, line: &[u8], room: usize) -> Result<(), LineFault>
        ensures ok { OnOk result (self.new ≡ after_line self.old line.now) }
        ensures memory { IsErrOf result LineFault.OutOfMemory → self.new ≡ self.old }
        ensures lost { IsErrOf result LineFault.AnswerLost
            → self.new ≡ after_lost_line self.old line.now }
        ensures too_long { IsErrOf result LineFault.AnswerLost
            → room < length (answer_to self.old line.now) }
    {
        let mut page = match AnswerPage::new(alloc, room) {
            Ok(page) => page,
            Err(OutOfMemory) => return Err(LineFault::OutOfMemory),
        };
        match self.session.answer(alloc, line, &mut page) {
            Ok(()) => self.keep(page),
            Err(OutOfMemory) => Err(LineFault::OutOfMemory),
        }
    }

    /// Keeps the answer that was printed on a page, or none if it was lost.
    fn keep(&mut self, page: AnswerPage) -> Result<(), LineFault>
        ensures cluster { self.new.cluster ≡ self.old.cluster }
        ensures kept { (room : ℕ) (printed : List ℕ) → HoldsAnswer page room printed
            → OnOk result (self.new.answer ≡ printed) }
        ensures lost { (room : ℕ) (printed : List ℕ) → HoldsAnswer page room printed
            → OnErr result (room < length printed) }
        ensures none { OnErr result ((result ≡ Err LineFault.AnswerLost)
            × (self.new.answer ≡ [])) }
    {
        match page.into_bytes() {
            Some(answer) => {
                self.answer = answer;
                Ok(())
            }
            None => {
                self.answer.clear();
                Err(LineFault::AnswerLost)
            }
        }
    }

    /// Carries out a line, and places its answer at the front of `out`, and its length in `made`.
    /// Returns the status of the call.
    pub fn place_line(&mut self, alloc: Global, line: &[u8], out: &mut [u8], made: &mut usize) -> u8
        ensures { AnswersLine self.old line.now result (Some self.new) out.old out.new
            made.old made.new }
    {
        match self.answer_line(alloc, line, out.len()) {
            Ok(()) => self.place_answer(out, made),
            Err(LineFault::OutOfMemory) => OUT_OF_MEMORY,
            Err(LineFault::AnswerLost) => ANSWER_LOST,
        }
    }

    /// Places the answer to the last line at the front of `out`, and its length in `made`. Returns the
    /// status of the call.
    pub fn place_answer(&self, out: &mut [u8], made: &mut usize) -> u8
        ensures { PlacesAnswer self.now.answer result out.old out.new made.new }
    {
        place_answer(self.answer.as_slice(), out, made)
    }
}
