//! A handle: a pointer to a session, or null, with its ownership.

ghost use Rattle.std.specs.Prelude.{◌≡◌, Option, option_map};
ghost use Rattle.std.specs.declared.option.Option.TheVariants.{Some, None};
ghost use Rattle.session_texts.specs.Sessions.{SessionView};
ghost use Rattle.session_handle.specs.Owned.{handle_owns};

use crate::loose::Loose;
use session_texts::TextSession;
use std::alloc::Global;
use std::marker::Model;
use std::mem::replace;
use std::ptr::null_mut;

/// A session, or none: one pointer, which is null without a session.
#[repr(C)]
pub struct Handle {
    at: *mut u8,
    pub ghost session: { Option SessionView },
}

impl Model for Handle {
    ghost also_owns = { λ h. handle_owns h.at h.session };
}

impl Handle {
    /// Takes the session out. The handle is then empty.
    pub fn take(&mut self, alloc: Global) -> Option<Box<TextSession>>
        ensures session { self.old.session ≡ option_map (λ b. b.value) result }
        ensures emptied { self.new.session ≡ None }
    {
        match replace(self, Handle::empty()).into_loose(alloc) {
            Some(loose) => Some(loose.into_box()),
            None => None,
        }
    }

    /// Puts a session in. One that was there is freed.
    pub fn put(&mut self, alloc: Global, session: Box<TextSession>)
        ensures { self.new.session ≡ Some session.value }
    {
        let before = replace(self, Handle::of(Loose::of(session)));
        if let Some(loose) = before.into_loose(alloc) {
            drop(loose.into_box());
        }
    }

    /// No session.
    fn empty() -> Handle
        ensures { result.session ≡ None }
    {
        Handle { at: null_mut() }
    }

    /// Takes the session over.
    fn of(session: Loose<TextSession, Global>) -> Handle
        ensures { result.session ≡ Some session.value }
    {
        let Loose { at, alloc: _ } = session;
        Handle { at: at as *mut u8 }
    }

    /// Gives the session up, if there is one.
    fn into_loose(self, alloc: Global) -> Option<Loose<TextSession, Global>>
        ensures { self.session ≡ option_map (λ l. l.value) result }
    {
        let Handle { at } = self;
        if at.is_null() {
            None
        } else {
            Some(Loose {
                at: at as *mut TextSession,
                alloc,
            })
        }
    }
}

// A handle owns its session alone.
unsafe impl Send for Handle {}
