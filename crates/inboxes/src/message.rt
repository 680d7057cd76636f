//! The messages of an inbox.

ghost use Rattle.std.specs.Prelude.{◌≡◌};
ghost use Rattle.inboxes.specs.MessageViews.{close_view, end_view, request_view, message_view};

use crate::question::Question;
use model::ProxyNumber;
use std::marker::Model;

/// What a message says.
#[derive(Drop)]
pub enum Body<C: Question> {
    /// A request, with where its answer goes.
    Request(C),
    /// The resolver is to be closed.
    Close,
    /// The proxy sends no more.
    End,
}

/// A message of a proxy. Contracts see its `MessageView`.
#[derive(Drop)]
pub struct Message<C: Question> {
    proxy: ProxyNumber,
    body: Body<C>,
}

impl<C: Question> Model for Message<C> {
    ghost use Rattle.inboxes.specs.MessageViews.{message_view};
    ghost use Rattle.inboxes.specs.declared.views.MessageView.{MessageView};

    ghost Value = { MessageView };

    ghost view = { λ m. message_view C.resolver_of C.row_of m.proxy m.body };
}

impl<C: Question> Message<C> {
    /// The proxy's request, with where its answer goes.
    pub fn request(proxy: ProxyNumber, question: C) -> Message<C>
        ensures { result ≡ request_view proxy (C.resolver_of question) (C.row_of question) }
    {
        Message {
            proxy,
            body: Body::Request(question),
        }
    }

    /// The proxy asks that the resolver be closed.
    pub fn close(proxy: ProxyNumber) -> Message<C>
        ensures { result ≡ close_view proxy }
    {
        Message {
            proxy,
            body: Body::Close,
        }
    }

    /// The last message of the proxy.
    pub fn end(proxy: ProxyNumber) -> Message<C>
        ensures { result ≡ end_view proxy }
    {
        Message {
            proxy,
            body: Body::End,
        }
    }

    /// The number of the proxy that sends it.
    pub fn proxy(&self) -> ProxyNumber
        ensures { result ≡ self.now.proxy }
    {
        self.proxy
    }

    /// What the message says.
    pub fn into_body(self) -> Body<C>
        ensures { message_view C.resolver_of C.row_of self.proxy result ≡ self }
    {
        self.body
    }
}
