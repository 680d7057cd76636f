//! The rule of an inbox, and the calls on its channel: making it, adding a sender, sending,
//! taking, joining passes.
//!
//! A step is one call on the channel, at one moment, and changes one pass. Each is proved to keep the
//! rule ([`InOrder`]) whatever the other threads did before.

ghost use Rattle.std.specs.Prelude.{◌≡◌, ◌+◌, true, List, [], ◌∷◌, ◌++◌, None, IfErr, IfOk, OnErr};
ghost use Rattle.crossbeam_channel.specs.Claims.{IsSeatAt};
ghost use Rattle.crossbeam_channel.specs.Ends.{receives_on, ruled_capacity, sends_on};
ghost use Rattle.inboxes.specs.Delivers.{inbox_limit, of_proxy};
ghost use Rattle.inboxes.specs.Places.{known};
ghost use Rattle.inboxes.specs.Views.{sender, worker};
ghost use Rattle.inboxes.specs.declared.views.MessageView.{MessageView};

use crate::message::Message;
use crate::question::Question;
use crate::views::{MessageView, View};
use crossbeam_channel::protocol::{Join, Lesson, Outcome, Protocol, Split};
use crossbeam_channel::{Pass, RecvError, RuledReceiver, RuledSender, bounded_with};
use std::alloc::{AllocError, Global};
use std::sync::Wait;

/// How many messages an inbox holds.
const INBOX_LIMIT: usize = 64;

/// The rule: what the worker took of a proxy, and then what is queued of it, is what it sent.
pub struct InOrder;

impl<C: Question> Protocol<Message<C>, View> for InOrder {
    ghost use Rattle.std.specs.Prelude.{[], None};
    ghost use Rattle.inboxes.specs.Delivers.{Delivers};
    ghost use Rattle.inboxes.specs.Views.{worker};

    ghost holds = { Delivers };

    ghost first = { worker 0 [] None };
}

/// A message goes to the back of the queue, and its proxy's pass knows that it was sent.
pub(crate) struct SendStep;

impl<C: Question> Outcome<Message<C>, View> for SendStep {
    ghost use Rattle.std.specs.Prelude.{◌≡◌, [], ◌∷◌, ◌++◌};
    ghost use Rattle.inboxes.specs.Views.{sender};

    ghost then = { λ v message w. w ≡ sender v.from (v.put ++ message ∷ []) };
}

impl<C: Question> Lesson<Message<C>, View> for SendStep {
    ghost use Rattle.std.specs.Prelude.{⊤};

    ghost fact = { λ v items. ⊤ };
}

/// The message at the front of the queue is taken, and the worker's pass knows it.
pub(crate) struct TakeStep;

impl<C: Question> Outcome<Message<C>, View> for TakeStep {
    ghost use Rattle.std.specs.Prelude.{◌≡◌, [], ◌∷◌, ◌++◌};
    ghost use Rattle.inboxes.specs.Views.{worker};

    ghost then = { λ v message w. w ≡ worker v.made (v.got ++ message ∷ []) v.told };
}

impl<C: Question> Lesson<Message<C>, View> for TakeStep {
    ghost use Rattle.std.specs.Prelude.{⊤};

    ghost fact = { λ v items. ⊤ };
}

/// A pass is made for the next proxy, which has sent nothing.
pub(crate) struct AdmitStep;

impl Split<View> for AdmitStep {
    ghost use Rattle.std.specs.Prelude.{◌+◌, [], None};
    ghost use Rattle.inboxes.specs.Views.{sender, worker};

    ghost left = { λ v. worker (v.made + 1) v.got None };

    ghost right = { λ v. sender v.made [] };
}

/// The pass of a proxy is joined to the worker's, which is told what the proxy sent.
pub(crate) struct EndStep;

impl Join<View> for EndStep {
    ghost use Rattle.std.specs.Prelude.{Some};
    ghost use Rattle.inboxes.specs.Views.{spent, worker};

    ghost both = { λ v w. worker v.made v.got (Some (w.from, w.put)) };

    ghost spent = { spent };
}

/// What the worker took of the proxy whose pass was joined last is a prefix of what that proxy
/// sent.
pub(crate) struct CompareStep;

impl<C: Question> Lesson<Message<C>, View> for CompareStep {
    ghost use Rattle.inboxes.specs.Delivers.{IsToldMore};

    ghost fact = { λ v items. IsToldMore v };
}

/// A sending end of an inbox.
pub(crate) type InboxSender<C> = RuledSender<Message<C>, View, InOrder>;

/// The receiving end of an inbox.
pub type Inbox<C> = RuledReceiver<Message<C>, View, InOrder>;

/// A pass of an inbox.
pub(crate) type InboxPass<C> = Pass<Message<C>, View>;

/// The two ends of a new inbox, and the worker's pass.
pub(crate) fn make_inbox<C: Question>(
    alloc: Global,
) -> Result<(InboxSender<C>, Inbox<C>, InboxPass<C>), AllocError>
    ensures channel { IfOk result (λ r. (receives_on r.1 ≡ sends_on r.0)
        × (ruled_capacity (sends_on r.0) ≡ inbox_limit)) }
    ensures pass { IfOk result (λ r. IsSeatAt (sends_on r.0) r.2 × (known r.2 ≡ worker 0 [] None)) }
{
    bounded_with::<Message<C>, View, InOrder, Global>(alloc, INBOX_LIMIT)
}

/// Sends a message of the proxy whose pass it is. If the receiving end is gone, the message comes
/// back.
pub(crate) fn send<C: Question, R: Wait>(
    rt: &R,
    post: &InboxSender<C>,
    hand: &mut InboxPass<C>,
    message: Message<C>,
) -> Result<(), Message<C>>
    requires place { IsSeatAt (sends_on post.now) hand.old }
    requires sender { (known hand.old).sends ≡ true }
    requires mine { message.proxy ≡ (known hand.old).from }
    ensures place { IsSeatAt (sends_on post.now) hand.new }
    ensures sent { IfOk result (λ _. known hand.new
        ≡ sender (known hand.old).from ((known hand.old).put ++ message ∷ [])) }
    ensures refused { IfErr result (λ back. (back ≡ message) × (known hand.new ≡ known hand.old)) }
{
    match post.send_as::<SendStep, R>(rt, hand, message) {
        Ok(()) => Ok(()),
        Err(error) => Err(error.into_inner()),
    }
}

/// Takes the message at the front, and waits while there is none. Fails if no sending end is left.
pub(crate) fn take_one<C: Question, R: Wait>(
    rt: &R,
    inbox: &Inbox<C>,
    hand: &mut InboxPass<C>,
) -> Result<Message<C>, RecvError>
    requires place { IsSeatAt (receives_on inbox.now) hand.old }
    requires worker { (known hand.old).gets ≡ true }
    ensures place { IsSeatAt (receives_on inbox.now) hand.new }
    ensures taken { IfOk result (λ message. known hand.new
        ≡ worker (known hand.old).made ((known hand.old).got ++ message ∷ [])
        (known hand.old).told) }
    ensures none { OnErr result (known hand.new ≡ known hand.old) }
{
    inbox.recv_as::<TakeStep, R>(rt, hand)
}

/// Makes the pass of the next proxy.
pub(crate) fn add_sender<C: Question>(
    post: &InboxSender<C>,
    hand: &mut InboxPass<C>,
) -> InboxPass<C>
    requires place { IsSeatAt (sends_on post.now) hand.old }
    requires worker { (known hand.old).gets ≡ true }
    ensures place { IsSeatAt (sends_on post.now) hand.new }
    ensures other { IsSeatAt (sends_on post.now) result }
    ensures worker { known hand.new ≡ worker ((known hand.old).made + 1) (known hand.old).got None }
    ensures sender { known result ≡ sender (known hand.old).made [] }
{
    post.another::<AdmitStep>(hand)
}

/// Joins the pass of a proxy to the worker's. What the worker took of the proxy is a prefix of
/// what the proxy sent.
pub(crate) fn join<C: Question>(post: &InboxSender<C>, hand: &mut InboxPass<C>, ended: InboxPass<C>)
    requires place { IsSeatAt (sends_on post.now) hand.old }
    requires other { IsSeatAt (sends_on post.now) ended }
    requires worker { (known hand.old).gets ≡ true }
    requires sender { (known ended).sends ≡ true }
    ensures place { IsSeatAt (sends_on post.now) hand.new }
    ensures worker { ((known hand.new).gets ≡ true)
        × ((known hand.new).got ≡ (known hand.old).got) }
    ensures begins { (rest : List MessageView)
        × ((known ended).put ≡ of_proxy (known ended).from (known hand.old).got ++ rest) }
{
    post.absorb::<EndStep>(hand, ended);
    post.learn_as::<CompareStep>(hand);
}
