//! A cluster without threads, made of the real parts: proxies, resolvers, and the requests between
//! them. It carries out one event after another.
#![tactic(auto)]

mod answer;
mod event;
mod finishing;
mod kept_record;
mod offering;
mod offers_left;
mod past_record;
mod refusal;
mod sent_requests;
mod sequencing;
mod starting;
mod stopped;
mod world;

pub use answer::Answer;
pub use event::Event;
pub use model::{Config, Finished, Move, Reply};
pub use proxy_state::Proxy;
pub use refusal::Refusal;
pub use state_memory::{Answer as OfferAnswer, Resolver};
pub use stopped::Stopped;
pub use world::TurnWorld;
