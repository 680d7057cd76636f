//! Tests of resolvers and proxies behind locks, with threads and without, and of workers that proxies
//! ask through inboxes. A test ends with that error if an allocation for its own data fails; the tested calls
//! are made again.

mod answers;
mod commits;
mod of_commits;
mod of_gates;
mod of_held_requests;
mod of_left_requests;
mod of_meetings;
mod of_phases;
mod of_refusals;
mod of_repeats;
mod of_resolvers;
mod of_threads;
mod of_workers;
mod phases;
mod routings;
mod serving;
mod starting;
mod stories;
mod summing;
