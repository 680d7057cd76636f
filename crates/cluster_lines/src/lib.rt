//! The lines that several modes print of the metadata of a proxy.
//!
//! Source: this project's profile (lines).
#![tactic(auto)]

mod metadata_lines;

pub use metadata_lines::{print_metadata, print_proxy_metadata};
