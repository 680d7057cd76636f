//! Proxies that meet, audits, and answers that are confirmed.

mod auditing;
mod behind_by;
mod headline;

pub use auditing::{audit, meet};
pub use behind_by::BehindBy;
pub use headline::metadata_of_two;
