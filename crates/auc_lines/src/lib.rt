//! What a scenario asks for: rounds of jobs of lines, and restarts between them.
//!
//! `auc_script` reads these parts from a text, and the crates above serve and print them. Contracts see
//! a list of parts as a list.
#![tactic(auto)]

mod part;
mod sim;
mod sites;

pub use part::{End, FivegLine, Identity, JobPart, Line, Part, Report, RoundPart, SessionLine};
pub use sim::{SimDelivery, SimLine, SimSchedule};
pub use sites::{SiteEvent, SitesLine};
