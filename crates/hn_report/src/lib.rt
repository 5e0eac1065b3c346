//! The lines of reports on the routers of a world, but for those that say whether a set of routers is settled.
#![tactic(auto)]

mod address_lines;
mod advert_report;
mod prefix_reports;
mod router_reports;
mod ula_lines;

pub use address_lines::addresses_lines;
pub use advert_report::advert_line;
pub use prefix_reports::{elect_line, prefixes_lines, used_lines};
pub use router_reports::{compare_line, hash_line, mail_line, show_line};
pub use ula_lines::ula_line;
