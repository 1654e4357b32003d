//! The site file, which gives the numbers that a site is laid out by.
#![tactic(auto)]

mod devices;
mod error;
mod key;
mod reading;

pub use devices::fits;
pub use error::SiteError;
pub use key::Key;
pub use reading::read_site;
