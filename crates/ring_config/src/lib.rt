//! The configuration of a service, and the TOML text that spells it.
//!
//! `read_config` returns a configuration only for a text that spells it, and calls no such text
//! bad.
#![tactic(auto)]

mod config;
mod reading;

pub use config::{Config, ConfigFault};
pub use reading::read_config;
