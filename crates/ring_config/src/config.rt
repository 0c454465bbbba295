//! The configuration of a service.
ghost use Rattle.std.specs.Prelude.{◌≤◌};

use thiserror::Error;

/// The settings of a service.
#[derive(Clone, Copy)]
pub struct Config {
    /// The number of threads that run elections: 1 to 8.
    pub workers: usize,
    /// The most items in the inbox of a worker: 1 to 65536.
    pub inbox: usize,
    /// The port to listen on: 1 to 65535.
    pub port: u16,
    ghost some_workers: { 1 ≤ workers },
    ghost few_workers: { workers ≤ 8 },
    ghost some_room: { 1 ≤ inbox },
    ghost little_room: { inbox ≤ 65536 },
    ghost some_port: { 1 ≤ port },
}

/// Why a text gave no configuration.
#[derive(Clone, Copy, Debug, PartialEq, Eq, Error)]
pub enum ConfigFault {
    /// It is no TOML document, or has other keys, types or numbers than a configuration.
    #[error("config bad")]
    Bad,
    /// An allocation failed.
    #[error("no memory")]
    NoMemory,
}
