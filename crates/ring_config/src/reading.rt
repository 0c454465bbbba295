//! Reads a configuration: a TOML document with three integers and no other key.
ghost use Rattle.std.specs.Prelude.{◌≡◌, ℕ, Err, IfNone, IfOk, IfSome, option_and_then};
ghost use Rattle.toml.specs.Data.{as_integer, get_member};
ghost use Rattle.toml.specs.View.{table_view};
ghost use Rattle.ring_config.specs.Reading.{Holds, IsConfigOf, Spells};

use crate::config::{Config, ConfigFault};
use std::alloc::Global;
use toml::Table;

/// Returns the configuration that a text spells.
///
/// The text is a TOML document with three keys and no other. These are `workers` with an integer
/// from 1 to 8, `inbox` with one from 1 to 65536, and `port` with one from 1 to 65535. Every other
/// text gives `Bad`, unless an allocation fails. A text that spells a configuration never does.
pub fn read_config(alloc: Global, bytes: &[u8]) -> Result<Config, ConfigFault>
    ensures ok { IfOk result (Spells bytes.now) }
    ensures bad { result ≡ Err ConfigFault.Bad → (c : Config) → Spells bytes.now c → ⊥ }
{
    match toml::table_from_slice(alloc, bytes) {
        Ok(table) => match config_of(&table) {
            Some(config) => Ok(config),
            None => Err(ConfigFault::Bad),
        },
        Err(error) => {
            if error.is_memory() {
                Err(ConfigFault::NoMemory)
            } else {
                Err(ConfigFault::Bad)
            }
        }
    }
}

// Returns the configuration in a table.
#[tactic(auto, using(crate::proofs::Counts::count_view))]
fn config_of(table: &Table) -> Option<Config>
    ensures some { IfSome result (IsConfigOf (table_view table.now)) }
    ensures none { IfNone result ((c : Config) → IsConfigOf (table_view table.now) c → ⊥) }
{
    if table.len() != 3 {
        return None;
    }
    let Some(workers) = number_at(table, "workers", 8) else {
        return None;
    };
    let Some(inbox) = number_at(table, "inbox", 65536) else {
        return None;
    };
    let Some(port) = number_at(table, "port", 65535) else {
        return None;
    };
    Some(Config {
        workers: workers as usize,
        inbox: inbox as usize,
        port: port as u16,
    })
}

// Returns the number of a key, from 1 to `most`.
fn number_at(table: &Table, key: &str, most: u32) -> Option<u32>
    ensures some { IfSome result (Holds (table_view table.now) key.now most) }
    ensures none { IfNone result ((n : ℕ) → Holds (table_view table.now) key.now most n → ⊥) }
{
    let Some(value) = integer_at(table, key) else {
        return None;
    };
    if value < 1 || value > i64::from(most) {
        return None;
    }
    Some(value as u32)
}

// Returns the integer of a key.
fn integer_at(table: &Table, key: &str) -> Option<i64>
    ensures { result ≡ option_and_then as_integer (get_member key.now (table_view table.now)) }
{
    match table.get(key) {
        Some(value) => value.as_integer(),
        None => None,
    }
}
