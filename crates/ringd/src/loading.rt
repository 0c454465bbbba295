//! The file of the configuration.
ghost use Rattle.std.specs.Prelude.{◌≡◌, ◌≤◌, IfErr, IfOk, IfSome, Err, length};
ghost use Rattle.ring_config.specs.Reading.{Spells};
ghost use Rattle.ring_config.specs.declared.config.Config.{Config};
ghost use Rattle.ringd.specs.private.Run.{IsOfFile, IsOfReading};

use ring_accept::ProgramFault;
use ring_config::{Config, ConfigFault, read_config};
use std::alloc::Global;
use std::fs;
use std::fs::Files;
use std::io::{ErrorKind, Read};

// the most bytes of a configuration
const LONGEST: usize = 65536;

/// Returns the configuration in a file.
pub(crate) fn load<R: Files + AllocGlobal>(rt: &R, path: &str) -> Result<Config, ProgramFault>
    ensures { IfErr result IsOfFile }
{
    let file = match fs::open(rt, path) {
        Ok(file) => file,
        Err(error) if error.kind() == ErrorKind::OutOfMemory => return Err(ProgramFault::NoMemory),
        Err(_) => return Err(ProgramFault::Unreadable),
    };
    let text = read_whole(rt.alloc(), file)?;
    config_in(rt.alloc(), text.as_slice())
}

// Returns the configuration that a text spells. It is refused as bad only if it spells none.
fn config_in(alloc: Global, text: &[u8]) -> Result<Config, ProgramFault>
    requires { length text.now ≤ 65536 }
    ensures spelled { IfOk result (Spells text.now) }
    ensures bad { result ≡ Err ProgramFault.Bad → (config : Config) → Spells text.now config → ⊥ }
    ensures fault { IfErr result IsOfFile }
{
    match read_config(alloc, text) {
        Ok(config) => Ok(config),
        Err(ConfigFault::Bad) => Err(ProgramFault::Bad),
        Err(ConfigFault::NoMemory) => Err(ProgramFault::NoMemory),
    }
}

// Returns all bytes that a reader has left, unless they are too long for a configuration.
fn read_whole<R: Read + Drop>(alloc: Global, reader: R) -> Result<Vec<u8>, ProgramFault>
    ensures short { IfOk result (λ text. length text.items ≤ 65536) }
    ensures whole { IfOk result (λ text. IfSome (R.remaining reader) (λ left. text.items ≡ left)) }
    ensures fault { IfErr result IsOfReading }
{
    let mut text = Vec::new(alloc);
    match reader.take(LONGEST as u64 + 1).read_to_end(&mut text) {
        Ok(_) if text.len() <= LONGEST => Ok(text),
        Err(error) if error.kind() == ErrorKind::OutOfMemory => Err(ProgramFault::NoMemory),
        _ => Err(ProgramFault::Unreadable),
    }
}
