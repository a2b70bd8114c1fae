ghost use Rattle.std.specs.Prelude.{◌≡◌, Some, IfOk, string_bytes};
ghost use Rattle.dch_check.specs.Refusals.{refusal, plain, of_key, of_direction, of_place, of_bearer};

use crate::which::{Which, which_word};
use dch_bits::NoMemory;
use dch_config::ConfigError;
use dch_script::dir_word;
use dch_types::Dir;
use std::alloc::Global;

/// The line that says why a configuration is refused. Want of memory has none.
pub fn refusal_line(alloc: Global, which: Which, error: &ConfigError) -> Result<String, NoMemory>
    ensures { IfOk result (λ line. refusal which error.now ≡ Some (string_bytes line)) }
{
    match error {
        ConfigError::NoMemory => Err(NoMemory),
        ConfigError::NotToml => plain_line(alloc, which),
        ConfigError::Key(path) => path_line(alloc, which, 11, "key", path.as_str()),
        ConfigError::Range(path) => path_line(alloc, which, 12, "range", path.as_str()),
        ConfigError::TrchCount(dir) => direction_line(alloc, which, 13, *dir),
        ConfigError::FormatCount(dir, i) => place_line(
            alloc,
            which,
            14,
            *dir,
            "channel",
            u16::from(*i),
        ),
        ConfigError::NoIdleFormat(dir, i) => place_line(
            alloc,
            which,
            15,
            *dir,
            "channel",
            u16::from(*i),
        ),
        ConfigError::CombinationCount(dir) => direction_line(alloc, which, 16, *dir),
        ConfigError::NoSuchFormat(dir, j) => place_line(alloc, which, 17, *dir, "combination", *j),
        ConfigError::NotClosed(dir, j) => place_line(alloc, which, 18, *dir, "combination", *j),
        ConfigError::BlockSize(dir, i) => place_line(
            alloc,
            which,
            19,
            *dir,
            "channel",
            u16::from(*i),
        ),
        ConfigError::NoCheck(b) => bearer_line(alloc, which, 20, *b),
        ConfigError::PduSize(b) => bearer_line(alloc, which, 21, *b),
        ConfigError::Window(b) => bearer_line(alloc, which, 22, *b),
        ConfigError::TtiBits(dir, i) => place_line(
            alloc,
            which,
            23,
            *dir,
            "channel",
            u16::from(*i),
        ),
    }
}

fn plain_line(alloc: Global, which: Which) -> Result<String, NoMemory>
    ensures { IfOk result (λ line. string_bytes line ≡ plain which) }
{
    let which = which_word(which);
    let line = format!(in alloc; "refused 10{which}\n")?;
    Ok(line)
}

fn path_line(
    alloc: Global,
    which: Which,
    number: u8,
    what: &str,
    path: &str,
) -> Result<String, NoMemory>
    ensures { IfOk result (λ line. string_bytes line ≡ of_key which number what.now path.now) }
{
    let which = which_word(which);
    let line = format!(in alloc; "refused {number}{which} {what}={path}\n")?;
    Ok(line)
}

fn direction_line(alloc: Global, which: Which, number: u8, dir: Dir) -> Result<String, NoMemory>
    ensures { IfOk result (λ line. string_bytes line ≡ of_direction which number dir) }
{
    let which = which_word(which);
    let dir = dir_word(dir);
    let line = format!(in alloc; "refused {number}{which} {dir}\n")?;
    Ok(line)
}

fn place_line(
    alloc: Global,
    which: Which,
    number: u8,
    dir: Dir,
    what: &str,
    place: u16,
) -> Result<String, NoMemory>
    ensures { IfOk result (λ line. string_bytes line ≡ of_place which number dir what.now place) }
{
    let which = which_word(which);
    let dir = dir_word(dir);
    let line = format!(in alloc; "refused {number}{which} {dir} {what}={place}\n")?;
    Ok(line)
}

/// The line of a refusal that names a bearer.
pub fn bearer_line(alloc: Global, which: Which, number: u8, bearer: u8) -> Result<String, NoMemory>
    ensures { IfOk result (λ line. string_bytes line ≡ of_bearer which number bearer) }
{
    let which = which_word(which);
    let line = format!(in alloc; "refused {number}{which} bearer={bearer}\n")?;
    Ok(line)
}
