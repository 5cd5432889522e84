// The options of a run as a file of lines: `dev`, `given`, `reg`, `sig`, `full`, each with its value.
use crate::line::split_once;
use crate::lines::{BadLine, Lines};

// `given` stands beside the names and not around them: lines come in any order, and the last for an option holds whatever `given` says.
#[derive(Clone, Copy, Debug, PartialEq, Eq)]
pub struct Settings<'a> {
    pub dev: bool,
    pub given: bool,
    pub reg: &'a [u8],
    pub sig: &'a [u8],
    pub full: bool,
}

// What a run is told where no file says otherwise.
impl Default for Settings<'_> {
    fn default() -> Self {
        Settings {
            dev: true,
            given: true,
            reg: b"$RefreshReg$",
            sig: b"$RefreshSig$",
            full: true,
        }
    }
}

fn flag(value: &[u8]) -> Option<bool> {
    match value {
        b"0" => Some(false),
        b"1" => Some(true),
        _ => None,
    }
}

impl<'a> Settings<'a> {
    // The settings with one line more, or none if the line says none of them.
    fn with_line(self, line: &'a [u8]) -> Option<Settings<'a>> {
        let (word, value) = split_once(line, b' ')?;
        Some(match word {
            b"dev" => Settings {
                dev: flag(value)?,
                ..self
            },
            b"given" => Settings {
                given: flag(value)?,
                ..self
            },
            b"full" => Settings {
                full: flag(value)?,
                ..self
            },
            b"reg" => Settings { reg: value, ..self },
            b"sig" => Settings { sig: value, ..self },
            _ => return None,
        })
    }
}

// Reads the options of a file.
pub fn read_settings<'a>(text: &'a [u8], start: Settings<'a>) -> Result<Settings<'a>, BadLine> {
    let mut settings = start;
    for (i, line) in Lines::of(text).enumerate() {
        settings = settings.with_line(line).ok_or(BadLine(i + 1))?;
    }
    Ok(settings)
}
