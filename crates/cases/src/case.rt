// The cases of a table: lines from `case NAME` to `end`.
ghost use Rattle.std.specs.Prelude.{◌<◌, length};
ghost use Rattle.std.specs.Iterator.{at_most};

use input::{Lines, Settings, split_once};
use lex::read_number;

// A case, its parts as they stand in the table. Lines come in any order, so each has a field of its own.
#[derive(Clone, Copy, Debug, PartialEq, Eq)]
pub struct Case<'a> {
    pub name: &'a [u8],
    pub nodes: usize,
    // the source, escapes not undone
    pub source: &'a [u8],
    // a source of so many bytes instead
    pub fill: Option<usize>,
    // the lines that notes are read from
    pub notes: &'a [u8],
    pub settings: Settings<'a>,
    pub room: usize,
    // load every shorter beginning instead
    pub cuts: bool,
    // the form in quotes, if it is given so
    pub quoted: Option<&'a [u8]>,
    pub form: &'a [u8],
}

fn number(run: &[u8]) -> usize {
    read_number(run, 999_999_999).map_or(0, |n| n as usize)
}

// A name, `-` standing for an empty one.
fn name(word: &[u8]) -> &[u8] {
    match word {
        b"-" => b"",
        _ => word,
    }
}

// What follows `options`: its words, those that are missing empty.
fn settings_of<'a>(line: &'a [u8]) -> Settings<'a> {
    let mut words = line.split(|b| *b == b' ');
    Settings {
        dev: matches!(words.next(), Some(b"1")),
        given: matches!(words.next(), Some(b"1")),
        reg: name(words.next().unwrap_or(b"")),
        sig: name(words.next().unwrap_or(b"")),
        full: matches!(words.next(), Some(b"1")),
    }
}

impl<'a> Case<'a> {
    // The case of the lines of notes and a form; of its head no line was read yet.
    fn of(notes: &'a [u8], form: &'a [u8]) -> Case<'a> {
        Case {
            name: b"",
            nodes: 64,
            source: b"",
            fill: None,
            notes,
            settings: Settings::default(),
            room: 65536,
            cuts: false,
            quoted: None,
            form,
        }
    }

    // The case with one line of its head more; notes are read when it runs.
    fn with_line(self, line: &'a [u8]) -> Case<'a> {
        let Some((word, rest)) = split_once(line, b' ') else {
            let cuts = self.cuts || matches!(line, b"cuts");
            return Case { cuts, ..self };
        };
        match word {
            b"case" => Case { name: rest, ..self },
            b"nodes" => Case {
                nodes: number(rest),
                ..self
            },
            b"source" => Case {
                source: rest,
                ..self
            },
            b"fill" => Case {
                fill: Some(number(rest)),
                ..self
            },
            b"options" => Case {
                settings: settings_of(rest),
                ..self
            },
            b"room" => Case {
                room: number(rest),
                ..self
            },
            b"text" => Case {
                quoted: Some(rest),
                ..self
            },
            _ => self,
        }
    }
}

// What stands before the first line that is `word`, and what stands behind it; all and nothing if there is none.
fn split_at_line<'a>(text: &'a [u8], word: &[u8]) -> (&'a [u8], &'a [u8])
    ensures { 0 < length text.now → length result.1.now < length text.now }
{
    let at = Lines::of(text).take_while(|line| *line != word).fold(
        0usize,
        |n, line| n.saturating_add(line.len()).saturating_add(1),
    );
    let (before, from) = text.split_at_checked(at).unwrap_or((text, b""));
    (before, from.get(word.len() + 1..).unwrap_or(b""))
}

// The cases of a table, one after the other.
#[derive(Drop)]
pub struct Cases<'a> {
    rest: &'a [u8],
}

impl<'a> Cases<'a> {
    pub fn of(table: &'a [u8]) -> Cases<'a> {
        Cases { rest: table }
    }
}

impl<'a> Iterator for Cases<'a> {
    type Item = Case<'a>;

    ghost remaining = { λ s. at_most (length s.rest.now) };

    fn next(&mut self) -> Option<Case<'a>> {
        if self.rest.is_empty() {
            return None;
        }
        let (lines, rest) = split_at_line(self.rest, b"end");
        let ended = lines.len() < self.rest.len();
        self.rest = rest;
        let (head, form) = split_at_line(lines, b"form");
        let formed = head.len() < lines.len();
        // without `end`: notes without a `form` behind them are not read, and a form cut inside its last line is none
        let notes = if ended || formed { head } else { b"" };
        let form = if ended || lines.ends_with(b"\n") {
            form
        } else {
            b""
        };
        let mut case = Case::of(notes, form);
        for line in Lines::of(head) {
            case = case.with_line(line);
        }
        Some(case)
    }
}

#[cfg(test)]
mod tests {
    use super::Cases;

    // The notes and the form of the first case.
    fn parts(table: &[u8]) -> (&[u8], &[u8]) {
        Cases::of(table)
            .next()
            .map_or((b"", b""), |case| (case.notes, case.form))
    }

    #[test]
    fn table_stops_inside_a_case(rt: HostRuntime) {
        let lines: &[u8] = b"case a\nnote 0 1 \"\"\n";
        let none: &[u8] = b"";
        let form: &[u8] = b"(module 0 0)\n";
        let table = b"case a\nnote 0 1 \"\"\nform\n(module 0 0)\nend\n";
        assert_eq!(rt; parts(table), (lines, form));
        // before `end`, after a whole line
        assert_eq!(rt;
            parts(b"case a\nnote 0 1 \"\"\nform\n(module 0 0)\n"),
            (lines, form)
        );
        // inside a line of the form
        assert_eq!(rt;
            parts(b"case a\nnote 0 1 \"\"\nform\n(module 0 0)"),
            (lines, none)
        );
        // before `form`
        assert_eq!(rt; parts(lines), (none, none));
    }
}
