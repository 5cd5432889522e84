// What comes of a case.
use crate::buffers::Buffers;
use crate::case::Case;
use comments::Arrival;
use driver::{Call, Lent};
use input::{Lines, note_line, split_once, unquote};
use session::note;
use std::io::Write;
use std::{fmt, io};
use tables::{Fault, List};

// A load of the first so many bytes of a form.
#[derive(Clone, Copy)]
struct Cut(usize);

impl fmt::Display for Cut {
    fn fmt<W: fmt::Write>(&self, f: &mut fmt::Formatter<W>) -> fmt::Result {
        let length = self.0;
        write!(f, "cut {length}")
    }
}

fn tell<C: fmt::Display>(rt: &HostRuntime, call: &C, r: Result<usize, Fault>) -> io::Result<()> {
    match r {
        Ok(n) => println!(rt; "{call} ok {n}"),
        Err(fault) => {
            let number = fault.number();
            let place = fault.place();
            println!(rt; "{call} no {number} {place}")
        }
    }
}

// The byte that an escape in a line of source stands for: any byte may be escaped here, where a note's text has three.
fn escaped(b: u8) -> u8 {
    if b == b'n' { b'\n' } else { b }
}

// Writes a line of source, escapes undone, as far as it fits, and answers what was written.
fn unescape<'o>(line: &[u8], out: &'o mut [u8]) -> &'o [u8] {
    let mut bytes = line.iter();
    let mut plain = List::over(&mut *out);
    // no `for`: after a backslash one byte more is taken
    while let Some(b) = bytes.next() {
        let byte = match b {
            b'\\' => bytes.next().map(|b| escaped(*b)),
            other => Some(*other),
        };
        if !byte.is_some_and(|byte| plain.push(byte).is_ok()) {
            break;
        }
    }
    let n = plain.len();
    out.get(..n).unwrap_or(b"")
}

// Writes the source of a case, and answers what was written.
fn source_of<'o>(case: &Case, out: &'o mut [u8]) -> &'o [u8] {
    let Some(fill) = case.fill else {
        return unescape(case.source, out);
    };
    let n = fill.min(out.len());
    out[..n].fill(b'x');
    &out[..n]
}

// Writes the form of a case, and answers what was written.
fn form_of<'o>(case: &Case, out: &'o mut [u8]) -> &'o [u8] {
    match case.quoted {
        Some(quoted) => unquote(quoted, out).unwrap_or(b""),
        None => {
            let n = case.form.len().min(out.len());
            out[..n].copy_from_slice(&case.form[..n]);
            &out[..n]
        }
    }
}

// Loads every shorter beginning of a form.
fn cuts(rt: &HostRuntime, form: &[u8], source: &[u8], lent: &mut Lent) -> io::Result<()> {
    // by number, since the number is told
    for k in 0..form.len() {
        tell(
            rt,
            &Cut(k),
            lent.load(&form[..k], source).map(|sizes| sizes.nodes),
        )?;
    }
    Ok(())
}

// Notes the lines of a case that are notes. Unlike the driver it tells each answer and goes on after a refusal.
fn take_notes(
    rt: &HostRuntime,
    notes: &[u8],
    source: &[u8],
    store: &mut Arrival,
    scratch: &mut [u8],
) -> io::Result<()> {
    for line in Lines::of(notes) {
        let Some((b"note", line)) = split_once(line, b' ') else {
            continue;
        };
        let Some(read) = note_line(line, scratch) else {
            continue;
        };
        tell(
            rt,
            &Call::Note,
            note(store, source, read.side, read.position, read.text),
        )?;
    }
    Ok(())
}

// Runs a case in lent tables.
pub fn run_case(
    rt: &HostRuntime,
    case: &Case,
    lent: &mut Lent,
    buffers: &mut Buffers,
) -> io::Result<()> {
    rt.stdout().write_all(b"case ")?;
    rt.stdout().write_all(case.name)?;
    rt.stdout().write_all(b"\n")?;
    let source = source_of(case, buffers.source.as_mut_slice());
    let form = form_of(case, buffers.form.as_mut_slice());
    if case.cuts {
        return cuts(rt, form, source, lent);
    }
    let mut store = Arrival::new();
    let loaded = lent.load(form, source);
    tell(rt, &Call::Load, loaded.map(|sizes| sizes.nodes))?;
    let Ok(loaded) = loaded else {
        return Ok(());
    };
    take_notes(
        rt,
        case.notes,
        source,
        &mut store,
        buffers.note.as_mut_slice(),
    )?;
    let ran = lent.run(loaded, source, &case.settings, &store);
    tell(
        rt,
        &Call::Run,
        ran.map(|sizes| sizes.nodes.saturating_sub(loaded.nodes)),
    )?;
    let out = buffers.printed.as_mut_slice();
    let room = case.room.min(out.len());
    let printed = lent.print(ran.unwrap_or(loaded), source, &mut out[..room]);
    tell(rt, &Call::Print, printed)?;
    if let Ok(n) = printed {
        rt.stdout().write_all(&out[..n])?;
    }
    Ok(())
}
