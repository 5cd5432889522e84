// Instruments one module: `hufalimpy [FORM SOURCE]`. The module goes to standard output, one line on what was done to standard error.
#![tactic(auto)]

use anyhow::anyhow;
use driver::{Files, LARGEST, Stop, instrument_in_tables};
use input::{Settings, read_settings};
use std::io::Write;
use std::path::{Path, PathBuf};
use std::process::ExitCode;
use std::{env, fs};

// More bytes than a module prints.
const OUT: usize = 393216;

// A file that has to be there. What goes wrong is told where it is found: an `anyhow::Error` keeps 120 bytes, and a path may be longer.
fn read(rt: &HostRuntime, path: &str) -> anyhow::Result<Vec<u8>> {
    match fs::read(rt, path) {
        Ok(bytes) => Ok(bytes),
        Err(_) => {
            eprintln!(rt; "cannot read {path}")?;
            Err(anyhow!("no file"))
        }
    }
}

// The path of a file beside the form.
fn beside(rt: &HostRuntime, form: &str, name: &str) -> anyhow::Result<PathBuf> {
    Ok(Path::new(form).with_file_name(rt.alloc(), name)?)
}

// A file beside the form that need not be there.
fn read_beside(rt: &HostRuntime, form: &str, name: &str) -> anyhow::Result<Vec<u8>> {
    let path = beside(rt, form, name)?;
    if fs::exists(rt, path.as_str())? {
        read(rt, path.as_str())
    } else {
        Ok(Vec::new(rt.alloc()))
    }
}

// The options that a file gives; a match, since telling of a bad line may fail too.
fn settings_of<'a>(
    rt: &HostRuntime,
    form: &str,
    options: &'a [u8],
) -> anyhow::Result<Settings<'a>> {
    match read_settings(options, Settings::default()) {
        Ok(settings) => Ok(settings),
        Err(line) => {
            let path = beside(rt, form, "in.options")?;
            let path = path.as_str();
            eprintln!(rt; "{path} {line}: expected dev, given, reg, sig or full with its value")?;
            Err(anyhow!("bad line"))
        }
    }
}

// Says why there is no module, a bad line with the file that it stands in.
fn tell_stop(rt: &HostRuntime, stop: Stop, form: &str) -> anyhow::Result<()> {
    match stop {
        Stop::Refused(..) => eprintln!(rt; "{stop}")?,
        Stop::NoteLine(_) => {
            let path = beside(rt, form, "in.notes")?;
            let path = path.as_str();
            eprintln!(rt; "{path} {stop}")?;
        }
    }
    Ok(())
}

fn instrument_files(rt: &HostRuntime, form_path: &str, source_path: &str) -> anyhow::Result<()> {
    let heap = rt.alloc();
    let form = read(rt, form_path)?;
    let source = read(rt, source_path)?;
    let notes = read_beside(rt, form_path, "in.notes")?;
    let options = read_beside(rt, form_path, "in.options")?;
    let settings = settings_of(rt, form_path, options.as_slice())?;
    let files = Files {
        form: form.as_slice(),
        source: source.as_slice(),
        notes: notes.as_slice(),
        settings,
    };
    let mut scratch = vec![in heap; 0u8; notes.len()]?;
    let mut out = vec![in heap; 0u8; OUT]?;
    match instrument_in_tables(&files, LARGEST, scratch.as_mut_slice(), out.as_mut_slice()) {
        Ok(done) => {
            let bytes = out.as_slice();
            rt.stdout().write_all(&bytes[..done.printed])?;
            eprintln!(rt; "{done}")?;
            Ok(())
        }
        Err(stop) => {
            tell_stop(rt, stop, form_path)?;
            Err(anyhow!("refused"))
        }
    }
}

fn run(rt: &HostRuntime) -> anyhow::Result<()> {
    let mut args = env::args(rt)?;
    let _program = args.next();
    match (args.next(), args.next(), args.next()) {
        (None, None, None) => instrument_files(rt, "in.form", "in.src"),
        (Some(form), Some(source), None) => instrument_files(rt, form.as_str(), source.as_str()),
        _ => {
            eprintln!(rt; "expected no arguments, or FORM and SOURCE")?;
            Err(anyhow!("bad arguments"))
        }
    }
}

// What went wrong has been told by then, in one line: the error itself is not printed.
fn main(rt: HostRuntime) -> ExitCode {
    match run(&rt) {
        Ok(()) => ExitCode::SUCCESS,
        Err(_) => ExitCode::FAILURE,
    }
}
