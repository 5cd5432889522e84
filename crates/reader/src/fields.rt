// What a form says right after its kind.
ghost use Rattle.std.specs.Prelude.{◌≡◌};
ghost use Rattle.reader.specs.Machine.{fill, hi_from, next_field, after_span, after_name, kept_at};

use crate::mode::Field;
use grammar::{Label, variables_of};
use lex::{put_bytes, read_number};
use tables::{Node, Place, is_name, narrow};

fn after_span(label: Label) -> Field
    ensures { result ≡ after_span label }
{
    match label {
        Label::Ident | Label::Name => Field::Name,
        Label::Scope => Field::Scope,
        Label::Variables => Field::Variables,
        _ => Field::End,
    }
}

fn after_name(label: Label) -> Field
    ensures { result ≡ after_name label }
{
    match label {
        Label::Ident => Field::Scope,
        _ => Field::End,
    }
}

// The field after another.
pub(crate) fn next_field(label: Label, field: Field) -> Field
    ensures { result ≡ next_field label field }
{
    match field {
        Field::Lo => Field::Hi,
        Field::Hi => after_span(label),
        Field::Name => after_name(label),
        _ => Field::End,
    }
}

fn with_lo(mut node: Node, limit: u32, run: &[u8]) -> Option<Node>
    ensures { result ≡ fill limit 0 Field.Lo run.now node }
{
    node.span.lo = read_number(run, limit)?;
    Some(node)
}

// hi is at least lo; after 0 it is 0.
fn with_hi(mut node: Node, limit: u32, run: &[u8]) -> Option<Node>
    ensures { result ≡ fill limit 0 Field.Hi run.now node }
{
    let lo = node.span.lo;
    let limit = if lo == 0 { 0 } else { limit };
    node.span.hi = read_number(run, limit).filter(|&hi| lo <= hi)?;
    Some(node)
}

fn with_name(mut node: Node, bytes: usize, run: &[u8]) -> Option<Node>
    ensures { result ≡ fill 0 bytes Field.Name run.now node }
{
    node.text = Place {
        at: narrow(bytes),
        len: narrow(run.len()),
    };
    is_name(run).then_some(node)
}

fn with_scope(mut node: Node, run: &[u8]) -> Option<Node>
    ensures { result ≡ fill 0 0 Field.Scope run.now node }
{
    node.scope = u16::try_from(read_number(run, 65535)?).ok()?;
    Some(node)
}

fn with_variables(mut node: Node, run: &[u8]) -> Option<Node>
    ensures { result ≡ fill 0 0 Field.Variables run.now node }
{
    node.word = variables_of(run)?;
    Some(node)
}

// The node after a field has been read, unless the run is none that the field may have.
pub(crate) fn fill(node: Node, field: Field, run: &[u8], limit: u32, bytes: usize) -> Option<Node>
    ensures { result ≡ fill limit bytes field run.now node }
{
    match field {
        Field::Lo => with_lo(node, limit, run),
        Field::Hi => with_hi(node, limit, run),
        Field::Name => with_name(node, bytes, run),
        Field::Scope => with_scope(node, run),
        Field::Variables => with_variables(node, run),
        Field::End => None,
    }
}

// Writes a name behind the first bytes of the text table, as far as it has room.
pub(crate) fn keep(text: &mut [u8], bytes: usize, run: &[u8])
    ensures { text.new ≡ kept_at text.old bytes run.now }
{
    let from = bytes.min(text.len());
    put_bytes(&mut text[from..], run);
}
