// Prints a module in the text form. Each form is written into the rest of the buffer.
ghost use Rattle.std.specs.Prelude.{◌≡◌, ◌^◌, ◌<◌, ◌≤◌, ◌∷◌, length};
ghost use Rattle.lex.specs.Written.{over};
ghost use Rattle.tables.specs.Modules.{node_at, bytes_at};
ghost use Rattle.walk.specs.Trees.{Tree, flat};
ghost use Rattle.grammar.specs.Forms.{head, printed};
ghost use Rattle.printer.specs.Held.{saying, held};
ghost use Rattle.printer.specs.Output.{Writes, WritesForm};
ghost use Rattle.printer.specs.Printing.{PutsForm, answer, after, Kept};

use crate::pieces::Output;
use grammar::kind_word;
use tables::{Fault, Module};

impl Output<'_> {
    // A form up to its first part: bracket, kind, span and label.
    fn head(&mut self, m: &Module, at: usize)
        ensures writes { Writes (40 ∷ head (saying (node_at m.now.nodes.now at) (bytes_at m.now.text.now (node_at m.now.nodes.now at).text))) self.old self.new }
        ensures few { length (40 ∷ head (saying (node_at m.now.nodes.now at) (bytes_at m.now.text.now (node_at m.now.nodes.now at).text))) ≤ 131104 }
        ensures small { (node_at m.now.nodes.now at).size < 2 ^ 16 }
    {
        let node = m.node(at);
        self.bytes(b"(");
        self.bytes(kind_word(node.kind));
        self.number(node.span.lo);
        self.number(node.span.hi);
        self.label(node, m.name(at));
    }

    // The form at `at`, whose nodes end before `end`.
    #[cycle(form)]
    fn form(&mut self, m: &Module, at: usize, end: usize)
        ensures { WritesForm m.now.nodes.now m.now.text.now at end self.old self.new }
    {
        self.put(
            |rest|
                ensures { PutsForm m.entry.now.nodes.now m.entry.now.text.now at end rest.old rest.new result }
            { put_form(m, at, end, rest) },
        );
    }
}

// The form at `at`, whose nodes end before `end`, over the front of the buffer; answers how many bytes it has.
#[cycle(form)]
fn put_form(m: &Module, at: usize, end: usize, out: &mut [u8]) -> usize
    ensures { PutsForm m.now.nodes.now m.now.text.now at end out.old out.new result }
{
    let mut w = Output { out, n: 0 };
    w.head(m, at);
    for p in m.siblings(at.saturating_add(1), end) {
        let next = m.next(p).min(end);
        w.bytes(b" ");
        w.form(m, p, next);
    }
    w.bytes(b")");
    w.n
}

// The whole module, one form a line.
fn put_module(m: &Module, out: &mut [u8]) -> usize
    ensures { (t : Tree) → m.now.nodes.now ≡ flat t → (result ≡ length (printed (held m.now.text.now t))) × (out.new ≡ over out.old (printed (held m.now.text.now t))) }
{
    let mut w = Output { out, n: 0 };
    w.head(m, 0);
    w.bytes(b")\n");
    let end = m.nodes.len();
    for p in m.siblings(1, end) {
        let next = m.next(p).min(end);
        w.form(m, p, next);
        w.bytes(b"\n");
    }
    w.n
}

// Prints the module from the buffer's start, and answers the bytes written; refuses with the bytes needed, the buffer unaltered, where it is shorter.
pub fn print(m: &Module, out: &mut [u8]) -> Result<usize, Fault>
    ensures answer { (t : Tree) → m.now.nodes.now ≡ flat t → result ≡ answer (printed (held m.now.text.now t)) out.old }
    ensures after { (t : Tree) → m.now.nodes.now ≡ flat t → out.new ≡ after (printed (held m.now.text.now t)) out.old }
    ensures kept { Kept out.old result out.new }
{
    let needed = put_module(m, &mut []);
    if needed > out.len() {
        return Err(Fault::ShortBuffer(needed));
    }
    put_module(m, out);
    Ok(needed)
}
