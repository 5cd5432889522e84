// Signature texts, appended to the text table behind the names of the loaded module.
ghost use Rattle.refresh.specs.Appended.{Extends};

use hooks::{Hook, HookCall};
use tables::{Fault, List, Module, Node, Place, Span, node_at, snippet_of};

// A piece of a signature: bytes, or a name that stands in the text table.
#[derive(Clone, Copy)]
enum Piece<'s> {
    Bytes(&'s [u8]),
    Name(Place),
}

// What stays of the text table relates it before and after, so it stands in each contract and not in a type.
fn append(text: &mut List<u8>, piece: Piece) -> Result<(), Fault>
    ensures { Extends text.old text.new }
{
    match piece {
        Piece::Bytes(bytes) => text.extend_from_slice(bytes)?,
        Piece::Name(name) => text.extend_from_within(name.at as usize, name.len as usize)?,
    }
    Ok(())
}

// A module as loaded, but for its texts: those of the run are appended to them while it is read.
#[derive(Clone, Copy)]
pub(crate) struct Loaded<'n, 's> {
    pub(crate) nodes: &'n [Node],
    pub(crate) source: &'s [u8],
}

impl<'n, 's> Loaded<'n, 's> {
    // The module with the text table, in use or not: the sizes of a run need not be those of the module that stands there.
    pub(crate) fn module<'t>(&self, text: &'t List<u8>) -> Module<'n, 't, 's> {
        Module {
            nodes: self.nodes,
            text: text.memory(),
            source: self.source,
        }
    }

    // The bytes that a node has in the source, if there is one.
    fn snippet(&self, at: Option<u16>) -> &'s [u8] {
        let span = at.map_or(Span::DUMMY, |at| node_at(self.nodes, at as usize).span);
        snippet_of(self.source, span)
    }

    // The place of a hook's name; `sign` is that of the signature name.
    fn hook_name(&self, hook: Hook, sign: Place) -> Place {
        match hook.callee {
            HookCall::Ident(at) => node_at(self.nodes, at as usize).text,
            HookCall::Member(_, prop) => node_at(self.nodes, prop as usize).text,
            HookCall::Handle(_) => sign,
        }
    }

    // A hook's signature in pieces: a line feed unless it is the first, its name, and in braces the key, which is the snippet of its left side and
    // in brackets that of its argument.
    fn pieces(&self, hook: Hook, sign: Place, first: bool) -> [Piece<'s>; 8] {
        let keyed = hook.argument.is_some();
        [
            Piece::Bytes(if first { b"" } else { b"\n" }),
            Piece::Name(self.hook_name(hook, sign)),
            Piece::Bytes(b"{"),
            Piece::Bytes(self.snippet(hook.left)),
            Piece::Bytes(if keyed { b"(" } else { b"" }),
            Piece::Bytes(self.snippet(hook.argument)),
            Piece::Bytes(if keyed { b")" } else { b"" }),
            Piece::Bytes(b"}"),
        ]
    }

    #[tactic(auto, using(crate::proofs::Extending::still, crate::proofs::Extending::further))]
    fn append_hook(
        &self,
        hook: Hook,
        sign: Place,
        first: bool,
        text: &mut List<u8>,
    ) -> Result<(), Fault>
        ensures { Extends text.old text.new }
    {
        for piece in self.pieces(hook, sign, first) {
            append(text, piece)?;
        }
        Ok(())
    }

    // Appends the full signature of a list of hooks: one a line.
    #[tactic(auto, using(crate::proofs::Extending::still, crate::proofs::Extending::further))]
    pub(crate) fn append_signature(
        &self,
        hooks: &List<Hook>,
        sign: Place,
        text: &mut List<u8>,
    ) -> Result<(), Fault>
        ensures { Extends text.old text.new }
    {
        for (i, &hook) in hooks.as_slice().iter().enumerate() {
            self.append_hook(hook, sign, i == 0, text)?;
        }
        Ok(())
    }
}
