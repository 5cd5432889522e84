// The nodes that a run writes, one after the other.
use crate::pass::Registration;
use hooks::{Hook, HookCall};
use tables::{Fault, Kind, List, Module, Node, Place, Span, Word, narrow};

#[derive(Drop)]
pub(crate) struct Output<'w> {
    pub(crate) nodes: List<'w, Node>,
    // the text size of what was written, and what it may be
    pub(crate) size: usize,
    pub(crate) limit: usize,
}

impl<'w> Output<'w> {
    // Writes a node, and says where it stands.
    pub(crate) fn put(&mut self, node: Node) -> Result<usize, Fault> {
        let size = self.size.saturating_add(node.text.len as usize);
        if size > self.limit {
            return Err(Fault::TooLarge);
        }
        self.size = size;
        let at = self.nodes.len();
        self.nodes.push(node)?;
        Ok(at)
    }

    // Notes how many nodes a form has, now that it has been written.
    pub(crate) fn finish(&mut self, at: usize) {
        if let Some(node) = self.nodes.get(at) {
            let size = narrow(self.nodes.len().saturating_sub(at));
            self.nodes.put(at, Node { size, ..node });
        }
    }

    pub(crate) fn make(&mut self, kind: Kind) -> Result<usize, Fault> {
        self.put(Node::made(kind))
    }

    pub(crate) fn make_handle(&mut self, letter: Word, number: u16) -> Result<(), Fault> {
        self.put(Node {
            word: letter,
            number,
            ..Node::made(Kind::Hand)
        })?;
        Ok(())
    }

    // An `id` in scope 0, or a `str`.
    pub(crate) fn make_text(&mut self, kind: Kind, text: Place) -> Result<(), Fault> {
        self.put(Node {
            text,
            ..Node::made(kind)
        })?;
        Ok(())
    }

    pub(crate) fn make_var(&mut self) -> Result<usize, Fault> {
        self.put(Node {
            word: Word::Var,
            ..Node::made(Kind::Var)
        })
    }

    pub(crate) fn make_bool(&mut self, value: bool) -> Result<(), Fault> {
        self.put(Node {
            word: Word::from(value),
            ..Node::made(Kind::Bool)
        })?;
        Ok(())
    }

    pub(crate) fn make_spanned(&mut self, kind: Kind, span: Span) -> Result<usize, Fault> {
        self.put(Node {
            span,
            ..Node::made(kind)
        })
    }

    // A copy of an identifier or a property.
    pub(crate) fn copy(&mut self, m: &Module, at: usize) -> Result<(), Fault> {
        self.put(m.node(at))?;
        Ok(())
    }

    // `_s();`
    pub(crate) fn make_call_stmt(&mut self, handle: u16) -> Result<(), Fault> {
        let statement = self.make(Kind::Expr)?;
        let call = self.make(Kind::Call)?;
        self.make_handle(Word::S, handle)?;
        self.finish(call);
        self.finish(statement);
        Ok(())
    }

    // `_s = sign()` as a declarator.
    pub(crate) fn make_declarator(&mut self, handle: u16, sign: Place) -> Result<(), Fault> {
        let decl = self.make(Kind::Decl)?;
        self.make_handle(Word::S, handle)?;
        let call = self.make(Kind::Call)?;
        self.make_text(Kind::Id, sign)?;
        self.finish(call);
        self.finish(decl);
        Ok(())
    }

    // `register(_c, "Name");`
    pub(crate) fn register_component(
        &mut self,
        registration: Registration,
        register: Place,
    ) -> Result<(), Fault> {
        let statement = self.make(Kind::Expr)?;
        let call = self.make(Kind::Call)?;
        self.make_text(Kind::Id, register)?;
        self.make_handle(Word::C, registration.handle)?;
        self.make_text(Kind::Str, registration.name)?;
        self.finish(call);
        self.finish(statement);
        Ok(())
    }

    // `_c = Name;`, with the span of its right side.
    pub(crate) fn make_assign_stmt(
        &mut self,
        m: &Module,
        handle: u16,
        ident: usize,
    ) -> Result<(), Fault> {
        let statement = self.make(Kind::Expr)?;
        let assign = self.make_spanned(Kind::Assign, m.node(ident).span)?;
        self.make_handle(Word::C, handle)?;
        self.copy(m, ident)?;
        self.finish(assign);
        self.finish(statement);
        Ok(())
    }

    // `_c` as a declarator.
    fn declare_component(&mut self, handle: u16) -> Result<(), Fault> {
        let decl = self.make(Kind::Decl)?;
        self.make_handle(Word::C, handle)?;
        self.finish(decl);
        Ok(())
    }

    // `var _c, ...;`
    pub(crate) fn declare_components(
        &mut self,
        registrations: &List<Registration>,
    ) -> Result<(), Fault> {
        let var = self.make_var()?;
        for registration in registrations.as_slice() {
            self.declare_component(registration.handle)?;
        }
        self.finish(var);
        Ok(())
    }

    // The callee of a hook in the list of custom hooks: an identifier as it is, a member made anew over its parts.
    pub(crate) fn make_callee(&mut self, m: &Module, hook: Hook, sign: Place) -> Result<(), Fault> {
        match hook.callee {
            HookCall::Ident(ident) => self.copy(m, ident as usize),
            HookCall::Member(object, prop) => {
                let member = self.make(Kind::Member)?;
                self.copy(m, object as usize)?;
                self.copy(m, prop as usize)?;
                self.finish(member);
                Ok(())
            }
            HookCall::Handle(_) => self.make_text(Kind::Id, sign),
        }
    }
}
