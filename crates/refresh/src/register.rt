// Writes the instrumented module: blocks, statements and expressions with their handles and signature calls.
use crate::pass::{HookRegister, Registration};
use crate::plan::{Signature, plan_at};
use hooks::{Hook, HookCall, last_part};
use names::is_builtin_hook;
use tables::{Fault, Kind, List, Module, Place, Span, Word, bytes_at};

// More calls than a module of 65 levels takes, each level at most three.
const NESTING: u16 = 512;

fn is_statement(kind: Kind) -> bool {
    matches!(
        kind,
        Kind::Expr | Kind::Var | Kind::Func | Kind::Return | Kind::If | Kind::Block
    )
}

// A custom hook, by whether it is in one of the scopes that are known.
#[derive(Clone, Copy, Debug, PartialEq, Eq)]
enum CustomHook {
    InScope,
    OutOfScope,
}

// The custom hook that a hook is, if it is one.
fn custom_hook(m: &Module, hook: Hook, sign: Place, scopes: &List<u16>) -> Option<CustomHook> {
    let (name, scope) = match hook.callee {
        HookCall::Ident(ident) => (m.name(ident as usize), m.node(ident as usize).scope),
        HookCall::Member(object, prop) => {
            let object = object as usize;
            if m.node(object).kind != Kind::Id || matches!(m.name(object), b"React") {
                return None;
            }
            (m.name(prop as usize), m.node(object).scope)
        }
        HookCall::Handle(_) => (bytes_at(m.text, sign), 0),
    };
    if is_builtin_hook(name) {
        None
    } else if scopes.as_slice().contains(&scope) {
        Some(CustomHook::InScope)
    } else {
        Some(CustomHook::OutOfScope)
    }
}

impl<'w> HookRegister<'w> {
    // Declares the handles of the functions from `from` to before `end` that stand in no block there.
    fn gen_hook_handle(&mut self, m: &Module, from: usize, end: usize) -> Result<(), Fault> {
        self.list_pending(m, from, end)?;
        if self.functions.len() == 0 {
            return Ok(());
        }
        let var = self.out.make_var()?;
        for &function in self.functions.as_slice() {
            if let Some(signature) = plan_at(&self.plans, function as usize).signature {
                self.out.make_declarator(signature.handle, self.sign)?;
            }
        }
        self.out.finish(var);
        Ok(())
    }

    // The functions that register call each other; the nesting left falls at each call, and at 0 the table is none that load makes.

    // A loaded block, with the call that opens a function's body if it is one.
    #[cycle(registering)]
    fn block(
        &mut self,
        m: &Module,
        at: usize,
        left: u16,
        opening: Option<u16>,
    ) -> Result<(), Fault> {
        let left = left.checked_sub(1).ok_or(Fault::TooLarge)?;
        let node = m.node(at);
        let block = self.out.put(node)?;
        if let Some(handle) = opening {
            self.out.make_call_stmt(handle)?;
        }
        self.gen_hook_handle(m, at.saturating_add(1), m.next(at))?;
        self.current_scope.push(node.scope)?;
        for p in m.parts(at) {
            self.statement(m, p, left)?;
            self.sign_after(m, p)?;
        }
        self.current_scope.pop();
        self.out.finish(block);
        Ok(())
    }

    #[cycle(registering)]
    fn statement(&mut self, m: &Module, at: usize, left: u16) -> Result<(), Fault> {
        let left = left.checked_sub(1).ok_or(Fault::TooLarge)?;
        match m.node(at).kind {
            Kind::Block => self.block(m, at, left, None),
            Kind::Func | Kind::Deffn => self.function(m, at, left),
            _ => self.parts(m, at, left),
        }
    }

    // An expression, a pattern or a part of one. A `fn` or `arrow` with hooks is replaced by its signature call, unless it initialises a plain `id`.
    #[cycle(registering)]
    fn expression(&mut self, m: &Module, at: usize, left: u16) -> Result<(), Fault> {
        let left = left.checked_sub(1).ok_or(Fault::TooLarge)?;
        let plan = self.plan(at);
        match (m.node(at).kind, plan.signature, plan.initialiser) {
            (Kind::Fn | Kind::Arrow, Some(signature), false) => {
                let call = self.out.make(Kind::Call)?;
                self.out.make_handle(Word::S, signature.handle)?;
                self.function(m, at, left)?;
                self.wrap_with_register(m, at, signature)?;
                self.out.finish(call);
                Ok(())
            }
            (Kind::Fn | Kind::Arrow, _, _) => self.function(m, at, left),
            _ => self.parts(m, at, left),
        }
    }

    // A node as it is, with its parts gone through.
    #[cycle(registering)]
    fn parts(&mut self, m: &Module, at: usize, left: u16) -> Result<(), Fault> {
        let left = left.checked_sub(1).ok_or(Fault::TooLarge)?;
        let node = self.out.put(m.node(at))?;
        for p in m.parts(at) {
            if is_statement(m.node(p).kind) {
                self.statement(m, p, left)?;
            } else {
                self.expression(m, p, left)?;
            }
        }
        self.out.finish(node);
        Ok(())
    }

    // A function, whose body is opened by a call of its handle if it has one.
    #[cycle(registering)]
    fn function(&mut self, m: &Module, at: usize, left: u16) -> Result<(), Fault> {
        let left = left.checked_sub(1).ok_or(Fault::TooLarge)?;
        let node = self.out.put(m.node(at))?;
        let body = last_part(m, at);
        for p in m.siblings(at.saturating_add(1), body) {
            self.expression(m, p, left)?;
        }
        self.body(m, body, left, self.handle(at))?;
        self.out.finish(node);
        Ok(())
    }

    // The handle of a function that has one.
    fn handle(&self, at: usize) -> Option<u16> {
        self.plan(at).signature.map(|signature| signature.handle)
    }

    // The span of an expression as it then stands: a signature call in its place has none.
    fn standing_span(&self, m: &Module, at: usize) -> Span {
        let node = m.node(at);
        match (node.kind, self.handle(at)) {
            (Kind::Fn | Kind::Arrow, Some(_)) => Span::DUMMY,
            _ => node.span,
        }
    }

    // A function's body. An expression that is to be opened becomes a block of the opening call and a `return`.
    #[cycle(registering)]
    fn body(
        &mut self,
        m: &Module,
        at: usize,
        left: u16,
        opening: Option<u16>,
    ) -> Result<(), Fault> {
        let left = left.checked_sub(1).ok_or(Fault::TooLarge)?;
        match (m.node(at).kind, opening) {
            (Kind::Block, _) => self.block(m, at, left, opening),
            (_, None) => self.expression(m, at, left),
            (_, Some(handle)) => {
                let span = self.standing_span(m, at);
                let block = self.out.make_spanned(Kind::Block, span)?;
                self.out.make_call_stmt(handle)?;
                let result = self.out.make_spanned(Kind::Return, span)?;
                self.expression(m, at, left)?;
                self.out.finish(result);
                self.out.finish(block);
                Ok(())
            }
        }
    }

    // The signature statements that follow a statement or an item: those of the functions named in it, but for any inside a block. An `if`, an
    // `export` and a `var` are entered, so the next place is not always a sibling.
    fn sign_after(&mut self, m: &Module, statement: usize) -> Result<(), Fault> {
        let end = m.next(statement);
        let mut at = statement;
        while at < end {
            let first = at.saturating_add(1);
            match m.node(at).kind {
                // past the test, and on with the statements
                Kind::If => at = m.next(first),
                Kind::Export | Kind::Var => at = first,
                Kind::Func | Kind::Deffn => {
                    self.gen_hook_register_stmt(m, at, first)?;
                    at = m.next(at);
                }
                Kind::Decl => {
                    let init = m.next(first);
                    if self.plan(init).initialiser {
                        self.gen_hook_register_stmt(m, init, first)?;
                    }
                    at = m.next(at);
                }
                _ => at = m.next(at),
            }
        }
        Ok(())
    }

    // The signature statement of a function with a handle, by the identifier that names it.
    fn gen_hook_register_stmt(
        &mut self,
        m: &Module,
        function: usize,
        ident: usize,
    ) -> Result<(), Fault> {
        let Some(signature) = self.plan(function).signature else {
            return Ok(());
        };
        let statement = self.out.make(Kind::Expr)?;
        let call = self.out.make(Kind::Call)?;
        self.out.make_handle(Word::S, signature.handle)?;
        self.out.copy(m, ident)?;
        self.wrap_with_register(m, function, signature)?;
        self.out.finish(call);
        self.out.finish(statement);
        Ok(())
    }

    // What a signature call has after the function: the signature, whether to reset, and a function that returns the custom hooks in scope.
    fn wrap_with_register(
        &mut self,
        m: &Module,
        function: usize,
        signature: Signature,
    ) -> Result<(), Fault> {
        self.out.make_text(Kind::Str, signature.text)?;
        self.list_hooks(m, function)?;
        // one pass tells both: `any` would ask each hook twice
        let mut should_reset = self.should_reset;
        let mut listed = false;
        for &hook in self.hooks.as_slice() {
            match custom_hook(m, hook, self.sign, &self.current_scope) {
                Some(CustomHook::InScope) => listed = true,
                Some(CustomHook::OutOfScope) => should_reset = true,
                None => {}
            }
        }
        if should_reset || listed {
            self.out.make_bool(should_reset)?;
        }
        if listed {
            self.make_custom_hooks(m)?;
        }
        Ok(())
    }

    // A function that returns the custom hooks in scope.
    fn make_custom_hooks(&mut self, m: &Module) -> Result<(), Fault> {
        let function = self.out.make(Kind::Fn)?;
        let block = self.out.make(Kind::Block)?;
        let result = self.out.make(Kind::Return)?;
        let array = self.out.make(Kind::Array)?;
        for &hook in self.hooks.as_slice() {
            let custom = custom_hook(m, hook, self.sign, &self.current_scope);
            if custom == Some(CustomHook::InScope) {
                self.out.make_callee(m, hook, self.sign)?;
            }
        }
        self.out.finish(array);
        self.out.finish(result);
        self.out.finish(block);
        self.out.finish(function);
        Ok(())
    }

    // An item, with its signature statements and, for a component, its assignment.
    fn item(&mut self, m: &Module, at: usize) -> Result<(), Fault> {
        self.statement(m, at, NESTING)?;
        self.sign_after(m, at)?;
        if let Some(component) = self.plan(at).component {
            let name = m.node(component.ident as usize).text;
            self.registrations.push(Registration {
                handle: component.handle,
                name,
            })?;
            self.out
                .make_assign_stmt(m, component.handle, component.ident as usize)?;
        }
        Ok(())
    }

    fn register_components(&mut self) -> Result<(), Fault> {
        if self.registrations.len() == 0 {
            return Ok(());
        }
        self.out.declare_components(&self.registrations)?;
        for &registration in self.registrations.as_slice() {
            self.out.register_component(registration, self.register)?;
        }
        Ok(())
    }

    // The whole module.
    pub(crate) fn module(&mut self, m: &Module) -> Result<(), Fault> {
        let end = m.nodes.len();
        self.current_scope.push(1)?;
        let module = self.out.put(m.node(0))?;
        self.gen_hook_handle(m, 1, end)?;
        for item in m.siblings(1, end) {
            self.item(m, item)?;
        }
        self.register_components()?;
        self.out.finish(module);
        Ok(())
    }
}
