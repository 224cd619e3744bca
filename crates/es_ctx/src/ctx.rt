// The context of a walk.

ghost use Rattle.std.specs.Prelude.{◌≡◌, ◌+◌, ◌-◌, ◌<◌, ◌^◌, [], ◌∷◌, ◌++◌, length, reverse, slice_get, false, true, All, IsTrue, ◌↔◌, IfOk, OnErr, OnOk, Some};
ghost use Rattle.std.specs.Str.{chars};
ghost use Rattle.es_base.specs.Conforms.{is_among};
ghost use Rattle.es_base.specs.Preorder.{nodes};
ghost use Rattle.es_base.specs.declared.ids.ScopeId.{ScopeId};
ghost use Rattle.es_base.specs.declared.ledger.GeneratedKind.TheVariants as kinds;
ghost use Rattle.es_base.specs.declared.table.Sort as sorts;
ghost use Rattle.es_ctx.specs.Ancestors.{going_into, has_statements};
ghost use Rattle.es_ctx.specs.Lending.{LendsTable};
ghost use Rattle.es_ctx.specs.ScopesAround.{current_scope_id, current_hoist_scope_id, current_block_scope_id, current_var_scope_id};
ghost use Rattle.es_ctx.specs.Stores.{front, opened, closed, placed, filled, innermost, place_of, kept_beside, changed, with_var, with_let};
ghost use Rattle.es_iife.specs.FirstScopes.{first_scopes};
ghost use Rattle.es_iife.specs.ScopeBelow.{CanStandBelow, with_scope_below};
ghost use Rattle.es_names.specs.Candidates.{base_of, first_free};
ghost use Rattle.es_node.specs.View.{part_of, is_list, has_shape};
ghost use Rattle.es_scopes.specs.Table.{HasRoom, HasScope, HasSymbol};
ghost use Rattle.es_uids.specs.Uids.{AreTaken, IsGenerated};
ghost use Rattle.program_names.specs.Suggested.{suggested};

use crate::ancestor::{Ancestor, Parent, has_statements};
use crate::ancestors::Ancestors;
use crate::scopes::{hoist_scope_from, scope_from};
use crate::stores::{OpenList, Side, keep_beside, place};
use es_base::diagnostic::Diagnostic;
use es_base::ids::{NodeId, ScopeId};
use es_base::ledger::{GeneratedKind, Ledger};
use es_base::list::List;
use es_base::name::Name;
use es_builders::bound_identifier::BoundIdentifier;
use es_iife::scope_below::insert_scope_below_expression;
use es_names::names::Names;
use es_node::node::{Node, Part};
use es_scopes::flags::{ScopeFlags, SymbolFlags};
use es_scopes::scoping::Scoping;
use es_steps::options::CompilerAssumptions;
use es_uids::traverse_scoping::TraverseScoping;
use program_names::collect::spellings_of;
use std::alloc::{AllocError, Global};

/// What a walk carries along: the number that is given next, the nodes around the node at hand, and what is to be put
/// into the open lists of statements; and what it hands on at its end, the scope table, the generated names and the
/// warnings. The innermost of nodes and lists stand last.
#[derive(Drop)]
pub struct TraverseCtx {
    pub alloc: Global,
    pub next: u32,
    pub path: List<Ancestor>,
    pub lists: List<OpenList>,
    pub scoping: TraverseScoping,
    pub assumptions: CompilerAssumptions,
    pub diagnostics: List<Diagnostic>,
}

impl TraverseCtx {
    ghost use Rattle.std.specs.Borrow.{sem};
    ghost use Rattle.es_ctx.specs.Outcome.{KeepsOutcome, KeepsPosition, BeginsAt};

    /// A context at the root of a program with this table: no generated name yet, and none to come that the program
    /// spells; the first number that it gives is that of its nodes, which none of them has, where these are numbered
    /// from 0. Fails on allocation failure alone.
    pub fn new(
        alloc: Global,
        program: &Node,
        scoping: Scoping,
        assumptions: CompilerAssumptions,
    ) -> Result<TraverseCtx, AllocError>
        requires { nodes program.now < 2 ^ 32 }
        ensures { IfOk result (BeginsAt program.now scoping assumptions) }
    {
        let names = Names::new(alloc, spellings_of(alloc, program)?);
        Ok(TraverseCtx {
            alloc,
            next: program.nodes(),
            path: List::new(alloc),
            lists: List::new(alloc),
            scoping: TraverseScoping::new(alloc, scoping, names),
            assumptions,
            diagnostics: List::new(alloc),
        })
    }

    /// The scope table, the warnings and the generated names, in the order in which they were made. Takes no memory.
    pub fn finish(self) -> (Scoping, List<Diagnostic>, Ledger)
        ensures scoping { result.0 ≡ self.scoping.scoping }
        ensures diagnostics { result.1 ≡ self.diagnostics }
        ensures ledger { result.2.entries ≡ self.scoping.ledger }
    {
        let TraverseCtx {
            scoping,
            diagnostics,
            ..
        } = self;
        let ledger = Ledger {
            entries: scoping.ledger,
        };
        (scoping.scoping, diagnostics, ledger)
    }

    /// The scope table.
    pub fn scoping(&self) -> &Scoping
        ensures { result.now ≡ self.now.scoping.scoping }
    {
        &self.scoping.scoping
    }

    /// The scope table, to be changed.
    pub fn scoping_mut(&mut self) -> &mut Scoping
        ensures* writes_back { sem 𝓛 (LendsTable self.entry result) }
        ensures value { result.now ≡ self.old.scoping.scoping }
    {
        let scoping = &mut self.scoping;
        &mut scoping.scoping
    }

    /// What may be assumed of the program.
    pub fn assumptions(&self) -> &CompilerAssumptions
        ensures { result.now ≡ self.now.assumptions }
    {
        &self.assumptions
    }

    /// A number that was not given before. Allocates nothing.
    pub fn fresh_id(&mut self) -> NodeId
        requires { self.old.next + 1 < 2 ^ 32 }
        ensures value { result.0 ≡ self.old.next }
        ensures next { self.new.next ≡ self.old.next + 1 }
        ensures path { self.new.path ≡ self.old.path }
        ensures lists { self.new.lists ≡ self.old.lists }
        ensures outcome { KeepsOutcome self.old self.new }
    {
        let id = NodeId(self.next);
        self.next += 1;
        id
    }

    /// A name that was not taken yet, and now is, which no scope holds. Fails on allocation failure alone, as the calls
    /// below do; then nothing is said of what the call changes.
    pub fn generate_uid_name(&mut self, base: &str) -> Result<Name, AllocError>
        ensures first { IfOk result (λ name. name ≡ first_free self.old.scoping.names (base_of (chars base.now))) }
        ensures free { IfOk result (λ name. is_among name self.old.scoping.names ≡ false) }
        ensures names { IfOk result (λ name. self.new.scoping.names ≡ self.old.scoping.names ++ name ∷ []) }
        ensures scoping { self.new.scoping.scoping ≡ self.old.scoping.scoping }
        ensures ledger { self.new.scoping.ledger ≡ self.old.scoping.ledger }
        ensures position { KeepsPosition self.old self.new }
        ensures assumptions { self.new.assumptions ≡ self.old.assumptions }
        ensures diagnostics { self.new.diagnostics ≡ self.old.diagnostics }
    {
        self.scoping.generate_uid_name(base)
    }

    /// A name that was not taken yet, bound in a scope, whose names are taken. Whatever scope had taken names alone has
    /// them still.
    pub fn generate_uid(
        &mut self,
        base: &str,
        scope: ScopeId,
        flags: SymbolFlags,
        kind: GeneratedKind,
    ) -> Result<BoundIdentifier, AllocError>
        requires scope { HasScope self.old.scoping.scoping scope }
        requires taken { AreTaken self.old.scoping scope }
        requires room { HasRoom self.old.scoping.scoping.symbols }
        ensures generated { IfOk result (IsGenerated self.old.scoping self.new.scoping (chars base.now) scope flags kind) }
        ensures bound { IfOk result (λ b. HasSymbol self.new.scoping.scoping b.symbol_id) }
        ensures taken { OnOk result ((other : ScopeId) → AreTaken self.old.scoping other → AreTaken self.new.scoping other) }
        ensures position { KeepsPosition self.old self.new }
        ensures assumptions { self.new.assumptions ≡ self.old.assumptions }
        ensures diagnostics { self.new.diagnostics ≡ self.old.diagnostics }
    {
        self.scoping.generate_uid(base, scope, flags, kind)
    }

    /// The same from the name that an expression suggests; it stands for a temporary.
    pub fn generate_uid_based_on_node(
        &mut self,
        expression: &Node,
        scope: ScopeId,
        flags: SymbolFlags,
    ) -> Result<BoundIdentifier, AllocError>
        requires scope { HasScope self.old.scoping.scoping scope }
        requires taken { AreTaken self.old.scoping scope }
        requires room { HasRoom self.old.scoping.scoping.symbols }
        ensures generated { IfOk result (IsGenerated self.old.scoping self.new.scoping (suggested expression.now) scope flags kinds.Temp) }
        ensures bound { IfOk result (λ b. HasSymbol self.new.scoping.scoping b.symbol_id) }
        ensures taken { OnOk result ((other : ScopeId) → AreTaken self.old.scoping other → AreTaken self.new.scoping other) }
        ensures position { KeepsPosition self.old self.new }
        ensures assumptions { self.new.assumptions ≡ self.old.assumptions }
        ensures diagnostics { self.new.diagnostics ≡ self.old.diagnostics }
    {
        self.scoping
            .generate_uid_based_on_node(expression, scope, flags)
    }

    /// Enters a private name that a lowering makes for a class.
    pub fn note_private(&mut self, name: &Name, class: NodeId) -> Result<(), AllocError>
        ensures ledger { OnOk result (self.new.scoping.ledger ≡ self.old.scoping.ledger ++ record { name = name.now; kind = kinds.Private class } ∷ []) }
        ensures names { self.new.scoping.names ≡ self.old.scoping.names }
        ensures scoping { self.new.scoping.scoping ≡ self.old.scoping.scoping }
        ensures position { KeepsPosition self.old self.new }
        ensures assumptions { self.new.assumptions ≡ self.old.assumptions }
        ensures diagnostics { self.new.diagnostics ≡ self.old.diagnostics }
    {
        self.scoping.note_private(name, class)
    }

    /// A new scope below the current one, in which the expression is to stand: the first scopes of the expression get it as
    /// their parent. It is strict where the current one is (ECMA-262, 11.2.2). Fails on allocation failure alone; then
    /// nothing is said of the table.
    pub fn insert_scope_below_expression(
        &mut self,
        expression: &Node,
        flags: ScopeFlags,
    ) -> Result<ScopeId, AllocError>
        requires around { HasScope self.old.scoping.scoping (current_scope_id self.old.path) }
        requires room { HasRoom self.old.scoping.scoping.scopes }
        requires below { All (CanStandBelow self.old.scoping.scoping (current_scope_id self.old.path)) (first_scopes expression.now) }
        ensures number { IfOk result (λ s. s.0 ≡ length self.old.scoping.scoping.scopes) }
        ensures table { OnOk result (self.new.scoping.scoping ≡ with_scope_below self.old.scoping.scoping (current_scope_id self.old.path) flags (first_scopes expression.now)) }
        ensures names { self.new.scoping.names ≡ self.old.scoping.names }
        ensures ledger { self.new.scoping.ledger ≡ self.old.scoping.ledger }
        ensures position { KeepsPosition self.old self.new }
        ensures assumptions { self.new.assumptions ≡ self.old.assumptions }
        ensures diagnostics { self.new.diagnostics ≡ self.old.diagnostics }
    {
        let around = self.current_scope_id();
        let scoping = &mut self.scoping.scoping;
        insert_scope_below_expression(self.alloc, expression, flags, around, scoping)
    }

    /// Adds a warning. Fails on allocation failure alone, and then adds none.
    pub fn warn(&mut self, diagnostic: Diagnostic) -> Result<(), AllocError>
        ensures position { KeepsPosition self.old self.new }
        ensures scoping { self.new.scoping ≡ self.old.scoping }
        ensures assumptions { self.new.assumptions ≡ self.old.assumptions }
        ensures ok { OnOk result (self.new.diagnostics ≡ self.old.diagnostics ++ diagnostic ∷ []) }
        ensures err { OnErr result (self.new.diagnostics ≡ self.old.diagnostics) }
    {
        self.diagnostics.push(diagnostic)
    }

    /// Goes into a member of a node; its list is opened, if it is one of statements. Fails on allocation
    /// failure alone, as the calls below do; then nothing is said of the context.
    pub fn open(&mut self, parent: &Parent, at: usize, part: &Part) -> Result<(), AllocError>
        requires { has_statements parent.now.kind at ≡ true → is_list part.now ≡ true }
        ensures next { OnOk result (self.new.next ≡ self.old.next) }
        ensures path { OnOk result (self.new.path ≡ going_into self.old.path parent.now at) }
        ensures lists { OnOk result (self.new.lists ≡ opened (has_statements parent.now.kind at) (part_of part.now) self.old.lists) }
        ensures outcome { KeepsOutcome self.old self.new }
    {
        let ancestor = Ancestor::of(self.alloc, self.path.as_slice(), parent, at)?;
        self.path.push(ancestor)?;
        if has_statements(parent.kind, at) {
            let list = OpenList::open(self.alloc, part.as_list())?;
            self.lists.push(list)?;
        }
        Ok(())
    }

    /// Comes out of a member of a node; its list is closed, if it is one of statements, and gets what was
    /// kept for it.
    #[tactic(auto, using(crate::proofs::Last::front_removed, crate::proofs::Last::front_empty, crate::proofs::Last::filled_last))]
    pub fn close(&mut self, parent: &Parent, at: usize, part: &mut Part) -> Result<(), AllocError>
        requires { has_statements parent.now.kind at ≡ true → is_list part.old ≡ true }
        ensures next { OnOk result (self.new.next ≡ self.old.next) }
        ensures path { OnOk result (self.new.path ≡ front self.old.path) }
        ensures lists { OnOk result (self.new.lists ≡ closed (has_statements parent.now.kind at) self.old.lists) }
        ensures part { OnOk result (part_of part.new ≡ filled (has_statements parent.now.kind at) self.old.lists (part_of part.old)) }
        ensures shape { OnOk result ((sort : sorts.Sort) → has_shape sort part.new ≡ has_shape sort part.old) }
        ensures outcome { KeepsOutcome self.old self.new }
    {
        self.leave();
        if has_statements(parent.kind, at) && !self.lists.is_empty() {
            let innermost = self.lists.len() - 1;
            let kept = self.lists.remove(innermost);
            place_in(self.alloc, kept, part)?;
        }
        Ok(())
    }

    #[tactic(auto, using(crate::proofs::Last::front_removed, crate::proofs::Last::front_empty))]
    fn leave(&mut self)
        ensures next { self.new.next ≡ self.old.next }
        ensures path { self.new.path ≡ front self.old.path }
        ensures lists { self.new.lists ≡ self.old.lists }
        ensures outcome { KeepsOutcome self.old self.new }
    {
        if !self.path.is_empty() {
            let innermost = self.path.len() - 1;
            let _left = self.path.remove(innermost);
        }
    }

    /// The innermost place around the node at hand.
    pub fn parent(&self) -> &Ancestor
        requires { 0 < length self.now.path }
        ensures { slice_get self.now.path (length self.now.path - 1) ≡ Some result.now }
    {
        self.ancestor(0)
    }

    /// The place around the node at hand which is the n-th from the innermost outwards, counted from 0.
    pub fn ancestor(&self, n: usize) -> &Ancestor
        requires { n < length self.now.path }
        ensures { slice_get self.now.path (length self.now.path - 1 - n) ≡ Some result.now }
    {
        let path = self.path.as_slice();
        &path[path.len() - 1 - n]
    }

    /// The places around the node at hand, the innermost first.
    pub fn ancestors(&self) -> Ancestors<'_>
        ensures { result ≡ reverse self.now.path }
    {
        Ancestors::new(self.path.as_slice())
    }

    /// The scope that the node at hand is in, by the scopes that the nodes around carry.
    pub fn current_scope_id(&self) -> ScopeId
        ensures { result ≡ current_scope_id self.now.path }
    {
        ScopeId(scope_from(true, self.ancestors()))
    }

    /// The scope around the node at hand that `var` is hoisted to.
    pub fn current_hoist_scope_id(&self) -> ScopeId
        ensures { result ≡ current_hoist_scope_id self.now.path }
    {
        ScopeId(hoist_scope_from(true, self.ancestors()))
    }

    /// The scope that a `var` of the innermost list of statements around the node at hand is hoisted to. It is that of
    /// `current_hoist_scope_id`, unless a function without such a list stands between: in `(a = b) => c`, what is kept for
    /// a list is put outside the arrow.
    pub fn current_var_scope_id(&self) -> ScopeId
        ensures { result ≡ current_var_scope_id self.now.path }
    {
        ScopeId(hoist_scope_from(false, self.ancestors()))
    }

    /// The scope of the innermost list of statements around the node at hand.
    pub fn current_block_scope_id(&self) -> ScopeId
        ensures { result ≡ current_block_scope_id self.now.path }
    {
        ScopeId(scope_from(false, self.ancestors()))
    }

    /// Whether the node at hand is the root, with no place around.
    pub fn is_root(&self) -> bool
        ensures { IsTrue result ↔ (self.now.path ≡ []) }
    {
        self.path.is_empty()
    }

    /// Whether a list of statements is open, so that statements and declarations can be kept.
    pub fn has_open_list(&self) -> bool
        ensures { IsTrue result ↔ (0 < length self.now.lists) }
    {
        !self.lists.is_empty()
    }

    /// Keeps statements for the place before or after the element of this number, behind those that are
    /// kept there: in the innermost open list that had this element when it was opened, and for a number
    /// that none had in the innermost open list. After an error nothing is said of the lists.
    #[tactic(auto, using(crate::proofs::Placed::innermost_last))]
    pub fn insert(
        &mut self,
        side: Side,
        statement: NodeId,
        new: List<Node>,
    ) -> Result<(), AllocError>
        requires { 0 < length self.old.lists }
        ensures next { self.new.next ≡ self.old.next }
        ensures path { self.new.path ≡ self.old.path }
        ensures lists { OnOk result (self.new.lists ≡ kept_beside side new statement.0 self.old.lists) }
        ensures outcome { KeepsOutcome self.old self.new }
    {
        let place = place_of(statement.0, self.lists.as_slice());
        let lists = self.lists.as_mut_slice();
        keep_beside(self.alloc, side, statement.0, new, &mut lists[place])
    }

    /// Has a declarator declared by the `var` at the front of the innermost open list, behind those that
    /// are there. After an error nothing is said of the lists.
    #[tactic(auto, using(crate::proofs::Placed::innermost_last))]
    pub fn insert_var(&mut self, declarator: Node) -> Result<(), AllocError>
        requires { 0 < length self.old.lists }
        ensures next { self.new.next ≡ self.old.next }
        ensures path { self.new.path ≡ self.old.path }
        ensures lists { OnOk result (self.new.lists ≡ changed (innermost self.old.lists) (with_var declarator) self.old.lists) }
        ensures outcome { KeepsOutcome self.old self.new }
    {
        let place = self.lists.len() - 1;
        let lists = self.lists.as_mut_slice();
        lists[place].vars.push(declarator)
    }

    /// Has a declarator declared by the `let` at the front of the innermost open list, behind those that
    /// are there. After an error nothing is said of the lists.
    #[tactic(auto, using(crate::proofs::Placed::innermost_last))]
    pub fn insert_let(&mut self, declarator: Node) -> Result<(), AllocError>
        requires { 0 < length self.old.lists }
        ensures next { self.new.next ≡ self.old.next }
        ensures path { self.new.path ≡ self.old.path }
        ensures lists { OnOk result (self.new.lists ≡ changed (innermost self.old.lists) (with_let declarator) self.old.lists) }
        ensures outcome { KeepsOutcome self.old self.new }
    {
        let place = self.lists.len() - 1;
        let lists = self.lists.as_mut_slice();
        lists[place].lets.push(declarator)
    }
}

/// Puts what is kept for a list into it.
fn place_in(alloc: Global, kept: OpenList, part: &mut Part) -> Result<(), AllocError>
    requires { is_list part.old ≡ true }
    ensures part { OnOk result (part_of part.new ≡ placed kept (part_of part.old)) }
    ensures shape { OnOk result ((sort : sorts.Sort) → has_shape sort part.new ≡ has_shape sort part.old) }
{
    match part {
        Part::List(nodes) => {
            place(alloc, kept, nodes)?;
            Ok(())
        }
        _ => unreachable!(),
    }
}

/// The place of the innermost list that has this element, and else that of the innermost list.
#[tactic(auto, using(crate::proofs::Placed::innermost_last))]
fn place_of(number: u32, lists: &[OpenList]) -> usize
    requires { 0 < length lists.now }
    ensures place { result ≡ place_of number lists.now }
    ensures within { result < length lists.now }
{
    let mut found = lists.len() - 1;
    for i in 0..lists.len() {
        if lists[i].has(number) {
            found = i;
        }
    }
    found
}
