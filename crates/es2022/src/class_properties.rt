// The transform of class properties: its hooks, and what they pay for the nodes that they make.

ghost use Rattle.std.specs.Prelude.{◌≡◌, ◌+◌, ◌<◌, ◌≤◌, ◌^◌, OnOk, true, false, length};
ghost use Rattle.es2022.specs.Paid.{Pays, Spent, Stores, one};
ghost use Rattle.es2022.specs.Paid as paid;
ghost use Rattle.es_base.specs.Preorder.{nodes};
ghost use Rattle.es_walk.specs.Any.{Any, any_settled, lists_settled};

use crate::class::{enter_class, exit_class};
use crate::names::Naming;
use crate::state::{Insertions, State};
use bitflags::Flags;
use es_base::ids::NodeId;
use es_base::kind::Kind;
use es_base::list::List;
use es_ctx::beside::{insert_after, insert_before};
use es_ctx::ctx::TraverseCtx;
use es_node::node::Node;
use es_scopes::flags::ScopeFlags;
use es_uids::traverse_scoping::TraverseScoping;
use es_walk::program::Lawful;
use es_walk::walk::Traverse;
use std::alloc::AllocError;

/// The transform of class properties (oxc_transformer, `ClassProperties`).
#[derive(Drop)]
pub struct ClassProperties {
    /// How many nodes it may still make.
    pub room: u32,
    pub state: State,
}

impl Traverse for ClassProperties {
    ghost enters = { λ goes s t e u. Pays (λ c. c.room) s t e u };

    ghost leaves = { λ s t e u. Pays (λ c. c.room) s t e u };

    ghost weight = { one };

    ghost spare = { λ c. c.room };

    ghost ready = { λ s. Unit {0} };

    ghost enter_ready = { λ goes s e t u h r. tt };

    ghost leave_ready = { λ s e t u h r. tt };

    ghost open_ready = { λ s e parent at p h r. tt };

    ghost close_ready = { λ s e parent at p q h r. tt };

    ghost weighs_something = { paid.weighs_something };

    ghost enter_pays = { paid.enter_pays (λ c. c.room) };

    ghost leave_pays = { paid.leave_pays (λ c. c.room) };

    ghost enter_keeps_place = { λ goes. paid.keeps_place (λ c. c.room) };

    ghost leave_keeps_place = { paid.keeps_place (λ c. c.room) };

    #[tactic(auto, using(crate::specs::Paid::pays_nothing))]
    fn enter(&mut self, node: &mut Node, ctx: &mut TraverseCtx) -> Result<bool, AllocError> {
        if self.is_class(node) {
            self.transform(node, ctx, true)?;
        }
        Ok(true)
    }

    #[tactic(auto, using(crate::specs::Paid::pays_nothing))]
    fn exit(&mut self, node: &mut Node, ctx: &mut TraverseCtx) -> Result<(), AllocError> {
        if self.is_class(node) {
            self.transform(node, ctx, false)?;
        }
        Ok(())
    }
}

impl ClassProperties {
    /// Whether this is a class to look at.
    fn is_class(&self, node: &Node) -> bool {
        self.state.declined.is_none()
            && matches!(node.kind(), Kind::ClassDeclaration | Kind::ClassExpression)
    }

    /// Changes a class as the walk enters it, or as it leaves it. Where there is not room enough for what it becomes, it is in the
    /// way.
    #[tactic(auto, using(crate::specs::Paid::pays_for, crate::specs::Paid::spent_nothing, crate::specs::Paid::some_nodes))]
    fn transform(
        &mut self,
        node: &mut Node,
        ctx: &mut TraverseCtx,
        enters: bool,
    ) -> Result<(), AllocError>
        requires { nodes node.old + self.old.room < 2 ^ 32 }
        ensures { OnOk result (Pays (λ c. c.room) (self.old, ctx.old) node.old (self.new, ctx.new) node.new) }
    {
        let statement = statement_of(node, ctx);
        let count = node.nodes();
        let is_in_strict_list = is_in_strict_list(ctx);
        let class = node.take();
        let class = self.change(class, enters, is_in_strict_list, &mut ctx.scoping)?;
        let insertions = self.state.take_insertions();
        if !self.pay(count, &class) {
            self.state.decline(statement);
            return Ok(());
        }
        *node = class;
        self.insert_all(statement, insertions, ctx)
    }

    /// The class as it is entered or left. Names may be generated; the scope table stays.
    fn change(
        &mut self,
        class: Node,
        enters: bool,
        is_in_strict_list: bool,
        scoping: &mut TraverseScoping,
    ) -> Result<Node, AllocError>
        ensures room { OnOk result (self.new.room ≡ self.old.room) }
        ensures table { OnOk result (scoping.new.scoping ≡ scoping.old.scoping) }
    {
        let mut names = Naming {
            alloc: scoping.alloc,
            scoping: &scoping.scoping,
            names: &mut scoping.names,
            ledger: &mut scoping.ledger,
        };
        if enters {
            enter_class(&mut self.state, &mut names, class)
        } else {
            exit_class(&mut self.state, &mut names, class, is_in_strict_list)
        }
    }

    /// Pays for a tree in the place of one of so many nodes; answers whether there is room for it.
    fn pay(&mut self, count: u32, tree: &Node) -> bool
        requires { count + self.old.room < 2 ^ 32 }
        ensures paid { result ≡ true → nodes tree.now + self.new.room ≡ count + self.old.room }
        ensures kept { result ≡ false → self.new.room ≡ self.old.room }
    {
        let most = count + self.room;
        if !tree.has_at_most(most) {
            return false;
        }
        self.room = most - tree.nodes();
        true
    }

    /// Pays for a tree and one node more; answers whether there is room for it.
    fn pay_for(&mut self, tree: &Node) -> bool
        ensures paid { result ≡ true → nodes tree.now + 1 + self.new.room ≡ self.old.room }
        ensures kept { result ≡ false → self.new.room ≡ self.old.room }
    {
        let Some(most) = self.room.checked_sub(1) else {
            return false;
        };
        if !tree.has_at_most(most) {
            return false;
        }
        self.room = most - tree.nodes();
        true
    }

    /// Keeps what goes beside the statement, and what is declared.
    #[tactic(auto, using(crate::specs::Paid::spent_both, crate::specs::Paid::spent_nothing))]
    fn insert_all(
        &mut self,
        statement: NodeId,
        insertions: Insertions,
        ctx: &mut TraverseCtx,
    ) -> Result<(), AllocError>
        ensures { OnOk result (Spent self.old.room ctx.old self.new.room ctx.new) }
    {
        let Insertions {
            vars,
            lets,
            before,
            after,
        } = insertions;
        self.insert_each(Insertion::Var, statement, vars, ctx)?;
        self.insert_each(Insertion::Let, statement, lets, ctx)?;
        self.insert_each(Insertion::Before, statement, before, ctx)?;
        self.insert_each(Insertion::After, statement, after, ctx)
    }

    /// Keeps these nodes, one after the other.
    fn insert_each(
        &mut self,
        insertion: Insertion,
        statement: NodeId,
        nodes: List<Node>,
        ctx: &mut TraverseCtx,
    ) -> Result<(), AllocError>
        ensures { OnOk result (Spent self.old.room ctx.old self.new.room ctx.new) }
    {
        for node in nodes.into_vec() {
            self.insert(insertion, statement, node, ctx)?;
        }
        Ok(())
    }

    /// Keeps a node, if a list is open and there is room for it; else the statement is in the way.
    #[tactic(auto, using(crate::specs::Paid::spent_nothing, crate::specs::Paid::spent_on))]
    fn insert(
        &mut self,
        insertion: Insertion,
        statement: NodeId,
        node: Node,
        ctx: &mut TraverseCtx,
    ) -> Result<(), AllocError>
        ensures { OnOk result (Spent self.old.room ctx.old self.new.room ctx.new) }
    {
        if ctx.has_open_list() && self.pay_for(&node) {
            return insert_one(insertion, statement, node, ctx);
        }
        self.state.decline(statement);
        Ok(())
    }
}

/// Where a node is to go.
#[derive(Debug, Clone, Copy)]
enum Insertion {
    /// A declarator, into the `var` of the list.
    Var,
    /// A declarator, into the `let` of the list.
    Let,
    /// A statement.
    Before,
    After,
}

/// Keeps a node for the innermost open list.
#[tactic(auto, using(crate::specs::Paid::stores_var, crate::specs::Paid::stores_let, crate::specs::Paid::stores_beside))]
fn insert_one(
    insertion: Insertion,
    statement: NodeId,
    node: Node,
    ctx: &mut TraverseCtx,
) -> Result<(), AllocError>
    requires { 0 < length ctx.old.lists }
    ensures { OnOk result (Stores (nodes node) ctx.old ctx.new) }
{
    match insertion {
        Insertion::Var => ctx.insert_var(node),
        Insertion::Let => ctx.insert_let(node),
        Insertion::Before => insert_before(statement, node, ctx),
        Insertion::After => insert_after(statement, node, ctx),
    }
}

/// Whether the innermost list of statements around is in strict code.
fn is_in_strict_list(ctx: &TraverseCtx) -> bool {
    let scope = ctx.current_block_scope_id();
    let scoping = ctx.scoping();
    if scoping.has_scope(scope) {
        scoping.scope_flags(scope).contains(ScopeFlags::STRICT)
    } else {
        false
    }
}

/// The statement that a class stands in as a declaration: itself, or the export of it.
fn statement_of(class: &Node, ctx: &TraverseCtx) -> NodeId {
    match ctx.ancestors().next() {
        Some(around) if is_export(around.parent.kind) => NodeId(around.parent.node),
        _ => class.node_id(),
    }
}

fn is_export(kind: Kind) -> bool {
    matches!(
        kind,
        Kind::ExportNamedDeclaration | Kind::ExportDefaultDeclaration
    )
}

impl Lawful for ClassProperties {
    ghost settled = { λ c. Any };

    ghost kept = { λ begin program s t around rest. Unit {0} };

    ghost enter_steady = { λ goes s e t u h v x. tt };

    ghost leave_steady = { λ s e t u h v x. tt };

    ghost enter_settles = { λ s e t u h r l. lists_settled e.1.lists };

    ghost pass_settles = { λ s e t u h r l. (lists_settled e.1.lists, any_settled u) };

    ghost leave_settles = { λ s e t u h r l below. (lists_settled e.1.lists, any_settled u) };

    ghost enter_keeps = { λ begin program s e t u h r hole here around rest x. tt };

    ghost pass_keeps = { λ begin program s e t u h r hole here around rest x. tt };

    ghost leave_keeps = { λ begin program s e t u h r hole here entered around rest x. tt };

    ghost open_keeps = { λ begin program s e parent at p h r t around rest x. tt };

    ghost close_keeps = { λ begin program s e parent at p q h r t around rest x. tt };
}
