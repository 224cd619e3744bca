// Events.

ghost use Rattle.std.specs.Prelude.{◌≡◌, IfOk};

use crate::name::Referent;
use crate::value::{Constant, Value};
use es_base::kind::Kind;
use es_base::list::List;
use es_base::name::Name;
use std::alloc::{AllocError, Global};

/// What a member of an object is looked up on by `super` (ECMA-262, 10.2): a class, its prototype, or an
/// object.
#[derive(Clone, Copy)]
pub enum Home {
    OfClass(u32),
    OfPrototype(u32),
    OfObject(u32),
}

/// What `#x in o` asks of `o` (ECMA-262, 13.10.1).
#[derive(Clone, Copy)]
pub enum PrivateTest {
    HasField(u32),
    HasBrand(u32),
    IsClass(u32),
}

/// What an operation has beside its operands, member by member.
#[derive(Drop)]
pub enum Detail {
    Operand,
    Empty,
    Spelled(Name),
    Flag(bool),
    Key(Constant),
    Opens,
    Closes,
    /// `__proto__: v` in an object (ECMA-262, B.3.1).
    Prototype,
    /// The i-th element of an array or of the arguments.
    Index(usize),
    /// The rest from there on.
    Rest,
}

impl Detail {
    /// A copy. Fails on allocation failure alone.
    pub fn try_clone(&self, alloc: Global) -> Result<Detail, AllocError>
        ensures { IfOk result (λ d. d ≡ self.now) }
    {
        Ok(match self {
            Detail::Operand => Detail::Operand,
            Detail::Empty => Detail::Empty,
            Detail::Spelled(spelling) => Detail::Spelled(spelling.try_clone(alloc)?),
            Detail::Flag(flag) => Detail::Flag(*flag),
            Detail::Key(constant) => Detail::Key(constant.try_clone(alloc)?),
            Detail::Opens => Detail::Opens,
            Detail::Closes => Detail::Closes,
            Detail::Prototype => Detail::Prototype,
            Detail::Index(i) => Detail::Index(*i),
            Detail::Rest => Detail::Rest,
        })
    }
}

/// A copy of details. Fails on allocation failure alone.
pub fn clone_details(alloc: Global, details: &[Detail]) -> Result<List<Detail>, AllocError>
    ensures { IfOk result (λ ds. ds ≡ details.now) }
{
    let mut copy = List::new(alloc);
    for i in 0..details.len() {
        copy.push(details[i].try_clone(alloc)?)?;
    }
    Ok(copy)
}

/// An operation.
#[derive(Drop)]
pub enum Operation {
    OfKind { kind: Kind, details: List<Detail> },
    Delete,
    /// A pattern takes a property or an element.
    Take(List<Detail>),
}

impl Operation {
    /// A copy. Fails on allocation failure alone.
    pub fn try_clone(&self, alloc: Global) -> Result<Operation, AllocError>
        ensures { IfOk result (λ op. op ≡ self.now) }
    {
        Ok(match self {
            Operation::OfKind { kind, details } => {
                let details = clone_details(alloc, details.as_slice())?;
                Operation::OfKind {
                    kind: *kind,
                    details,
                }
            }
            Operation::Delete => Operation::Delete,
            Operation::Take(details) => Operation::Take(clone_details(alloc, details.as_slice())?),
        })
    }
}

/// Which part of a node it is that may run or not, or again.
#[derive(Drop)]
pub enum Place {
    RightOf(Name),
    Default,
    Part(usize),
}

/// A list of events as a list of tokens: what a part holds that may run or not, or again, stands between
/// `Begin` and `End`. (ECMA-262, 7.3 and 13: the operations that a program does.)
#[derive(Drop)]
pub enum Token {
    ReadName {
        node: u32,
        referent: Referent,
    },
    SetName {
        referent: Referent,
        value: Value,
    },
    Get {
        node: u32,
        object: Value,
        key: Value,
    },
    Set {
        object: Value,
        key: Value,
        value: Value,
    },
    Define {
        object: Value,
        key: Value,
        value: Value,
    },
    Call {
        node: u32,
        callee: Value,
        receiver: Option<Value>,
        arguments: List<Value>,
    },
    Construct {
        node: u32,
        callee: Value,
        arguments: List<Value>,
    },
    Operate {
        node: u32,
        operation: Operation,
        operands: List<Value>,
    },
    Update {
        node: u32,
        operator: Name,
        old: Value,
    },
    PrivateGet {
        node: u32,
        key: u32,
        object: Value,
    },
    PrivateSet {
        key: u32,
        object: Value,
        value: Value,
    },
    PrivateInitialize {
        key: u32,
        object: Value,
        value: Value,
    },
    PrivateIn {
        node: u32,
        test: PrivateTest,
        object: Value,
    },
    AddBrand {
        class: u32,
        object: Value,
    },
    SuperGet {
        node: u32,
        home: Home,
        key: Value,
        this: Value,
    },
    SuperSet {
        home: Home,
        key: Value,
        value: Value,
        this: Value,
    },
    SuperCall {
        node: u32,
        class: u32,
        arguments: List<Value>,
    },
    SuperCallWithAll {
        class: u32,
    },
    /// Behind the parameters of a function, where its body has an environment of its own (ECMA-262, 10.2.11).
    EnterBody,
    InitializeClass {
        class: u32,
    },
    Throw,
    Short {
        value: Value,
    },
    Begin,
    End {
        node: u32,
        place: Place,
        tested: Option<Value>,
        value: Value,
    },
}
