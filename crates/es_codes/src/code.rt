// Codes.

use crate::boxed::Boxed;
use crate::event::{Detail, Home, Operation, PrivateTest};
use crate::name::{NameKind, PrivateReference};
use crate::value::Value;
use es_base::kind::Kind;
use es_base::ledger::GeneratedKind;
use es_base::list::List;
use es_base::name::Name;

mod callees;
mod codes;
mod targets;

/// What a function is beside its parameters and its body.
#[derive(Clone, Copy)]
pub struct FunctionForm {
    pub is_arrow: bool,
    pub is_async: bool,
    pub is_generator: bool,
}

/// What an initializer of a public field does with its property.
#[derive(Clone, Copy)]
pub enum FieldForm {
    Defines,
    Sets,
    LeavesOut,
}

/// A string of a template (ECMA-262, 12.9.6): its source, what it stands for if that is well-formed, and
/// whether it is the last.
#[derive(Drop)]
pub struct TemplateString {
    pub raw: Name,
    pub cooked: Option<Name>,
    pub is_tail: bool,
}

/// What is evaluated elsewhere than where it stands.
#[derive(Drop)]
pub enum Opened {
    /// The initializers of a class.
    InitializersOf(u32),
    /// The body of the function that a generated name was assigned.
    BodyOf(Name),
    /// That of a function that is called with what `super(..)` gave.
    CalledBodyOf(Name),
}

/// A member of `babelHelpers` (Babel's runtime helpers).
#[derive(Debug, Clone, Copy, PartialEq, Eq)]
pub enum Helper {
    DefineProperty,
    ClassPrivateFieldInitSpec,
    ClassPrivateMethodInitSpec,
    ClassPrivateFieldGet2,
    ClassPrivateFieldSet2,
    AssertClassBrand,
    ToSetter,
    CheckInRHS,
    ReadOnlyError,
    WriteOnlyError,
    SuperPropGet,
    SuperPropSet,
    ClassPrivateFieldLooseKey,
    ClassPrivateFieldLooseBase,
    SetFunctionName,
    ToPropertyKey,
}

/// What evaluation goes over: a tree whose names are resolved and whose generated forms are read.
#[cycle(code)]
#[derive(Drop)]
pub enum Code {
    /// Nothing: an empty statement, a declaration that has no event.
    Nothing,
    /// A form that has no rule.
    NoRule,
    /// `1`, `this`
    Value {
        value: Value,
    },
    /// A name that is not evaluated: a label, a key that is not computed.
    Spelled {
        spelling: Name,
    },
    /// `#x`
    PrivateName {
        node: u32,
        spelling: Name,
        means: Option<PrivateReference>,
    },
    /// A binding that is not evaluated: the name of a parameter.
    Binding {
        node: u32,
        spelling: Name,
        kind: NameKind,
    },
    /// `...t`
    Rest {
        to: Boxed<Target>,
    },
    /// `x`
    Name {
        node: u32,
        spelling: Name,
        kind: NameKind,
    },
    /// `super`
    Super,
    /// `o[k]`
    Member {
        node: u32,
        object: Boxed<Code>,
        key: Boxed<Code>,
    },
    /// `o.#x`
    PrivateMember {
        node: u32,
        means: PrivateReference,
        object: Boxed<Code>,
    },
    /// `super[k]`
    SuperMember {
        node: u32,
        home: Home,
        key: Boxed<Code>,
        this: Value,
    },
    /// `#x in o`
    PrivateIn {
        node: u32,
        test: PrivateTest,
        object: Boxed<Code>,
    },
    /// `t = e`
    Assign {
        to: Boxed<Target>,
        right: Boxed<Code>,
    },
    /// `t += e`
    Compound {
        node: u32,
        operator: Name,
        to: Boxed<Target>,
        right: Boxed<Code>,
    },
    /// `a || b`
    Logical {
        node: u32,
        operator: Name,
        left: Boxed<Code>,
        right: Boxed<Code>,
    },
    /// `t ||= e`
    LogicalAssign {
        node: u32,
        operator: Name,
        to: Boxed<Target>,
        right: Boxed<Code>,
    },
    /// `t++`
    Update {
        node: u32,
        operator: Name,
        is_prefix: bool,
        to: Boxed<Target>,
    },
    /// `f(a)`
    Call {
        node: u32,
        callee: Boxed<Callee>,
        arguments: List<Code>,
    },
    /// `` f`a${b}` ``
    Tag {
        node: u32,
        callee: Boxed<Callee>,
        strings: List<TemplateString>,
        arguments: List<Code>,
    },
    /// `new f(a)`
    Construct {
        node: u32,
        callee: Boxed<Code>,
        arguments: List<Code>,
    },
    /// `super(a)`
    SuperCall {
        node: u32,
        class: u32,
        behind: Option<Opened>,
        arguments: List<Code>,
    },
    /// `super(..._args)`
    SuperCallWithAll {
        class: u32,
    },
    /// `a, b`
    Sequence {
        all: List<Code>,
    },
    /// In a template, a string.
    TemplateString {
        string: TemplateString,
    },
    /// `` `a${b}` ``
    Template {
        node: u32,
        strings: List<TemplateString>,
        expressions: List<Code>,
    },
    /// Operands, then parts that may run or not, or again, then the operation.
    Operation {
        node: u32,
        operation: Operation,
        operands: List<Code>,
        held: List<Code>,
    },
    /// A part of an operation that is no operand itself.
    Piece {
        details: List<Detail>,
        operands: List<Code>,
    },
    /// `o?.k`, whole
    Chain {
        node: u32,
        expression: Boxed<Code>,
    },
    /// In a chain, what stands before `?.`
    Short {
        expression: Boxed<Code>,
    },
    /// In a chain, a test before the rest of it.
    Tested {
        object: Boxed<Code>,
        again: List<Code>,
        rest: Boxed<Code>,
    },
    /// `[a, b]`, which is given nothing.
    Pattern {
        node: u32,
        to: Boxed<Target>,
    },
    /// In a pattern, `k: t`
    Takes {
        node: u32,
        details: List<Detail>,
        key: List<Code>,
        to: Boxed<Target>,
    },
    /// Statements in order.
    Steps {
        all: List<Code>,
    },
    /// The head of a for-in or for-of, or a caught name, is given a value of a node.
    GivesTo {
        node: u32,
        to: Boxed<Target>,
    },
    /// `export default e`
    ExportDefault {
        expression: Boxed<Code>,
    },
    /// `function () {}`
    Function {
        node: u32,
        form: FunctionForm,
        own_name: Option<u32>,
        parameters: List<Code>,
        body: Boxed<Code>,
    },
    /// A function that is new in the lowered tree.
    NewFunction {
        node: u32,
        form: FunctionForm,
        parameters: List<Code>,
        body: Boxed<Code>,
    },
    /// `return e;`, which is new in the lowered tree.
    NewReturn {
        argument: List<Code>,
    },
    /// `class {}`
    Class {
        node: u32,
        declared: Option<u32>,
        heritage: List<Code>,
        elements: List<Code>,
    },
    /// `k = e;`
    Field {
        is_static: bool,
        form: FieldForm,
        key: Boxed<Code>,
        right: Boxed<Code>,
    },
    /// `#x = e;`
    PrivateField {
        is_static: bool,
        key: u32,
        right: Boxed<Code>,
    },
    /// `k() {}`
    Method {
        is_static: bool,
        kind: Name,
        key: Boxed<Code>,
        function: Boxed<Code>,
    },
    /// `#x() {}`
    PrivateMethod {
        is_static: bool,
        key: u32,
        function: Boxed<Code>,
    },
    /// `constructor() {}`
    Constructor {
        function: Boxed<Code>,
    },
    /// `static {}`
    StaticBlock {
        all: List<Code>,
    },
    /// A private element of a generated name.
    GeneratedElement {
        spelling: Name,
        right: Boxed<Code>,
    },
    /// What a generated call gives: a value without a receiver.
    FromCall {
        expression: Boxed<Code>,
    },
    /// What a generated member gives: a value without a receiver.
    FromMember {
        expression: Boxed<Code>,
    },
    /// A value as the key of a property.
    KeyOf {
        expression: Boxed<Code>,
    },
    /// `babelHelpers.defineProperty`
    Helper {
        helper: Helper,
    },
    /// A call of a helper that stands in another form.
    HelperCall {
        node: u32,
        helper: Helper,
        arguments: List<Code>,
    },
    /// An access that always throws.
    Throw,
    /// `babelHelpers.defineProperty(o, k, e)`
    Define {
        node: u32,
        object: Value,
        key: Boxed<Code>,
        right: Boxed<Code>,
    },
    /// `babelHelpers.classPrivateFieldInitSpec(o, w, e)`
    PrivateInitialize {
        node: u32,
        key: u32,
        object: Value,
        right: Boxed<Code>,
    },
    /// `babelHelpers.classPrivateMethodInitSpec(o, b)`
    AddBrand {
        node: u32,
        class: u32,
        object: Value,
    },
    /// `f.bind(o)`
    Bound {
        function: Boxed<Code>,
        object: Boxed<Code>,
    },
    /// `babelHelpers.toSetter(..)._`
    Setter {
        node: u32,
        key: u32,
        object: Boxed<Code>,
    },
    /// What a generated private element holds.
    PrivateValue {
        spelling: Name,
    },
    /// `(p => e)(a)`
    CallArrow {
        parameters: List<Name>,
        body: Boxed<Code>,
        arguments: List<Code>,
    },
    /// A call of a generated name of a closure.
    CallClosure {
        spelling: Name,
        arguments: List<Code>,
    },
    /// The initializers of a class.
    Initializers {
        class: u32,
    },
    /// A function that a generated name is assigned.
    GiveFunction {
        node: u32,
        spelling: Name,
        kind: GeneratedKind,
        function: Boxed<Code>,
    },
    /// What has to be a class.
    GiveClass {
        class: u32,
        expression: Boxed<Code>,
    },
}

/// What is assigned to (ECMA-262, 13.15).
#[cycle(code)]
#[derive(Drop)]
pub enum Target {
    /// `x`
    ToName {
        node: u32,
        spelling: Name,
        kind: NameKind,
    },
    /// `o[k]`
    ToMember {
        node: u32,
        object: Boxed<Code>,
        key: Boxed<Code>,
    },
    /// `o.#x`
    ToPrivate {
        node: u32,
        means: PrivateReference,
        object: Boxed<Code>,
    },
    /// `super[k]`
    ToSuper {
        node: u32,
        home: Home,
        key: Boxed<Code>,
        this: Value,
    },
    /// `babelHelpers.toSetter(..)._`
    ToSetter {
        node: u32,
        key: u32,
        object: Boxed<Code>,
    },
    /// `[a, b]`
    ToPattern {
        node: u32,
        kind: Kind,
        members: List<Code>,
    },
    /// `t = e` in a pattern
    ToDefault {
        node: u32,
        to: Boxed<Target>,
        default: Boxed<Code>,
    },
    /// What cannot be assigned to.
    NoTarget,
}

/// What is called (ECMA-262, 13.3.6): by itself, or with the object that it was found on as receiver.
#[cycle(code)]
#[derive(Drop)]
pub enum Callee {
    /// `f`
    Plain {
        expression: Boxed<Code>,
    },
    /// `o[k]`
    OnMember {
        node: u32,
        object: Boxed<Code>,
        key: Boxed<Code>,
    },
    /// `o.#x`
    OnPrivate {
        node: u32,
        means: PrivateReference,
        object: Boxed<Code>,
    },
    /// `super[k]`
    OnSuper {
        node: u32,
        home: Home,
        key: Boxed<Code>,
        this: Value,
    },
    /// A generated call with a receiver.
    WithReceiver {
        function: Boxed<Code>,
        object: Boxed<Code>,
    },
    /// `f?.`
    Checked {
        callee: Boxed<Callee>,
    },
    /// `(o?.k)`
    OnChain {
        node: u32,
        callee: Boxed<Callee>,
    },
    /// In a chain, behind a test.
    BehindTest {
        object: Boxed<Code>,
        again: List<Code>,
        callee: Boxed<Callee>,
    },
}
