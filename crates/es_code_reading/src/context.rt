// What is known at a place of a tree: which names are seen there, what `this` is, which class stands around. (ECMA-262,
// 9.1, 9.2 and 9.4: environments, private environments, execution contexts.)

use es_codes::event::Home;
use es_generated::ledger::Ledger;
use es_outside::names::ProgramNames;
use es_seen_names::names::Names;
use es_seen_names::private_member::PrivateMember;
use es_seen_names::privates::Privates;
use es_steps::options::Options;

/// What `this` is: that of a function, of the construction of a class or of the program, or a class.
#[derive(Clone, Copy)]
pub enum This {
    Of(u32),
    Class(u32),
}

/// What a function is that stands as a part of a node.
#[derive(Clone, Copy)]
pub enum FunctionRole {
    Function,
    ConstructorOf(u32),
    /// A method, getter or setter.
    MethodOn(Home),
    /// What a generated name of a `super` function of a class is assigned.
    SuperFunctionOf(u32),
}

/// What a tree is read under.
#[derive(Clone, Copy)]
pub struct Terms<'a> {
    /// The number of the first node that is new.
    pub first_new: u32,
    pub options: Options,
    /// The generated names.
    pub ledger: &'a Ledger<'a>,
    /// The private members of the source.
    pub members: &'a [PrivateMember<'a>],
    /// The class expressions of the source whose heritage or keys read their name, with their identifiers.
    pub named: &'a [(u32, u32)],
    /// The names of the program: which bindings vary, since they are imported or written anywhere in it, and whether a free
    /// `arguments` is given a value.
    pub names: &'a ProgramNames<'a>,
}

/// What the nodes around a place say of it, names aside.
#[derive(Clone, Copy)]
pub struct Around<'a> {
    pub this: This,
    /// The function whose `new.target` it is; none where it is undefined.
    pub new_target: Option<u32>,
    /// The function whose `arguments` it is.
    pub arguments: Option<u32>,
    pub home: Option<Home>,
    /// The class with a heritage whose constructor it is, and which of its `super(..)` runs the initializers: the one of
    /// this number, or all.
    pub constructs: Option<u32>,
    pub initializing: Option<u32>,
    /// Whether the nearest function or arrow is new, and the name of its rest parameter.
    pub in_new_function: bool,
    pub rest_name: &'a str,
    /// The nearest class whose body is around, and whether it has a heritage.
    pub class: u32,
    pub has_heritage: bool,
    /// The object expression around.
    pub object: u32,
    /// What a function here is.
    pub role: FunctionRole,
    /// The class that a `let` around names, and the identifier.
    pub let_class: Option<(u32, u32)>,
    /// Whether a block here is the body of a function.
    pub is_body: bool,
}

/// What is known at a place of a tree.
#[derive(Clone, Copy)]
pub struct Context<'r, 'a> {
    pub terms: &'r Terms<'a>,
    pub names: Names<'r, 'a>,
    pub privates: Privates<'r, 'a>,
    /// Those of the names that no catch in the function, the arrow or the static block around declares as a name.
    pub uncaught: Names<'r, 'a>,
    /// What of these is seen around the block, the cases or the `if` that a function which is declared here stands in
    /// (B.3.2, B.3.4).
    pub block: Option<Names<'r, 'a>>,
    pub around: Around<'a>,
}
