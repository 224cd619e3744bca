// At which place of the node around a node stands, by name.

ghost use Rattle.std.specs.Prelude.{◌≡◌};
ghost use Rattle.es_ctx.specs.AncestorKinds.{member_kinds, kind_of_member, as_parameter, kind_inside};

use es_base::kind::Kind;

/// At which place of the node around a node stands (oxc_traverse, `Ancestor`).
#[derive(Debug, Clone, Copy, PartialEq, Eq)]
pub enum AncestorKind {
    /// In the body of a program.
    ProgramBody,
    /// In a block, which may be the body of a function.
    BlockBody,
    /// In a static block.
    StaticBlockBody,
    /// In what a case of a `switch` has.
    SwitchCaseConsequent,
    /// Among the cases of a `switch`.
    SwitchCases,
    /// Among the parameters of a function that is no arrow.
    FunctionParams,
    /// As the body of a function that is no arrow.
    FunctionBody,
    /// Among the parameters of an arrow.
    ArrowParams,
    /// As the body of an arrow.
    ArrowBody,
    /// As the default value of a parameter.
    FormalParameterInitializer,
    /// As the heritage of a class.
    ClassHeritage,
    /// As the body of a class.
    ClassBody,
    /// As the key of a field.
    PropertyDefinitionKey,
    /// As the value of a field.
    PropertyDefinitionValue,
    /// As the key of a method.
    MethodDefinitionKey,
    /// As the value that a declarator gives.
    VariableDeclaratorInit,
    /// As a default value in a pattern that declares, but that of a parameter.
    AssignmentPatternRight,
    /// As the value that is assigned.
    AssignmentExpressionRight,
    /// As a default value in a pattern that is assigned to.
    AssignmentTargetWithDefaultInit,
    /// As what is exported by default.
    ExportDefault,
    /// As a declaration that is exported.
    ExportNamed,
    /// As what is called.
    CallCallee,
    /// As the tag of a template.
    Tag,
    /// As the parameter of a `catch`.
    CatchParam,
    /// In the parentheses of a `for`.
    LoopHead,
    /// Elsewhere.
    Other,
}

/// The places of the members of a node, in the order of the table of kinds, as far as they have names.
fn member_kinds(kind: Kind) -> &'static [AncestorKind]
    ensures { result.now ≡ member_kinds kind }
{
    match kind {
        Kind::Program => &[AncestorKind::Other, AncestorKind::ProgramBody],
        // { a; }
        Kind::BlockStatement => &[AncestorKind::BlockBody],
        // static { a; }
        Kind::StaticBlock => &[AncestorKind::StaticBlockBody],
        // switch (a) { case b: c; }
        Kind::SwitchStatement => &[AncestorKind::Other, AncestorKind::SwitchCases],
        Kind::SwitchCase => &[AncestorKind::Other, AncestorKind::SwitchCaseConsequent],
        // function f(a) { b; }
        Kind::FunctionDeclaration | Kind::FunctionExpression => &[
            AncestorKind::Other,
            AncestorKind::FunctionParams,
            AncestorKind::FunctionBody,
        ],
        // (a) => b
        Kind::ArrowFunctionExpression => &[AncestorKind::ArrowParams, AncestorKind::ArrowBody],
        // class C extends D { a = b; c() {} }
        Kind::ClassDeclaration | Kind::ClassExpression => &[
            AncestorKind::Other,
            AncestorKind::ClassHeritage,
            AncestorKind::ClassBody,
        ],
        Kind::PropertyDefinition => &[
            AncestorKind::PropertyDefinitionKey,
            AncestorKind::PropertyDefinitionValue,
        ],
        Kind::MethodDefinition => &[AncestorKind::MethodDefinitionKey],
        // var a = b;
        Kind::VariableDeclarator => &[AncestorKind::Other, AncestorKind::VariableDeclaratorInit],
        // var { a = b } = c;
        Kind::AssignmentPattern => &[AncestorKind::Other, AncestorKind::AssignmentPatternRight],
        // a = b
        Kind::AssignmentExpression => &[
            AncestorKind::Other,
            AncestorKind::Other,
            AncestorKind::AssignmentExpressionRight,
        ],
        // ({ a = b } = c)
        Kind::AssignmentTargetWithDefault => &[
            AncestorKind::Other,
            AncestorKind::AssignmentTargetWithDefaultInit,
        ],
        // export default a;
        Kind::ExportDefaultDeclaration => &[AncestorKind::ExportDefault],
        // export var a;
        Kind::ExportNamedDeclaration => &[AncestorKind::ExportNamed],
        // a(b)
        Kind::CallExpression => &[AncestorKind::CallCallee],
        // a`b`
        Kind::TaggedTemplateExpression => &[AncestorKind::Tag],
        // try {} catch (a) {}
        Kind::CatchClause => &[AncestorKind::CatchParam],
        // for (a; b; c) d;
        Kind::ForStatement => &[
            AncestorKind::LoopHead,
            AncestorKind::LoopHead,
            AncestorKind::LoopHead,
        ],
        // for (a of b) c;
        Kind::ForInStatement | Kind::ForOfStatement => {
            &[AncestorKind::LoopHead, AncestorKind::LoopHead]
        }
        _ => &[],
    }
}

/// The place of what stands at a member of a node of this kind that is no parameter.
fn kind_of_member(kind: Kind, at: usize) -> AncestorKind
    ensures { result ≡ kind_of_member kind at }
{
    member_kinds(kind)
        .get(at)
        .copied()
        .unwrap_or(AncestorKind::Other)
}

/// The place in a parameter: its default value is that of a parameter.
fn as_parameter(kind: AncestorKind) -> AncestorKind
    ensures { result ≡ as_parameter kind }
{
    match kind {
        // function f(a = b) {}
        AncestorKind::AssignmentPatternRight => AncestorKind::FormalParameterInitializer,
        other => other,
    }
}

/// The place of what stands at a member of a node of this kind, which itself stands at the place `around`.
pub fn kind_inside(around: AncestorKind, kind: Kind, at: usize) -> AncestorKind
    ensures { result ≡ kind_inside around kind at }
{
    let there = kind_of_member(kind, at);
    match around {
        AncestorKind::FunctionParams | AncestorKind::ArrowParams => as_parameter(there),
        _ => there,
    }
}
