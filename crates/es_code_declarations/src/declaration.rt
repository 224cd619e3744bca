// `let a, b = c;`: what a declaration initializes. (ECMA-262, 14.3.1.2.)

ghost use Rattle.std.specs.Prelude.{◌≡◌, IfOk, OnOk, cond};
ghost use Rattle.es_codes.specs.CodeView.{code_of, codes_of};
ghost use Rattle.es_codes.specs.View.{kind_of};
ghost use Rattle.es_steps.specs.Code.{and, binding, done, joined};
ghost use Rattle.es_steps.specs.Members as of_node;
ghost use Rattle.es_steps.specs.Statements as spec;
ghost use Rattle.es_code_members.specs.MembersView.{member_of, members_of};

use es_base::list::List;
use es_base::name::Name;
use es_base::strings::spells;
use es_code_members::codes::add_codes;
use es_code_members::member::Member;
use es_codes::boxed::Boxed;
use es_codes::code::{Code, Target};
use es_codes::name::NameKind;
use es_codes::value::Value;
use std::alloc::{AllocError, Global};
use std::mem;

/// A copy of what a name is. Fails on allocation failure alone.
fn copy_kind(alloc: Global, kind: &NameKind) -> Result<NameKind, AllocError>
    ensures { IfOk result (λ k. k ≡ kind.now) }
{
    Ok(match kind {
        NameKind::Fixed(binding) => NameKind::Fixed(*binding),
        NameKind::Changing(referent) => NameKind::Changing(referent.try_clone(alloc)?),
        NameKind::MeansClass { class, binding } => NameKind::MeansClass {
            class: *class,
            binding: *binding,
        },
        NameKind::Generated(generated) => NameKind::Generated(*generated),
        NameKind::StaticMethod { key, class } => NameKind::StaticMethod {
            key: *key,
            class: *class,
        },
    })
}

/// `let a;`: the name is initialized with undefined. Fails on allocation failure alone.
fn undefined_name(
    alloc: Global,
    node: u32,
    spelling: Name,
    kind: NameKind,
) -> Result<Code, AllocError>
    ensures { IfOk result (λ c. code_of c ≡ spec.undefined_let (binding node spelling (kind_of kind))) }
{
    let undefined = Boxed::new(alloc, Code::value(Value::undefined()))?;
    let declared = spelling.try_clone(alloc)?;
    let declared_kind = copy_kind(alloc, &kind)?;
    let mut all = List::new(alloc);
    all.push(Code::binding(node, declared, declared_kind))?;
    let to = Boxed::new(alloc, Target::to_name(node, spelling, kind))?;
    all.push(Code::assign(to, undefined))?;
    Ok(Code::steps(all))
}

/// A declarator of a `let`. Fails on allocation failure alone.
#[tactic(auto, using(crate::proofs::LetForms::a_binding, crate::proofs::LetForms::no_binding))]
fn undefined_let(alloc: Global, declarator: Code) -> Result<Code, AllocError>
    ensures { IfOk result (λ c. code_of c ≡ spec.undefined_let (code_of declarator)) }
{
    match declarator {
        Code::Binding {
            node,
            spelling,
            kind,
        } => undefined_name(alloc, node, spelling, kind),
        other => Ok(other),
    }
}

/// Adds the next declarator of a `let`. Fails on allocation failure alone.
#[tactic(auto, using(es_code_members::proofs::Chaining::joined_one))]
fn add_undefined_let(
    alloc: Global,
    declarator: &mut Code,
    to: &mut List<Code>,
) -> Result<(), AllocError>
    ensures { OnOk result (codes_of to.new ≡ joined (codes_of to.old) (spec.undefined_lets (and (code_of declarator.old) done))) }
{
    let declarator = undefined_let(alloc, mem::replace(declarator, Code::nothing()))?;
    to.push(declarator)
}

/// The declarators of a `let`, which are taken out. Fails on allocation failure alone.
fn undefined_lets(alloc: Global, declarators: &mut [Code]) -> Result<List<Code>, AllocError>
    ensures { IfOk result (λ cs. codes_of cs ≡ spec.undefined_lets (codes_of declarators.old)) }
{
    let mut all = List::new(alloc);
    for declarator in declarators.iter_mut() {
        add_undefined_let(alloc, declarator, &mut all)?;
    }
    Ok(all)
}

fn is_let_name(word: &Name) -> bool
    ensures { result ≡ spec.is_let_word (of_node.string word.now) }
{
    spells(word.as_str(), "let")
}

/// Whether a declaration with this word is a `let`.
pub fn is_let_word(word: &Member) -> bool
    ensures { result ≡ spec.is_let_word (member_of word.now) }
{
    match word {
        Member::String(word) => is_let_name(word),
        _ => false,
    }
}

/// Whether the first of these members says that a declaration is a `let`.
#[tactic(auto, using(crate::proofs::LetForms::none_first))]
fn is_let(members: &[Member]) -> bool
    ensures { result ≡ spec.is_let_word (of_node.at 0 (members_of members.now)) }
{
    match members {
        [word, ..] => is_let_word(word),
        [] => false,
    }
}

/// The codes of declarators, of a `let` or another declaration. Fails on allocation failure alone.
fn declared(alloc: Global, is_let: bool, declarators: List<Code>) -> Result<List<Code>, AllocError>
    ensures { IfOk result (λ cs. codes_of cs ≡ cond is_let (spec.undefined_lets (codes_of declarators)) (codes_of declarators)) }
{
    if is_let {
        let mut declarators = declarators;
        undefined_lets(alloc, declarators.as_mut_slice())
    } else {
        Ok(declarators)
    }
}

/// `let a, b = c;`: the declarators in order; a name that a `let` gives no value is initialized with undefined. Fails on
/// allocation failure alone.
#[tactic(auto, using(es_code_members::proofs::Chaining::joined_nothing))]
pub fn declaration_code(alloc: Global, members: &mut [Member]) -> Result<Code, AllocError>
    ensures { IfOk result (λ c. code_of c ≡ spec.declaration_code (members_of members.old)) }
{
    let is_let = is_let(members);
    let mut all = List::new(alloc);
    add_codes(members, &mut all)?;
    Ok(Code::steps(declared(alloc, is_let, all)?))
}
