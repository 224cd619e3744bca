// Callees, form by form.

ghost use Rattle.std.specs.Prelude.{◌≡◌};
ghost use Rattle.es_steps.specs.Code as of;
ghost use Rattle.es_codes.specs.View.{reference_of, home_of};
ghost use Rattle.es_codes.specs.CodeView.{code_of, callee_of, codes_of};

use crate::boxed::Boxed;
use crate::code::{Callee, Code};
use crate::event::Home;
use crate::name::PrivateReference;
use crate::value::Value;
use es_base::list::List;

impl Callee {
    /// `f`
    #[tactic(auto, using(crate::proofs::Forms::plain_is))]
    pub fn plain(expression: Boxed<Code>) -> Callee
        ensures { callee_of result ≡ of.plain (code_of expression) }
    {
        Callee::Plain { expression }
    }

    /// `o[k]`
    #[tactic(auto, using(crate::proofs::Forms::on_member_is))]
    pub fn on_member(node: u32, object: Boxed<Code>, key: Boxed<Code>) -> Callee
        ensures { callee_of result ≡ of.on_member node (code_of object) (code_of key) }
    {
        Callee::OnMember { node, object, key }
    }

    /// `o.#x`
    #[tactic(auto, using(crate::proofs::Forms::on_private_is))]
    pub fn on_private(node: u32, means: PrivateReference, object: Boxed<Code>) -> Callee
        ensures { callee_of result ≡ of.on_private node (reference_of means) (code_of object) }
    {
        Callee::OnPrivate {
            node,
            means,
            object,
        }
    }

    /// `super[k]`
    #[tactic(auto, using(crate::proofs::Forms::on_super_is))]
    pub fn on_super(node: u32, home: Home, key: Boxed<Code>, this: Value) -> Callee
        ensures { callee_of result ≡ of.on_super node (home_of home) (code_of key) this }
    {
        Callee::OnSuper {
            node,
            home,
            key,
            this,
        }
    }

    /// A generated call with a receiver.
    #[tactic(auto, using(crate::proofs::Forms::with_receiver_is))]
    pub fn with_receiver(function: Boxed<Code>, object: Boxed<Code>) -> Callee
        ensures { callee_of result ≡ of.with_receiver (code_of function) (code_of object) }
    {
        Callee::WithReceiver { function, object }
    }

    /// `f?.`
    #[tactic(auto, using(crate::proofs::Forms::checked_is))]
    pub fn checked(callee: Boxed<Callee>) -> Callee
        ensures { callee_of result ≡ of.checked (callee_of callee) }
    {
        Callee::Checked { callee }
    }

    /// `(o?.k)`
    #[tactic(auto, using(crate::proofs::Forms::on_chain_is))]
    pub fn on_chain(node: u32, callee: Boxed<Callee>) -> Callee
        ensures { callee_of result ≡ of.on_chain node (callee_of callee) }
    {
        Callee::OnChain { node, callee }
    }

    /// In a chain, behind a test.
    #[tactic(auto, using(crate::proofs::Forms::behind_test_is))]
    pub fn behind_test(object: Boxed<Code>, again: List<Code>, callee: Boxed<Callee>) -> Callee
        ensures { callee_of result ≡ of.behind_test (code_of object) (codes_of again) (callee_of callee) }
    {
        Callee::BehindTest {
            object,
            again,
            callee,
        }
    }
}
