// The walk over a code that finds its entries.

ghost use Rattle.std.specs.Prelude.{◌≡◌, OnOk};
ghost use Rattle.es_codes.specs.CodeView.{code_of};
ghost use Rattle.es_code_entries.specs.Found.{Reaches, seen};
ghost use Rattle.es_code_entries.specs.Walked as walked;

use es_by_number::numbered::Numbered;
use es_code_environments::here::Here;
use es_code_environments::part::{CodeRole, CodesRole, Part};
use es_code_environments::terms::Terms;
use es_codes::code::Code;
use es_entries::entry::Entry;
use es_evaluator::fault::Fault;

mod callees;
mod classes;
mod expressions;
mod functions;
mod parts;
mod targets;

/// A walk over codes.
#[derive(Drop)]
pub struct Walk<'a> {
    pub terms: Terms<'a>,
}

impl<'a> Walk<'a> {
    /// Adds the entries of the functions and the classes in a code that stands here.
    #[cycle(walk)]
    #[tactic(auto, using(crate::proofs::EntryForms::given_function_is, crate::proofs::EntryForms::class_is, crate::proofs::Reached::nothing_reached, es_codes::proofs::Forms::nothing_is, es_codes::proofs::Forms::no_rule_is, es_codes::proofs::Forms::value_is, es_codes::proofs::Forms::spelled_is, es_codes::proofs::Forms::private_name_is, es_codes::proofs::Forms::binding_is, es_codes::proofs::Forms::rest_is, es_codes::proofs::Forms::name_is, es_codes::proofs::Forms::super_is, es_codes::proofs::Forms::member_is, es_codes::proofs::Forms::private_member_is, es_codes::proofs::Forms::super_member_is, es_codes::proofs::Forms::private_in_is, es_codes::proofs::Forms::assign_is, es_codes::proofs::Forms::compound_is, es_codes::proofs::Forms::logical_is, es_codes::proofs::Forms::logical_assign_is, es_codes::proofs::Forms::update_is, es_codes::proofs::Forms::call_is, es_codes::proofs::Forms::tag_is, es_codes::proofs::Forms::construct_is, es_codes::proofs::Forms::super_call_is, es_codes::proofs::Forms::super_call_with_all_is, es_codes::proofs::Forms::sequence_is, es_codes::proofs::Forms::template_string_is, es_codes::proofs::Forms::template_is, es_codes::proofs::Forms::operation_is, es_codes::proofs::Forms::piece_is, es_codes::proofs::Forms::chain_is, es_codes::proofs::Forms::short_is, es_codes::proofs::Forms::tested_is, es_codes::proofs::Forms::pattern_is, es_codes::proofs::Forms::takes_is, es_codes::proofs::Forms::steps_is, es_codes::proofs::Forms::gives_to_is, es_codes::proofs::Forms::export_default_is, es_codes::proofs::Forms::function_is, es_codes::proofs::Forms::new_function_is, es_codes::proofs::Forms::new_return_is, es_codes::proofs::Forms::class_code_is, es_codes::proofs::Forms::field_is, es_codes::proofs::Forms::private_field_is, es_codes::proofs::Forms::method_is, es_codes::proofs::Forms::private_method_is, es_codes::proofs::Forms::constructor_is, es_codes::proofs::Forms::static_block_is, es_codes::proofs::Forms::generated_element_is, es_codes::proofs::Forms::from_call_is, es_codes::proofs::Forms::from_member_is, es_codes::proofs::Forms::key_of_is, es_codes::proofs::Forms::helper_is, es_codes::proofs::Forms::helper_call_is, es_codes::proofs::Forms::throw_is, es_codes::proofs::Forms::define_is, es_codes::proofs::Forms::private_initialize_is, es_codes::proofs::Forms::add_brand_is, es_codes::proofs::Forms::bound_is, es_codes::proofs::Forms::setter_is, es_codes::proofs::Forms::private_value_is, es_codes::proofs::Forms::call_arrow_is, es_codes::proofs::Forms::call_closure_is, es_codes::proofs::Forms::initializers_is, es_codes::proofs::Forms::give_function_is, es_codes::proofs::Forms::give_class_is))]
    pub fn add_entries(
        &self,
        here: &mut Here,
        found: &mut Vec<Numbered<Entry>>,
        code: &Code,
    ) -> Result<(), Fault>
        ensures here { OnOk result (here.new ≡ here.old) }
        ensures found { Reaches result (seen found.old.items) (seen found.new.items) (walked.entries self.now.terms here.old (code_of code.now)) }
    {
        match code {
            Code::Member { object, key, .. } => self.add_two(here, found, object.get(), key.get()),
            Code::Logical { left, right, .. } => self.add_two(here, found, left.get(), right.get()),
            Code::Define { key, right, .. } => self.add_two(here, found, key.get(), right.get()),
            Code::PrivateMember { object, .. } => self.add_entries(here, found, object.get()),
            Code::SuperMember { key, .. } => self.add_entries(here, found, key.get()),
            Code::PrivateIn { object, .. } => self.add_entries(here, found, object.get()),
            Code::Chain { expression, .. } => self.add_entries(here, found, expression.get()),
            Code::Short { expression } => self.add_entries(here, found, expression.get()),
            Code::ExportDefault { expression } => self.add_entries(here, found, expression.get()),
            Code::FromCall { expression } => self.add_entries(here, found, expression.get()),
            Code::FromMember { expression } => self.add_entries(here, found, expression.get()),
            Code::KeyOf { expression } => self.add_entries(here, found, expression.get()),
            Code::PrivateInitialize { right, .. } => self.add_entries(here, found, right.get()),
            Code::GiveClass { expression, .. } => self.add_entries(here, found, expression.get()),
            Code::Assign { to, right } => self.add_assigned(here, found, to.get(), right.get()),
            Code::Compound { to, right, .. } => self.add_then(
                here,
                found,
                Part::Target(to.get()),
                Part::Code(CodeRole::Value, right.get()),
            ),
            Code::LogicalAssign { to, right, .. } => self.add_then(
                here,
                found,
                Part::Target(to.get()),
                Part::Code(CodeRole::Value, right.get()),
            ),
            Code::Update { to, .. } => self.add_target(here, found, to.get()),
            Code::GivesTo { to, .. } => self.add_given(here, found, to.get()),
            Code::Call {
                callee,
                arguments,
                ..
            } => self.add_then(
                here,
                found,
                Part::Callee(callee.get()),
                Part::Codes(CodesRole::All, arguments.as_slice()),
            ),
            Code::Tag {
                callee,
                arguments,
                ..
            } => self.add_then(
                here,
                found,
                Part::Callee(callee.get()),
                Part::Codes(CodesRole::All, arguments.as_slice()),
            ),
            Code::Construct {
                callee,
                arguments,
                ..
            } => self.add_then(
                here,
                found,
                Part::Code(CodeRole::Value, callee.get()),
                Part::Codes(CodesRole::All, arguments.as_slice()),
            ),
            Code::SuperCall { arguments, .. } => self.add_each(
                here,
                found,
                CodeRole::Value,
                arguments.as_slice(),
            ),
            Code::Sequence { all } => self.add_each(here, found, CodeRole::Value, all.as_slice()),
            Code::Template { expressions, .. } => self.add_each(
                here,
                found,
                CodeRole::Value,
                expressions.as_slice(),
            ),
            Code::Steps { all } => self.add_each(here, found, CodeRole::Value, all.as_slice()),
            Code::CallClosure { arguments, .. } => self.add_each(
                here,
                found,
                CodeRole::Value,
                arguments.as_slice(),
            ),
            Code::Operation { operands, held, .. } => {
                self.add_operation(here, found, operands.as_slice(), held.as_slice())
            }
            Code::Tested {
                object,
                again,
                rest,
            } => self.add_tested(
                here,
                found,
                object.get(),
                again.as_slice(),
                Part::Code(CodeRole::Value, rest.get()),
            ),
            Code::CallArrow {
                parameters,
                body,
                arguments,
            } => self.add_then(
                here,
                found,
                Part::Arguments {
                    parameters: parameters.as_slice(),
                    arguments: arguments.as_slice(),
                },
                Part::Code(CodeRole::Value, body.get()),
            ),
            Code::Function {
                node,
                form,
                own_name,
                parameters,
                body,
            } => self.add_function(
                here,
                found,
                *node,
                *form,
                *own_name,
                parameters.as_slice(),
                body.get(),
            ),
            Code::GiveFunction { function, .. } => self.add_given_function(
                here,
                found,
                function.get(),
            ),
            Code::Class {
                node,
                declared,
                heritage,
                elements,
            } => self.add_class(
                here,
                found,
                *node,
                *declared,
                heritage.as_slice(),
                elements.as_slice(),
            ),
            Code::Nothing => Ok(()),
            Code::NoRule => Ok(()),
            Code::Value { .. } => Ok(()),
            Code::Spelled { .. } => Ok(()),
            Code::PrivateName { .. } => Ok(()),
            Code::Binding { .. } => Ok(()),
            Code::Rest { .. } => Ok(()),
            Code::Name { .. } => Ok(()),
            Code::Super => Ok(()),
            Code::SuperCallWithAll { .. } => Ok(()),
            Code::TemplateString { .. } => Ok(()),
            Code::Piece { .. } => Ok(()),
            Code::Pattern { .. } => Ok(()),
            Code::Takes { .. } => Ok(()),
            Code::NewFunction { .. } => Ok(()),
            Code::NewReturn { .. } => Ok(()),
            Code::Field { .. } => Ok(()),
            Code::PrivateField { .. } => Ok(()),
            Code::Method { .. } => Ok(()),
            Code::PrivateMethod { .. } => Ok(()),
            Code::Constructor { .. } => Ok(()),
            Code::StaticBlock { .. } => Ok(()),
            Code::GeneratedElement { .. } => Ok(()),
            Code::Helper { .. } => Ok(()),
            Code::HelperCall { .. } => Ok(()),
            Code::Throw => Ok(()),
            Code::AddBrand { .. } => Ok(()),
            Code::Bound { .. } => Ok(()),
            Code::Setter { .. } => Ok(()),
            Code::PrivateValue { .. } => Ok(()),
            Code::Initializers { .. } => Ok(()),
        }
    }
}
