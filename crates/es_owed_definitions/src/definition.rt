// A definition of a field.

use es_node::node::Node;

/// What a definition defines.
#[derive(Clone, Copy)]
pub enum DefinedKey<'a> {
    /// The brand of the private methods of a class, by its generated name.
    Brand(&'a str),
    /// A private member, by its generated name.
    Private(&'a str),
    /// A key that is no property name.
    Value(&'a Node),
    /// A key that stands as a property name, or as if it were one.
    Name(&'a Node),
}

/// A definition on an object, or of the object of a static field itself.
#[derive(Clone, Copy)]
pub struct FieldDefinition<'a> {
    pub object: Option<&'a Node>,
    pub key: DefinedKey<'a>,
    pub value: Option<&'a Node>,
}
