// What entries are found by.

ghost use Rattle.std.specs.Prelude.{◌≡◌, IfOk};

use es_base::list::List;
use es_code_bodies::among::Among;
use es_code_rules::definition::Definition;
use std::alloc::{AllocError, Global};

/// What entries are found by: the definitions, and the classes whose parameters come before their fields.
#[derive(Drop)]
pub struct Terms<'a> {
    pub among: Among<'a>,
    pub late: &'a [u32],
}

impl<'a> Terms<'a> {
    /// Evaluation goes by these definitions, and refuses codes that stand in codes `limit` times or more. Fails on allocation
    /// failure alone.
    pub fn new(
        alloc: Global,
        definitions: &'a List<Definition>,
        limit: usize,
        late: &'a [u32],
    ) -> Result<Terms<'a>, AllocError>
        ensures definitions { IfOk result (λ t. t.among.definitions ≡ definitions.now) }
        ensures late { IfOk result (λ t. t.late.now ≡ late.now) }
    {
        let among = Among::new(alloc, definitions, limit)?;
        Ok(Terms { among, late })
    }
}
