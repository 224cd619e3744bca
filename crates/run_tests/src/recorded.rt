// A lowering that gives one program, whatever it is asked of.

use borrowed_json::parse::parse;
use es_base::ids::NodeId;
use es_ledger::ledger::{LedgerError, read_ledger};
use es_lowering::lowering::{LoweredProgram, Lowering, Unlowered};
use es_node::node::Node;
use es_reading::fault::ReadError;
use es_reading::numbers::Numbers;
use es_reading::tree::read_tree;
use es_steps::options::Options;
use json::Scratch;
use std::alloc::Global;

/// Texts have fewer bytes than this.
const MANY_BYTES: usize = 1 << 26;

/// A lowered program as JSON text, with its generated names.
#[derive(Clone, Copy)]
pub struct Recorded<'a> {
    pub text: &'a str,
}

impl Lowering for Recorded<'_> {
    ghost use Rattle.es_lowering.specs.Any.{DeclinesAny, MakesAny};

    ghost makes = { MakesAny };

    ghost declines = { DeclinesAny };

    fn lower(
        &self,
        alloc: Global,
        _options: &Options,
        _source: &Node,
    ) -> Result<LoweredProgram, Unlowered> {
        read_program(alloc, self.text.as_bytes())
    }
}

/// The program that a text is. One that is none is told as not lowered.
fn read_program(alloc: Global, text: &[u8]) -> Result<LoweredProgram, Unlowered> {
    let none = Unlowered::NotYet { node: NodeId(0) };
    if text.len() >= MANY_BYTES {
        return Err(none);
    }
    let mut scratch = Scratch::new(alloc);
    let Ok(value) = parse(alloc, text, &mut scratch) else {
        return Err(none);
    };
    let names = match read_ledger(alloc, &value) {
        Ok(names) => names,
        Err(LedgerError::NoMemory) => return Err(Unlowered::NoMemory),
        Err(LedgerError::BadLedger) => return Err(none),
    };
    match read_tree(alloc, &value, Numbers::Given) {
        Ok((program, _foreign)) => Ok(LoweredProgram { program, names }),
        Err(ReadError::NoMemory) => Err(Unlowered::NoMemory),
        Err(_) => Err(none),
    }
}
