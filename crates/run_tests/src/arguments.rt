// The arguments of a command line.

use std::alloc::{AllocError, Global};

/// The arguments of a command line, which are written a line each.
pub fn arguments_of(alloc: Global, arguments: &str) -> Result<Vec<String>, AllocError> {
    let mut list = Vec::new(alloc);
    for argument in arguments.lines() {
        list.push(String::from_str(alloc, argument)?)?;
    }
    Ok(list)
}
