// The arguments of the command line.

use std::alloc::{Alloc, Global};
use std::rt::Env;
use std::{env, io};

/// The status of a program where the arguments of the command line can't be had.
pub const NO_ARGUMENTS: u8 = 10;

/// The arguments behind the program's name.
pub fn arguments_of<R: Env + Alloc<A = Global>>(rt: &R) -> io::Result<Vec<String>> {
    let mut arguments = Vec::new(rt.alloc());
    for argument in env::args(rt)?.skip(1) {
        arguments.push(argument)?;
    }
    Ok(arguments)
}
