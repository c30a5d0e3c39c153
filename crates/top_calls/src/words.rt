// The words of a program.

use std::alloc::{AllocError, Global};
use std::rt::Env;
use std::{env, io};

/// The words behind a program's name. Where one of them isn't UTF-8, an empty word stands for all, which no program accepts. It
/// fails only for want of memory. What the system gives is trusted: no clause speaks of it.
pub fn own_words<R: Env + AllocGlobal>(rt: &R) -> Result<Vec<String>, AllocError> {
    match env::args(rt) {
        Ok(args) => args.skip(1).collect(rt.alloc()),
        Err(error) if error.kind() == io::ErrorKind::OutOfMemory => Err(AllocError),
        Err(_) => one_word(rt.alloc()),
    }
}

fn one_word(alloc: Global) -> Result<Vec<String>, AllocError> {
    let mut words = Vec::new(alloc);
    words.push(String::new(alloc))?;
    Ok(words)
}
