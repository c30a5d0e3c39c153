// What is made of a kernel's text: tokens, a tree, types.

use kern_arguments::arguments_fit;
use kern_lexer::{LexEnd, lex};
use kern_parser::{SyntaxEnd, parse};
use kern_syntax::{Program, nodes, print};
use kern_types::{Checked, TypeFault, check};
use std::alloc::{AllocError, Global};
use table_rows::{push_answer, push_output};

const MOST_BYTES: usize = 1_000_000;

/// Pushes the text's tokens, a line each, or its fault.
pub fn push_tokens(alloc: Global, told: &mut String, text: &[u8]) -> Result<(), AllocError> {
    if text.len() >= MOST_BYTES {
        return push_answer(told, "too long");
    }
    match lex(alloc, text) {
        Ok(tokens) => {
            for token in &tokens {
                let (kind, at, len, line) = (token.kind, token.at, token.len, token.line);
                write!(told, "\n> {kind:?} {at} {len} {line}")?;
            }
            Ok(())
        }
        Err(LexEnd::Fault { at, kind }) => write!(told, "\n= fault {at} {kind:?}"),
        Err(LexEnd::Memory) => Err(AllocError),
    }
}

/// Pushes the canonical text and the number of nodes, or the first wrong token.
pub fn push_tree(alloc: Global, told: &mut String, text: &[u8]) -> Result<(), AllocError> {
    if text.len() >= MOST_BYTES {
        return push_answer(told, "too long");
    }
    let Ok(tokens) = lex(alloc, text) else {
        return push_answer(told, "no tokens");
    };
    match parse(alloc, &tokens, text) {
        Ok(program) => {
            let printed = print(alloc, &program)?;
            push_output(told, '>', "", &printed)?;
            write!(told, "\n= {} nodes", nodes(&program))
        }
        Err(SyntaxEnd::Fault { token }) => write!(told, "\n= fault {token}"),
        Err(SyntaxEnd::Memory) => Err(AllocError),
    }
}

/// Pushes that the program is typed, or its first fault.
pub fn push_types(alloc: Global, told: &mut String, text: &[u8]) -> Result<(), AllocError> {
    match types_of(alloc, text) {
        None => push_answer(told, "no tree"),
        Some(Ok(_)) => push_answer(told, "typed"),
        Some(Err(TypeFault { line, kind })) => write!(told, "\n= {kind:?} in line {line}"),
    }
}

/// Pushes the place of a function.
pub fn push_function(
    alloc: Global,
    told: &mut String,
    text: &[u8],
    name: &str,
) -> Result<(), AllocError> {
    let Some(Ok(checked)) = types_of(alloc, text) else {
        return push_answer(told, "no types");
    };
    match checked.function(name.as_bytes()) {
        Some(place) => write!(told, "\n= {place}"),
        None => push_answer(told, "none"),
    }
}

/// The program of a text, or the first fault of its types; None where it has no tree.
pub fn types_of(alloc: Global, text: &[u8]) -> Option<Result<Checked, TypeFault>> {
    if text.len() >= MOST_BYTES {
        return None;
    }
    let tokens = lex(alloc, text).ok()?;
    Some(check(alloc, parse(alloc, &tokens, text).ok()?))
}

/// Pushes whether arguments fit the first function of a text.
pub fn push_arguments(
    alloc: Global,
    told: &mut String,
    text: &[u8],
    words: &str,
) -> Result<(), AllocError> {
    let Some(program) = tree_of(alloc, text) else {
        return push_answer(told, "no tree");
    };
    let Some(function) = program.functions().first() else {
        return push_answer(told, "no function");
    };
    let arguments = numbers_of(alloc, words)?;
    let is_fit = arguments_fit(function.parameters.items(), &arguments);
    push_answer(told, if is_fit { "fit" } else { "unfit" })
}

fn tree_of(alloc: Global, text: &[u8]) -> Option<Program> {
    if text.len() >= MOST_BYTES {
        return None;
    }
    let tokens = lex(alloc, text).ok()?;
    parse(alloc, &tokens, text).ok()
}

/// The numbers between blanks; what is none counts as 0.
pub fn numbers_of(alloc: Global, words: &str) -> Result<Vec<i64>, AllocError> {
    let mut numbers = Vec::new(alloc);
    for word in words.split(' ') {
        if !word.is_empty() {
            numbers.push(word.parse().unwrap_or(0))?;
        }
    }
    Ok(numbers)
}
