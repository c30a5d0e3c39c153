// The lines of a row.

use crate::compiled::{push_kernel_run, push_turns};
use crate::machine::Machine;
use crate::replies::push_replies;
use crate::running::{push_code, push_image, push_run, push_verdict};
use crate::texts::{push_arguments, push_function, push_tokens, push_tree, push_types};
use rtio_types::Reply;
use std::alloc::{AllocError, Global};
use table_rows::{Bench, push_answer, push_text};

/// A text or an image, a program in words, and the replies to what the next run asks.
#[derive(Drop)]
pub struct Kernels {
    text: Vec<u8>,
    machine: Machine,
    replies: Vec<Reply>,
}

impl Bench for Kernels {
    fn new(alloc: Global) -> Kernels {
        Kernels {
            text: Vec::new(alloc),
            machine: Machine::new(alloc),
            replies: Vec::new(alloc),
        }
    }

    fn take(&mut self, alloc: Global, line: &str, told: &mut String) -> Result<(), AllocError> {
        if let Some(call) = line.strip_prefix("$ ") {
            return self.call(alloc, call, told);
        }
        if let Some(program) = line.strip_prefix(": ") {
            return self.machine.write(program);
        }
        match line.strip_prefix("? ") {
            Some(words) => push_replies(alloc, &mut self.replies, words),
            None => push_text(&mut self.text, line),
        }
    }
}

impl Kernels {
    // Makes a call, and pushes its answer.
    fn call(&self, alloc: Global, call: &str, told: &mut String) -> Result<(), AllocError> {
        let (word, rest) = call.split_once(' ').unwrap_or((call, ""));
        match word {
            "tokens" => push_tokens(alloc, told, &self.text),
            "tree" => push_tree(alloc, told, &self.text),
            "types" => push_types(alloc, told, &self.text),
            "function" => push_function(alloc, told, &self.text, rest),
            "arguments" => push_arguments(alloc, told, &self.text, rest),
            "run" => push_kernel_run(alloc, told, &self.text, rest, &self.replies),
            "turns" => push_turns(alloc, told, &self.text, rest),
            _ => self.call_machine(alloc, word, rest, told),
        }
    }

    fn call_machine(
        &self,
        alloc: Global,
        word: &str,
        rest: &str,
        told: &mut String,
    ) -> Result<(), AllocError> {
        match word {
            "decode" => push_code(alloc, told, &self.text),
            "encode" => push_image(alloc, told, &self.text),
            "verify" => push_verdict(alloc, told, &self.text),
            "execute" => {
                let image = self.image(alloc)?;
                push_run(alloc, told, &image, rest, &self.replies)
            }
            _ => push_answer(told, "no call"),
        }
    }

    // The image of the program in words, or the bytes where there is none.
    fn image(&self, alloc: Global) -> Result<Vec<u8>, AllocError> {
        if self.machine.is_empty() {
            return self.text.to_vec(alloc);
        }
        self.machine.image(alloc)
    }
}
