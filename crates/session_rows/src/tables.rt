// The lines of a row.

use crate::datasets::{push_dataset, push_names, put};
use crate::sessions::{push_copy, push_session};
use dataset_db::Datasets;
use rtio_types::Name;
use std::alloc::{AllocError, Global};
use table_rows::{Bench, push_answer, push_text};

/// The text of a session, and two sets of datasets, the first of which is called.
#[derive(Drop)]
pub struct Tables {
    text: Vec<u8>,
    datasets: Datasets,
    others: Datasets,
}

impl Bench for Tables {
    fn new(alloc: Global) -> Tables {
        Tables {
            text: Vec::new(alloc),
            datasets: Datasets::new(alloc),
            others: Datasets::new(alloc),
        }
    }

    fn take(&mut self, alloc: Global, line: &str, told: &mut String) -> Result<(), AllocError> {
        match line.strip_prefix("$ ") {
            Some("read") => push_session(alloc, told, &self.text),
            Some("copy") => push_copy(alloc, told, &self.text),
            Some(call) => self.call(alloc, told, call),
            None => push_text(&mut self.text, line),
        }
    }
}

impl Tables {
    // Calls the datasets.
    fn call(&mut self, alloc: Global, told: &mut String, call: &str) -> Result<(), AllocError> {
        match call {
            "names" => push_names(told, &self.datasets),
            "fork" => {
                let copy = self.datasets.copy(alloc)?;
                self.others = std::mem::replace(&mut self.datasets, copy);
                push_answer(told, "ok")
            }
            "other" => {
                std::mem::swap(&mut self.datasets, &mut self.others);
                push_answer(told, "ok")
            }
            _ => self.call_named(alloc, told, call),
        }
    }

    // Calls one dataset.
    fn call_named(
        &mut self,
        alloc: Global,
        told: &mut String,
        call: &str,
    ) -> Result<(), AllocError> {
        let (verb, rest) = call.split_once(' ').unwrap_or((call, ""));
        if verb == "set" || verb == "list" {
            return put(alloc, told, &mut self.datasets, verb == "list", rest);
        }
        let (name, number) = rest.split_once(' ').unwrap_or((rest, ""));
        let Some(name) = Name::read(name.as_bytes()) else {
            return push_answer(told, "no name");
        };
        match verb {
            "get" => push_dataset(told, &self.datasets, &name),
            "append" => match self
                .datasets
                .append(alloc, &name, number.parse().unwrap_or(0))
            {
                Ok(()) => push_answer(told, "ok"),
                Err(end) => write!(told, "\n= {end:?}"),
            },
            _ => push_answer(told, "no call"),
        }
    }
}
