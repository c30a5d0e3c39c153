// What a core is made of, called alone.

use crate::links::{link_of, tell_lines, tell_link};
use crate::shelf::{store_of, tell_store};
use dma_store::Store;
use rtio_log::Log;
use sat_link::Link;
use std::alloc::{AllocError, Global};

/// A store of recordings, a link and a log.
#[derive(Drop)]
pub struct Parts {
    store: Store,
    link: Option<Link>,
    log: Log,
}

impl Parts {
    /// An empty store, no link, and an empty log.
    pub fn new(alloc: Global) -> Parts {
        Parts {
            store: Store::new(alloc),
            link: None,
            log: Log::new(alloc),
        }
    }

    /// Tells the answer to a call of one of them. Fails only for want of memory.
    pub fn tell(
        &mut self,
        alloc: Global,
        told: &mut String,
        part: &str,
        call: &str,
    ) -> Result<(), AllocError> {
        match part {
            "store" => self.tell_store(alloc, told, call),
            "link" => self.tell_link(alloc, told, call),
            _ => tell_lines(told, &mut self.log, call),
        }
    }

    fn tell_store(
        &mut self,
        alloc: Global,
        told: &mut String,
        call: &str,
    ) -> Result<(), AllocError> {
        let (verb, rest) = call.split_once(' ').unwrap_or((call, ""));
        if verb == "new" {
            self.store = store_of(alloc, rest)?;
            return told.push_str("ok");
        }
        tell_store(alloc, told, &mut self.store, verb, rest)
    }

    fn tell_link(
        &mut self,
        alloc: Global,
        told: &mut String,
        call: &str,
    ) -> Result<(), AllocError> {
        if let Some(words) = call.strip_prefix("new ") {
            self.link = link_of(alloc, words)?;
            let is_made = self.link.is_some();
            return told.push_str(if is_made { "ok" } else { "refused" });
        }
        match &mut self.link {
            Some(link) => tell_link(told, link, call),
            None => told.push_str("no link"),
        }
    }
}
