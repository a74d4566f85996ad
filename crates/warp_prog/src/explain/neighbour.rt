//! The name that was meant: the nearest of those that are there.

use crate::explain::text::push_all;
use std::alloc::{AllocError, Global};
use strsim::osa_distance;

/// Names with more edits between them are not taken for each other.
const MOST_EDITS: usize = 2;

/// The nearest so far of the names that a name was compared with.
#[derive(Drop)]
pub(crate) struct Nearest<'f> {
    alloc: Global,
    wanted: &'f str,
    found: Option<&'f str>,
    // Less than this makes a name the nearest.
    edits: usize,
    // Whether memory was wanting for a comparison.
    lacked: bool,
}

impl<'f> Nearest<'f> {
    /// For this name, which was compared with none so far. A name of one byte is near to none.
    pub(crate) fn new(alloc: Global, wanted: &'f str) -> Nearest<'f> {
        let edits = wanted.len().min(MOST_EDITS + 1);
        Nearest {
            alloc,
            wanted,
            found: None,
            edits,
            lacked: false,
        }
    }

    /// Compares it with this name.
    pub(crate) fn compare(&mut self, name: &'f str) {
        match osa_distance(self.alloc, self.wanted, name) {
            Ok(edits) => if edits < self.edits {
                self.edits = edits;
                self.found = Some(name);
            },
            Err(_) => self.lacked = true,
        }
    }

    /// Writes the question whether the nearest was meant, if there is one. Fails also where memory was wanting before.
    pub(crate) fn write(&self, text: &mut String) -> Result<(), AllocError> {
        if self.lacked {
            return Err(AllocError);
        }
        match self.found {
            Some(name) => push_all(text, &[" (did you mean \"", name, "\"?)"]),
            None => Ok(()),
        }
    }
}
