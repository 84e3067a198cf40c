//! What is told of an act: the lines that it prints in the end.

use std::alloc::Global;

/// How many bytes are told at most.
const ROOM: usize = 4096;

/// A text with room for all that is put into it, so that no memory is asked for while it is written.
pub fn roomy(alloc: Global) -> Option<String> {
    String::with_capacity(alloc, ROOM).ok()
}

/// The lines that an act prints.
#[derive(Drop)]
pub struct Told {
    text: String,
    /// Whether it is told where a call was refused memory. Else that leaves no trace in the lines.
    tells_refusals: bool,
}

impl Told {
    /// Nothing is told yet.
    pub fn new(alloc: Global, tells_refusals: bool) -> Option<Told> {
        Some(Told {
            text: roomy(alloc)?,
            tells_refusals,
        })
    }

    /// What was told.
    pub fn as_str(&self) -> &str {
        self.text.as_str()
    }

    /// Where more is put behind what was told.
    pub fn text(&mut self) -> &mut String {
        &mut self.text
    }

    /// Puts a text behind what was told.
    pub fn put(&mut self, text: &str) {
        let _ = self.text.push_str(text);
    }

    /// A call was refused memory.
    pub fn refused(&mut self) {
        if self.tells_refusals {
            self.put("refused, and then ");
        }
    }
}
