//! The texts that came so far.
ghost use Rattle.std.specs.Prelude.{◌≡◌, [], not, IfOk, OnOk, OnErr};
ghost use Rattle.tc_model.specs.Texts.{is_among, with_text};

use indexmap::IndexSet;
use std::alloc::{AllocError, Global};
use std::marker::Model;

/// Texts, each once, in order of first place. One is found by its hash.
#[derive(Drop)]
pub(crate) struct Seen {
    alloc: Global,
    texts: IndexSet<Vec<u8>>,
}

impl Model for Seen {
    ghost use Rattle.std.specs.Prelude.{ℕ, List, map};

    ghost Value = { List (List ℕ) };

    ghost view = { λ s. map (λ k. k.items) s.texts.keys };
}

impl Seen {
    /// None.
    pub(crate) fn new(alloc: Global) -> Seen
        ensures { result ≡ [] }
    {
        Seen {
            alloc,
            texts: IndexSet::new(alloc),
        }
    }

    /// Adds a text unless it is there, and says whether it is new. An `Err` changes nothing.
    pub(crate) fn add(&mut self, text: &[u8]) -> Result<bool, AllocError>
        ensures added { OnOk result (self.new ≡ with_text self.old text.now) }
        ensures new { IfOk result (λ new. new ≡ not (is_among text.now self.old)) }
        ensures err { OnErr result (self.new ≡ self.old) }
    {
        let owned = Vec::from_slice(self.alloc, text)?;
        let Ok(new) = self.texts.insert(owned) else {
            return Err(AllocError);
        };
        Ok(new)
    }

    /// Whether a text is there.
    pub(crate) fn has(&self, text: &[u8]) -> bool
        ensures { result ≡ is_among text.now self.now }
    {
        self.texts.contains(text)
    }
}
