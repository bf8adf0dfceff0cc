//! What a round leaves to be done behind it.
ghost use Rattle.std.specs.Prelude.{◌≡◌, ◌||◌, ◌++◌, ◌∷◌, [], true, Some, None, map, OnOk};
ghost use Rattle.std.specs.Option.{ForSome};
ghost use Rattle.tc_base.specs.Labels.{is_label};
ghost use Rattle.tc_base.specs.LabelTexts.{text_of};
ghost use Rattle.ty_core.specs.Serving.{entries};
ghost use Rattle.ty_rounds.specs.Works.{listed, no_work, work};

use std::alloc::{AllocError, Global};
use tc_base::{Blob, Label};
use ty_core::Served;
use ty_ulog::Record;

/// A record that follows another than the last one held.
#[derive(Clone, Copy, Debug)]
pub struct Gap {
    pub held: u64,
    pub follows: u64,
}

/// Whether there is anything to commit, the requests that updated, the copies to be made, the record taken off the link and the gap met there.
#[derive(Drop)]
pub struct Batch {
    pub commits: bool,
    pub updates: Vec<Blob>,
    pub labels: Vec<Label>,
    pub taken: Option<Record>,
    pub gap: Option<Gap>,
}

// What is there comes behind the others.
#[inline(always)]
fn push_one<T: Drop>(items: &mut Vec<T>, item: Option<T>) -> Result<(), AllocError>
    ensures { OnOk result (items.new.items ≡ items.old.items ++ listed item) }
{
    let Some(item) = item else {
        return Ok(());
    };
    items.push(item)?;
    Ok(())
}

// A label comes behind the others.
#[inline(never)]
fn add_label(labels: &mut Vec<Label>, text: &[u8]) -> Result<(), AllocError>
    requires label { is_label text.now ≡ true }
    ensures { OnOk result (map text_of labels.new.items ≡ map text_of labels.old.items ++ text.now ∷ []) }
{
    let Some(label) = Label::of(text) else {
        return Ok(());
    };
    labels.push(label)?;
    Ok(())
}

// A label comes behind the others, where one is there.
#[inline(always)]
fn push_label(labels: &mut Vec<Label>, text: Option<Blob>) -> Result<(), AllocError>
    requires label { ForSome text (λ l. is_label l ≡ true) }
    ensures { OnOk result (map text_of labels.new.items ≡ map text_of labels.old.items ++ entries text) }
{
    let Some(text) = text else {
        return Ok(());
    };
    add_label(labels, text.as_slice())
}

// Leaves nothing; where nothing is there it is looked at alone.
#[inline(always)]
fn empty<T: Drop>(items: &mut Vec<T>)
    ensures { items.new.items ≡ [] }
{
    if items.is_empty() {
        return;
    }
    items.clear();
}

impl Batch {
    pub fn new(alloc: Global) -> Batch
        ensures { work result ≡ no_work }
    {
        Batch {
            commits: false,
            updates: Vec::new(alloc),
            labels: Vec::new(alloc),
            taken: None,
            gap: None,
        }
    }

    /// Leaves nothing to be done; its room is used again.
    #[inline(always)]
    pub fn clear(&mut self)
        ensures { work self.new ≡ no_work }
    {
        self.commits = false;
        empty(&mut self.updates);
        empty(&mut self.labels);
        self.taken = None;
        self.gap = None;
    }

    /// What is left to do behind a piece comes to it.
    #[inline(always)]
    pub fn add(&mut self, served: Served) -> Result<(), AllocError>
        requires label { ForSome served.copy (λ l. is_label l ≡ true) }
        ensures commits { OnOk result (self.new.commits ≡ (self.old.commits || served.commits)) }
        ensures updates { OnOk result (self.new.updates.items ≡ self.old.updates.items ++ entries served.update) }
        ensures labels { OnOk result (map text_of self.new.labels.items ≡ map text_of self.old.labels.items ++ entries served.copy) }
        ensures taken { self.new.taken ≡ self.old.taken }
        ensures gap { self.new.gap ≡ self.old.gap }
    {
        self.commits = self.commits | served.commits;
        push_one(&mut self.updates, served.update)?;
        push_label(&mut self.labels, served.copy)?;
        Ok(())
    }

    /// A record was taken: it is to be committed.
    pub fn take(&mut self, taken: Record)
        ensures { self.new ≡ record_taken self.old taken }
    {
        self.commits = true;
        self.taken = Some(taken);
    }
}

ghost use Rattle.ty_rounds.specs.Works.{record_taken};
