//! A file written anew in the large form.
ghost use Rattle.std.specs.Prelude.{◌≡◌, ◌⊎◌, ℕ, None, true, OnOk, OnErr, IfOk, IsErrOf};
ghost use Rattle.tc_base.specs.Maps.{Map};
ghost use Rattle.tc_space.specs.Changes.{same};
ghost use Rattle.tc_space.specs.Effects.{Outcome};
ghost use Rattle.tc_space.specs.Frames.{Keeps, OnlyReads};
ghost use Rattle.tc_space.specs.Refusals.{Blames, OnFault};
ghost use Rattle.hf_pool.specs.Pools.{frees};
ghost use Rattle.hf_record.specs.Changing.{CanChange};
ghost use Rattle.hf_record.specs.Fields.{HasFields};
ghost use Rattle.hf_record.specs.Holding.{Has};
ghost use Rattle.tc_hash.specs.Creating.{IsNew};
ghost use Rattle.tc_hash.specs.Keeping.{CanCall, Refused, StaysOpen, Turns};
ghost use Rattle.tc_hash.specs.Packing.{AddsPair, ArePairs, LacksAnew, LacksOne, LacksSections, LeavesHead, MakesLarge, MayEnlarge, PutsPairs, StaysNumbered, WritesLarge};

use crate::clearing::{head_with, write_anew};
use crate::create::{PIECE, new_head, new_pool};
use crate::hash::Hash;
use hf_head::Head;
use hf_record::Body;
use tc_base::{Blob, Blobs, FILE_MOST, Pair, Pairs, Steps};
use tc_space::{RecErr, Space};

// Adds a key and its value.
fn add_pair<S: Space, L>(
    body: &Body,
    space: &mut S,
    key: Blob,
    pairs: &mut Pairs,
    steps: &mut Steps<L>,
) -> Result<(), RecErr>
    requires { CanChange S.Space body.now space.old }
    ensures added { OnOk result (S.tells → (m : Map) → Has body.now (S.now space.old body.now.file) m → AddsPair m key pairs.old pairs.new) }
    ensures reads { OnlyReads S.Space space.old space.new }
    ensures cause { Blames S.Space result space.old space.new }
{
    // in a file whose bytes are told each key is held
    let Some(value) = body.value(space, key.as_slice(), steps)? else {
        return Err(RecErr::Memory);
    };
    pairs.push(Pair { key, value })?;
    Ok(())
}

// Keys with their values.
fn pairs_of<S: Space>(body: &Body, space: &mut S, keys: Blobs) -> Result<Pairs, RecErr>
    requires { CanChange S.Space body.now space.old }
    ensures pairs { IfOk result (λ pairs. S.tells → (m : Map) → Has body.now (S.now space.old body.now.file) m → ArePairs m keys pairs) }
    ensures reads { OnlyReads S.Space space.old space.new }
    ensures cause { Blames S.Space result space.old space.new }
{
    let mut steps: Steps<()> = Steps::new();
    let mut pairs = Pairs::new(body.alloc);
    for key in keys.into_vec() {
        add_pair(body, space, key, &mut pairs, &mut steps)?;
    }
    Ok(pairs)
}

// The head of a file without blocks, with the numbers of a head and in the large form.
fn large_head(head: &Head) -> Head
    requires { HasFields head.now }
    ensures new { IsNew head.now.kind head.now.apow head.now.fpow head.now.buckets true result }
{
    new_head(head.kind, head.apow, head.fpow, head.buckets, true)
}

impl<S: Space> Hash<S> {
    // Gives keys that aren't held their values, one after the other, in a file without free blocks. After a refusal the space isn't sound.
    fn put_pairs(&mut self, space: &mut S, pairs: &Pairs) -> Result<(), RecErr>
        requires ready { CanCall S.Space self.old space.old }
        requires nothing { (q : ℕ) → frees self.old.body.pool q ≡ None }
        ensures put { OnOk result (PutsPairs S.Space pairs.now self.old self.new space.old space.new) }
        ensures outcome { Outcome S.sound S.flag result space.new }
        ensures full { IsErrOf result RecErr.Full → S.tells → S.log_full space.new ⊎ LacksOne S.Space self.old.body.head self.old.body.file self.old.body.pool.size space.new pairs.now }
        ensures keeps { Keeps S.Space space.old space.new }
        ensures stays { StaysOpen self.old self.new }
        ensures cause { OnFault S.Space result space.old space.new }
    {
        let mut steps: Steps<()> = Steps::new();
        for i in 0..pairs.len() {
            let pair = pairs.at(i);
            self.insert_absent(
                space,
                pair.key.as_slice(),
                pair.value.as_slice(),
                &mut steps,
            )?;
        }
        Ok(())
    }

    // Makes the file anew in the large form, without records. After a refusal the space isn't sound, or nothing has changed.
    fn make_large(&mut self, space: &mut S) -> Result<(), RecErr>
        requires { CanCall S.Space self.old space.old }
        ensures made { OnOk result (MakesLarge S.Space self.old self.new space.old space.new) }
        ensures refused { OnErr result (Refused S.Space self.old self.new space.old space.new) }
        ensures full { IsErrOf result RecErr.Full → S.tells → S.log_full space.new ⊎ LacksSections S.Space self.old space.new }
        ensures keeps { Keeps S.Space space.old space.new }
        ensures stays { StaysNumbered self.old self.new }
        ensures left { OnErr result (LeavesHead S.Space self.old self.new space.new) }
        ensures cause { OnFault S.Space result space.old space.new }
    {
        let head = large_head(&self.body.head);
        if head.size > FILE_MOST {
            return Err(RecErr::Full);
        }
        let written = head_with(&head, &self.region);
        let zeros = vec![in self.body.alloc; 0; PIECE]?;
        let pool = new_pool(self.body.alloc, &head)?;
        write_anew(space, self.body.file, &written, &zeros)?;
        self.empty(head, pool);
        Ok(())
    }

    // Writes the file anew in the large form, with these pairs. After a refusal the space isn't sound, or nothing has changed.
    fn write_large(&mut self, space: &mut S, pairs: &Pairs) -> Result<(), RecErr>
        requires { MayEnlarge S.Space pairs.now self.old space.old }
        ensures packed { OnOk result (Turns S.Space same self.old self.new space.old space.new) }
        ensures refused { OnErr result (Refused S.Space self.old self.new space.old space.new) }
        ensures full { IsErrOf result RecErr.Full → S.tells → S.log_full space.new ⊎ LacksAnew S.Space self.old space.old space.new }
        ensures keeps { Keeps S.Space space.old space.new }
        ensures stays { StaysNumbered self.old self.new }
        ensures left { OnErr result (LeavesHead S.Space self.old self.new space.new) }
        ensures writes { OnOk result (WritesLarge S.Space self.old self.new space.old space.new) }
        ensures cause { OnFault S.Space result space.old space.new }
    {
        self.make_large(space)?;
        self.put_pairs(space, pairs)?;
        Ok(())
    }

    /// Writes the file anew in the large form, with the same records in the least blocks and without free ones. After a refusal the space isn't sound, or
    /// nothing has changed.
    pub(crate) fn enlarge(&mut self, space: &mut S) -> Result<(), RecErr>
        requires { CanCall S.Space self.old space.old }
        ensures packed { OnOk result (Turns S.Space same self.old self.new space.old space.new) }
        ensures refused { OnErr result (Refused S.Space self.old self.new space.old space.new) }
        ensures full { IsErrOf result RecErr.Full → S.tells → S.log_full space.new ⊎ LacksAnew S.Space self.old space.old space.new }
        ensures keeps { Keeps S.Space space.old space.new }
        ensures stays { StaysNumbered self.old self.new }
        ensures left { OnErr result (LeavesHead S.Space self.old self.new space.new) }
        ensures writes { OnOk result (WritesLarge S.Space self.old self.new space.old space.new) }
        ensures cause { OnFault S.Space result space.old space.new }
    {
        let mut steps: Steps<()> = Steps::new();
        let keys = self.keys(space, &mut steps)?;
        let pairs = pairs_of(&self.body, space, keys)?;
        self.write_large(space, &pairs)
    }
}
