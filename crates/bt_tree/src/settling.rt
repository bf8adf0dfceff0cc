//! What is held in memory, brought to the file.
ghost use Rattle.std.specs.Prelude.{◌≡◌, ◌≤◌, OnOk};
ghost use Rattle.tc_base.specs.Endian.{le_bytes, le_number};
ghost use Rattle.tc_base.specs.Files.{wrote};
ghost use Rattle.tc_space.specs.Changes.{same};
ghost use Rattle.tc_io.specs.Causes.{Rose};
ghost use Rattle.tc_space.specs.Frames.{Keeps};
ghost use Rattle.tc_space.specs.Refusals.{OnFault, OnlyLogIsFull};
ghost use Rattle.tc_space.specs.Stores.{FullPack};
ghost use Rattle.bt_rows.specs.Heads.{head_of};
ghost use Rattle.bt_cache.specs.Effects.{OnFull};
ghost use Rattle.bt_tree.specs.Inserting.{AddsAnew};
ghost use Rattle.bt_tree.specs.Meaning.{Changes, IsOpen, RefusesPairs};
ghost use Rattle.bt_tree.specs.Paging.{BringsNumbers, IsShown, StaysStill, TellsFull};
ghost use Rattle.bt_tree.specs.Settling.{BringsPacked, BringsPairs, StaysFormed, StaysSettled, TightTree};
ghost use Rattle.bt_tree.specs.Standing.{region_bytes};

use crate::tree::Tree;
use bt_rows::TreeHead;
use tc_base::{Form, Order, set_le};
use tc_reach::full_in;
use tc_space::{RecErr, Records};

// Writes a number into the eight bytes at a place.
fn put_number(opaque: &mut [u8; 128], at: usize, n: u64)
    requires { at ≤ 120 }
    ensures after { opaque.new ≡ wrote at (le_bytes 8 n) opaque.old }
    ensures read_back { le_number (le_bytes 8 n) ≡ n }
{
    set_le(opaque, at, 8, n);
}

// Writes a number into the four bytes at a place.
fn put_limit(opaque: &mut [u8; 128], at: usize, n: u32)
    requires { at ≤ 124 }
    ensures after { opaque.new ≡ wrote at (le_bytes 4 n) opaque.old }
    ensures read_back { le_number (le_bytes 4 n) ≡ n }
{
    set_le(opaque, at, 4, u64::from(n));
}

// The region of a store whose tree has these numbers: zeros where none stands.
fn region_of(head: &TreeHead) -> [u8; 128]
    ensures numbers { head_of result ≡ head.now }
    ensures spelled { result ≡ region_bytes head.now }
{
    let mut opaque = [0; 128];
    opaque[0] = head.order;
    put_limit(&mut opaque, 8, head.leaf_limit);
    put_limit(&mut opaque, 12, head.node_limit);
    put_number(&mut opaque, 16, head.root);
    put_number(&mut opaque, 24, head.first);
    put_number(&mut opaque, 32, head.last);
    put_number(&mut opaque, 40, head.leaf_ids);
    put_number(&mut opaque, 48, head.node_ids);
    put_number(&mut opaque, 56, head.pairs);
    opaque
}

impl<R: Records, O: Order> Tree<R, O> {
    /// Brings the numbers of the tree and what the store holds in memory to the file, which then stands for the pairs under these numbers, and ends in what holds something; where
    /// the store was packed it is a packed file. It is full only where the undo log is. After a refusal the space isn't sound, or the file is as it was.
    pub fn settle(&mut self, space: &mut R::S) -> Result<(), RecErr>
        requires { IsOpen R.S.Space R.Records O.Order self.old space.old }
        ensures settled { OnOk result (Changes R.S.Space R.Records O.Order same self.old self.new space.old space.new) }
        ensures anew { OnOk result (AddsAnew R.S.Space R.Records O.Order self.old self.new space.old space.new) }
        ensures stands { OnOk result (BringsPairs R.S.Space R.Records O.Order self.old space.old space.new) }
        ensures packs { OnOk result (BringsPacked R.S.Space R.Records O.Order self.old space.old space.new) }
        ensures refused { RefusesPairs R.S.Space R.Records O.Order result self.old self.new space.old space.new }
        ensures full { OnlyLogIsFull R.S.Space result space.new }
        ensures keeps { Keeps R.S.Space space.old space.new }
        ensures stays { StaysSettled R.Records self.old self.new }
        ensures cause { OnFault R.S.Space result space.old space.new }
    {
        let opaque = region_of(&self.head);
        self.store.set_opaque(&opaque);
        self.store.settle(space)
    }

    // Brings the numbers of the tree to the file. The region is then as it was.
    fn bring(&mut self, space: &mut R::S) -> Result<(), RecErr>
        requires { IsShown R.S.Space R.Records self.old space.old }
        ensures sound { OnOk result (R.S.sound space.new) }
        ensures brings { OnOk result (BringsNumbers R.S.Space R.Records self.old space.old space.new) }
        ensures full { OnlyLogIsFull R.S.Space result space.new }
        ensures still { StaysStill R.S.Space R.Records self.old self.new space.old space.new }
        ensures cause { OnFault R.S.Space result space.old space.new }
    {
        let was = self.store.opaque();
        let told = region_of(&self.head);
        self.store.set_opaque(&told);
        if let Err(e) = self.store.settle(space) {
            self.store.set_opaque(&was);
            return Err(e);
        }
        self.store.set_opaque(&was);
        Ok(())
    }

    /// Gives the space up where a limit of the tree is reached, and answers why. `Full` comes with the tree's numbers in its file, or where the undo log is full.
    pub(crate) fn refuse(&mut self, space: &mut R::S) -> RecErr
        requires { IsShown R.S.Space R.Records self.old space.old }
        ensures full { result ≡ RecErr.Full → TellsFull R.S.Space R.Records self.old space.old space.new }
        ensures still { StaysStill R.S.Space R.Records self.old self.new space.old space.new }
        ensures cause { result ≡ RecErr.Fault → Rose (R.S.faults space.old) (R.S.faults space.new) }
    {
        if let Err(e) = self.bring(space) {
            return e;
        }
        full_in(space)
    }

    /// Packs the store, in the form that it has or in the large one; the pairs stay. In the form that it has it is full only where the undo log is. After a refusal the
    /// space isn't sound, or the file is as it was.
    pub fn pack(&mut self, space: &mut R::S, form: Form) -> Result<(), RecErr>
        requires { IsOpen R.S.Space R.Records O.Order self.old space.old }
        ensures packed { OnOk result (Changes R.S.Space R.Records O.Order same self.old self.new space.old space.new) }
        ensures anew { OnOk result (AddsAnew R.S.Space R.Records O.Order self.old self.new space.old space.new) }
        ensures tight { OnOk result (TightTree R.S.Space R.Records O.Order form self.old self.new space.old space.new) }
        ensures refused { RefusesPairs R.S.Space R.Records O.Order result self.old self.new space.old space.new }
        ensures full { OnFull result (FullPack R.S.Space R.lacks_large form self.old.store space.old space.new) }
        ensures keeps { Keeps R.S.Space space.old space.new }
        ensures stays { StaysFormed R.S.Space R.Records form result self.old self.new space.new }
        ensures cause { OnFault R.S.Space result space.old space.new }
    {
        self.store.pack(space, form)
    }
}
