//! A map over one file.
ghost use Rattle.std.specs.Prelude.{◌≡◌, ◌≤◌, ℕ, List, [], OnOk, IsErrOf};
ghost use Rattle.std.specs.FinMap.{empty, keys, len};
ghost use Rattle.tc_base.specs.Maps.{Map};
ghost use Rattle.tc_base.specs.declared.kind.Form.{Form};
ghost use Rattle.tc_base.specs.declared.seq.Pair.{Pair};
ghost use Rattle.tc_space.specs.Changes.{is_in, out_of, put_in, same, value_in};
ghost use Rattle.tc_space.specs.Frames.{GivenUp, Keeps};
ghost use Rattle.tc_space.specs.Refusals.{Blamed, Blames, OnFault, OnlyLogIsFull};
ghost use Rattle.tc_space.specs.Stores.{AnswersIn, BringsIn, CountsGet, ExistsIn, FillsMore, FullPack, FullPutIn, KeepsTight, PacksIn, PacksMap, PutsIn, ReadsIn, ReadyIn, RefusesIn, SetsRegion, StaysMap, TakesIn, TightIn, TrimsIn, WritesIn};

use crate::errors::{PutErr, RecErr};
use crate::space::Space;
use tc_base::{Blob, Blobs, Form, Mode, Steps};

/// A finite map over one file of a space, with a region of 128 bytes for its owner.
///
/// After a refusal of a call that writes, the space isn't sound or nothing has changed. `get` and `keys` change nothing, whatever they answer.
pub trait Records {
    type S: Space;

    /// The number of its file.
    ghost file_of: { Self → ℕ };

    /// With these bytes in its file it holds this map.
    ghost holds: { Self → List ℕ → Map → Type 0 };

    /// The type byte of its file.
    ghost sort: { Self → ℕ };

    /// The numbers that the head of its file fixes, its options first.
    ghost numbers: { Self → List ℕ };

    /// How many whole units lie free in front of the first block of its file.
    ghost lead: { Self → ℕ };

    /// A file of this type, these numbers and these bytes opens to this map and region.
    ghost stands: { ℕ → List ℕ → List ℕ → Map → List ℕ → Type 0 };

    /// The region.
    ghost region: { Self → List ℕ };

    /// By the store and the space before a call, as the space stands at its end: no block was to be had for a record of this key and value.
    ghost lacks: { Self → Self.S → Self.S → List ℕ → List ℕ → Type 0 };

    /// So it is of a file that was to be written anew in the large form, with the records that it has: its sections or one of these had no room.
    ghost lacks_large: { Self → Self.S → Self.S → Type 0 };

    /// Its file has the least room for the records of these pairs, one behind the other, and nothing else: nothing lies free in it. So it is of a store that was emptied, and of
    /// one that is put into after that, key by new key; no other call tells it.
    ghost filled: { Self → List Pair → Type 0 };

    /// It was packed from a file with the first bytes in a form, and its file has the others, which aren't settled yet: so it is as long as it is only read, and its region set.
    ghost tight: { Self → List ℕ → Form → List ℕ → Type 0 };

    /// From a file with the first bytes one with the others is packed in a form: no block is free in it, and its records' blocks are as they were, or in the large form the least ones.
    ghost packed: { List ℕ → Form → List ℕ → Type 0 };

    /// How many bytes hold nothing at the end of a file with these bytes.
    ghost slack: { List ℕ → ℕ };

    /// How often `get` was called, up to the greatest number.
    ghost gets: { Self → ℕ };

    /// The number of its file.
    fn file(&self) -> u32
        ensures { result ≡ file_of self.now };

    /// How many keys are held.
    fn count(&self) -> u64
        ensures { (bytes : List ℕ) (m : Map) → holds self.now bytes m → result ≡ len m };

    /// The region.
    fn opaque(&self) -> [u8; 128]
        ensures { result ≡ region self.now };

    /// The value of a key.
    fn get<L>(
        &mut self,
        space: &mut Self::S,
        key: &[u8],
        steps: &mut Steps<L>,
    ) -> Result<Option<Blob>, RecErr>
        requires { ReadyIn Self.S.Space file_of holds self.old space.old }
        ensures value { AnswersIn Self.S.Space file_of holds result (value_in key.now) self.old space.old }
        ensures reads { ReadsIn Self.S.Space file_of holds self.old self.new space.old space.new }
        ensures keeps { Keeps Self.S.Space space.old space.new }
        ensures counts { CountsGet file_of sort numbers region lead gets self.old self.new }
        ensures tight { KeepsTight tight self.old self.new }
        ensures steps { steps.old ≤ steps.new }
        ensures cause { Blames Self.S.Space result space.old space.new };

    /// Gives a key a value. Exists comes exactly with `Keep` on a held key.
    fn put<L>(
        &mut self,
        space: &mut Self::S,
        key: &[u8],
        value: &[u8],
        mode: Mode,
        steps: &mut Steps<L>,
    ) -> Result<(), PutErr>
        requires { ReadyIn Self.S.Space file_of holds self.old space.old }
        ensures put { OnOk result (PutsIn Self.S.Space file_of holds mode (value_in key.now) (put_in mode key.now value.now) self.old self.new space.old space.new) }
        ensures fills { OnOk result (FillsMore Self.S.Space file_of holds filled key.now value.now self.old self.new space.old) }
        ensures exists { IsErrOf result PutErr.Exists → ExistsIn Self.S.Space file_of holds mode (value_in key.now) self.old self.new space.old space.new }
        ensures refused { RefusesIn Self.S.Space file_of holds result self.old self.new space.old space.new }
        ensures full { IsErrOf result PutErr.Full → FullPutIn Self.S.Space file_of holds lacks mode key.now value.now self.old space.old space.new }
        ensures keeps { Keeps Self.S.Space space.old space.new }
        ensures stays { StaysMap file_of sort numbers region lead gets self.old self.new }
        ensures steps { steps.old ≤ steps.new }
        ensures cause { Blamed Self.S.Space (IsErrOf result PutErr.Fault) space.old space.new };

    /// Takes a key out. False comes exactly where it isn't held. It is full only where the undo log is.
    fn out<L>(
        &mut self,
        space: &mut Self::S,
        key: &[u8],
        steps: &mut Steps<L>,
    ) -> Result<bool, RecErr>
        requires { ReadyIn Self.S.Space file_of holds self.old space.old }
        ensures out { TakesIn Self.S.Space file_of holds result (is_in key.now) (out_of key.now) self.old self.new space.old space.new }
        ensures refused { RefusesIn Self.S.Space file_of holds result self.old self.new space.old space.new }
        ensures full { OnlyLogIsFull Self.S.Space result space.new }
        ensures keeps { Keeps Self.S.Space space.old space.new }
        ensures stays { StaysMap file_of sort numbers region lead gets self.old self.new }
        ensures steps { steps.old ≤ steps.new }
        ensures cause { OnFault Self.S.Space result space.old space.new };

    /// The keys, in ascending order of their bytes.
    fn keys<L>(&mut self, space: &mut Self::S, steps: &mut Steps<L>) -> Result<Blobs, RecErr>
        requires { ReadyIn Self.S.Space file_of holds self.old space.old }
        ensures value { AnswersIn Self.S.Space file_of holds result keys self.old space.old }
        ensures reads { ReadsIn Self.S.Space file_of holds self.old self.new space.old space.new }
        ensures keeps { Keeps Self.S.Space space.old space.new }
        ensures stays { StaysMap file_of sort numbers region lead gets self.old self.new }
        ensures tight { KeepsTight tight self.old self.new }
        ensures steps { steps.old ≤ steps.new }
        ensures cause { Blames Self.S.Space result space.old space.new };

    /// Gives the region other bytes, which `settle` brings to the file.
    fn set_opaque(&mut self, bytes: &[u8; 128])
        ensures sets { SetsRegion file_of sort numbers region lead gets bytes.now self.old self.new }
        ensures means { (file : List ℕ) (m : Map) → holds self.old file m → holds self.new file m }
        ensures tight { KeepsTight tight self.old self.new };

    /// Brings what is held in memory to the file, which then stands for the map and the region, and ends in what holds something; where it was packed it is a packed file. It is
    /// full only where the undo log is.
    fn settle(&mut self, space: &mut Self::S) -> Result<(), RecErr>
        requires { ReadyIn Self.S.Space file_of holds self.old space.old }
        ensures settled { OnOk result (WritesIn Self.S.Space file_of holds same self.old self.new space.old space.new) }
        ensures stands { OnOk result (BringsIn Self.S.Space file_of holds (λ bytes m. stands (sort self.old) (numbers self.old) bytes m (region self.old)) self.old space.old space.new) }
        ensures packs { OnOk result (PacksIn Self.S.Space file_of holds tight packed self.old space.old space.new) }
        ensures trims { OnOk result (TrimsIn Self.S.Space file_of holds slack self.old space.old space.new) }
        ensures refused { RefusesIn Self.S.Space file_of holds result self.old self.new space.old space.new }
        ensures full { OnlyLogIsFull Self.S.Space result space.new }
        ensures keeps { Keeps Self.S.Space space.old space.new }
        ensures stays { StaysMap file_of sort numbers region lead gets self.old self.new }
        ensures cause { OnFault Self.S.Space result space.old space.new };

    /// Takes all keys out, and leaves nothing free in the file. The region stays. It is full only where the undo log is.
    fn clear(&mut self, space: &mut Self::S) -> Result<(), RecErr>
        requires { ReadyIn Self.S.Space file_of holds self.old space.old }
        ensures cleared { OnOk result (WritesIn Self.S.Space file_of holds (λ m. empty) self.old self.new space.old space.new) }
        ensures fills { OnOk result (filled self.new []) }
        ensures refused { RefusesIn Self.S.Space file_of holds result self.old self.new space.old space.new }
        ensures full { OnlyLogIsFull Self.S.Space result space.new }
        ensures keeps { Keeps Self.S.Space space.old space.new }
        ensures stays { StaysMap file_of sort numbers region lead gets self.old self.new }
        ensures cause { OnFault Self.S.Space result space.old space.new };

    /// Packs the file, in the form that it has or in the large one. The map and the region stay. In the form that it has it is full only where the undo log is.
    fn pack(&mut self, space: &mut Self::S, form: Form) -> Result<(), RecErr>
        requires { ReadyIn Self.S.Space file_of holds self.old space.old }
        ensures packed { OnOk result (WritesIn Self.S.Space file_of holds same self.old self.new space.old space.new) }
        ensures tight { OnOk result (TightIn Self.S.Space file_of holds tight form self.old self.new space.old space.new) }
        ensures refused { RefusesIn Self.S.Space file_of holds result self.old self.new space.old space.new }
        ensures full { IsErrOf result RecErr.Full → FullPack Self.S.Space lacks_large form self.old space.old space.new }
        ensures keeps { Keeps Self.S.Space space.old space.new }
        ensures stays { PacksMap Self.S.flag file_of sort numbers region lead gets form result self.old self.new space.new }
        ensures cause { OnFault Self.S.Space result space.old space.new };

    /// A block that wasn't to be had isn't to be had in the space that was given up since.
    ghost lacks_still: { (v : Self) (old mid new : Self.S) (key value : List ℕ) → GivenUp Self.S.Space mid new → lacks v old mid key value → lacks v old new key value };
}
