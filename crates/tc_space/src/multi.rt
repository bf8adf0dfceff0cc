//! A list of pairs over one file.
ghost use Rattle.std.specs.Prelude.{◌≡◌, ℕ, List, [], length, OnOk, IsErrOf};
ghost use Rattle.tc_base.specs.Lists.{Rises};
ghost use Rattle.tc_base.specs.declared.kind.Form.{Form};
ghost use Rattle.tc_base.specs.declared.seq.Pair.{Pair};
ghost use Rattle.tc_space.specs.Changes.{all_out, first_in, first_out, has_pair, inside_first, put_first, put_last, same, values_in};
ghost use Rattle.tc_space.specs.Frames.{In, Keeps};
ghost use Rattle.tc_space.specs.Lists.{FullFrom, FullPutFrom, Made, PacksList, StaysList, StaysPacked};
ghost use Rattle.tc_space.specs.Refusals.{Blamed, Blames, OnFault, OnlyLogIsFull};
ghost use Rattle.tc_space.specs.Stores.{AnswersIn, BringsIn, ExistsIn, FullClear, FullPack, PacksIn, PutsIn, ReadsIn, ReadyIn, RefusesIn, TakesIn, Ticks, TightIn, TrimsIn, WritesIn};

use crate::errors::{PutErr, RecErr};
use crate::space::Space;
use tc_base::{Blob, Blobs, Cut, Form, Mode, Order, Pairs, Steps};

/// A list of pairs in an order of their keys over one file of a space, equal keys in order of arrival.
///
/// After a refusal of a call that writes, the space isn't sound or nothing has changed. `get`, `all` and `range` change nothing, whatever
/// they answer.
pub trait Multi {
    type S: Space;

    type O: Order;

    /// The number of its file.
    ghost file_of: { Self → ℕ };

    /// With these bytes in its file it holds these pairs.
    ghost holds: { Self → List ℕ → List Pair → Type 0 };

    /// What it was made with.
    ghost made: { Self → Made };

    /// How many whole units lie free in front of the first block of its file.
    ghost lead: { Self → ℕ };

    /// A file of these bytes opens to these pairs, in a list that was made so.
    ghost stands: { Made → List ℕ → List Pair → Type 0 };

    /// By the list and the space before a call, as the space stands at its end: a limit is reached on the way from these pairs to those.
    ghost fills: { Self → Self.S → Self.S → List Pair → List Pair → Type 0 };

    /// So it is of a file that was to be written anew in the large form, with the records that it has: its sections or one of these had no room.
    ghost lacks_large: { Self → Self.S → Self.S → Type 0 };

    /// So it is of what its file has with no pairs: nothing but that stood in the file, and a record of that had no room.
    ghost lacks_bare: { Self → Self.S → Self.S → Type 0 };

    /// It was packed from a file with the first bytes in a form, and its file has the others, which aren't settled yet: so it is as long as it is only read.
    ghost tight: { Self → List ℕ → Form → List ℕ → Type 0 };

    /// From a file with the first bytes one with the others is packed in a form: no block is free in it, and its records' blocks are as they were, or in the large form the least ones.
    ghost packed: { List ℕ → Form → List ℕ → Type 0 };

    /// How many bytes hold nothing at the end of a file with these bytes.
    ghost slack: { List ℕ → ℕ };

    /// How often the map that it stands on was asked for a key, up to the greatest number.
    ghost gets: { Self → ℕ };

    /// The number of its file.
    fn file(&self) -> u32
        ensures { result ≡ file_of self.now };

    /// How many pairs are held.
    fn count(&self) -> u64
        ensures { (bytes : List ℕ) (ps : List Pair) → holds self.now bytes ps → result ≡ length ps };

    /// The first value of a key.
    fn get<L>(
        &mut self,
        space: &mut Self::S,
        key: &[u8],
        steps: &mut Steps<L>,
    ) -> Result<Option<Blob>, RecErr>
        requires { ReadyIn Self.S.Space file_of holds self.old space.old }
        ensures value { AnswersIn Self.S.Space file_of holds result (first_in key.now) self.old space.old }
        ensures reads { ReadsIn Self.S.Space file_of holds self.old self.new space.old space.new }
        ensures keeps { Keeps Self.S.Space space.old space.new }
        ensures stays { StaysPacked file_of made lead tight self.old self.new }
        ensures steps { Ticks (gets self.old) (gets self.new) steps.old steps.new }
        ensures cause { Blames Self.S.Space result space.old space.new };

    /// All values of a key, in order of arrival.
    fn all(&mut self, space: &mut Self::S, key: &[u8]) -> Result<Blobs, RecErr>
        requires { ReadyIn Self.S.Space file_of holds self.old space.old }
        ensures value { AnswersIn Self.S.Space file_of holds result (values_in key.now) self.old space.old }
        ensures reads { ReadsIn Self.S.Space file_of holds self.old self.new space.old space.new }
        ensures keeps { Keeps Self.S.Space space.old space.new }
        ensures stays { StaysPacked file_of made lead tight self.old self.new }
        ensures cause { Blames Self.S.Space result space.old space.new };

    /// Replaces the first value of a key, or joins behind it, or adds the pair where the key isn't held. Exists comes exactly with `Keep` on
    /// a held key.
    fn put(
        &mut self,
        space: &mut Self::S,
        key: &[u8],
        value: &[u8],
        mode: Mode,
    ) -> Result<(), PutErr>
        requires { ReadyIn Self.S.Space file_of holds self.old space.old }
        ensures put { OnOk result (PutsIn Self.S.Space file_of holds mode (first_in key.now) (put_first Self.O.cmp mode key.now value.now) self.old self.new space.old space.new) }
        ensures exists { IsErrOf result PutErr.Exists → ExistsIn Self.S.Space file_of holds mode (first_in key.now) self.old self.new space.old space.new }
        ensures refused { RefusesIn Self.S.Space file_of holds result self.old self.new space.old space.new }
        ensures full { IsErrOf result PutErr.Full → FullPutFrom (In Self.S.Space file_of holds) fills mode (first_in key.now) (put_first Self.O.cmp mode key.now value.now) self.old space.old space.new }
        ensures keeps { Keeps Self.S.Space space.old space.new }
        ensures stays { StaysList file_of made lead self.old self.new }
        ensures cause { Blamed Self.S.Space (IsErrOf result PutErr.Fault) space.old space.new };

    /// Adds a pair behind those of its key.
    fn putdup(&mut self, space: &mut Self::S, key: &[u8], value: &[u8]) -> Result<(), RecErr>
        requires { ReadyIn Self.S.Space file_of holds self.old space.old }
        ensures put { OnOk result (WritesIn Self.S.Space file_of holds (put_last Self.O.cmp key.now value.now) self.old self.new space.old space.new) }
        ensures refused { RefusesIn Self.S.Space file_of holds result self.old self.new space.old space.new }
        ensures full { IsErrOf result RecErr.Full → FullFrom (In Self.S.Space file_of holds) fills (put_last Self.O.cmp key.now value.now) self.old space.old space.new }
        ensures keeps { Keeps Self.S.Space space.old space.new }
        ensures stays { StaysList file_of made lead self.old self.new }
        ensures cause { OnFault Self.S.Space result space.old space.new };

    /// Takes the first pair of a key out. False comes exactly where the key isn't held.
    fn out(&mut self, space: &mut Self::S, key: &[u8]) -> Result<bool, RecErr>
        requires { ReadyIn Self.S.Space file_of holds self.old space.old }
        ensures out { TakesIn Self.S.Space file_of holds result (has_pair key.now) (first_out Self.O.cmp key.now) self.old self.new space.old space.new }
        ensures refused { RefusesIn Self.S.Space file_of holds result self.old self.new space.old space.new }
        ensures full { IsErrOf result RecErr.Full → FullFrom (In Self.S.Space file_of holds) fills (first_out Self.O.cmp key.now) self.old space.old space.new }
        ensures keeps { Keeps Self.S.Space space.old space.new }
        ensures stays { StaysList file_of made lead self.old self.new }
        ensures cause { OnFault Self.S.Space result space.old space.new };

    /// Takes all pairs of a key out. False comes exactly where the key isn't held.
    fn out_all(&mut self, space: &mut Self::S, key: &[u8]) -> Result<bool, RecErr>
        requires { ReadyIn Self.S.Space file_of holds self.old space.old }
        ensures out { TakesIn Self.S.Space file_of holds result (has_pair key.now) (all_out Self.O.cmp key.now) self.old self.new space.old space.new }
        ensures refused { RefusesIn Self.S.Space file_of holds result self.old self.new space.old space.new }
        ensures full { IsErrOf result RecErr.Full → FullFrom (In Self.S.Space file_of holds) fills (all_out Self.O.cmp key.now) self.old space.old space.new }
        ensures keeps { Keeps Self.S.Space space.old space.new }
        ensures stays { StaysList file_of made lead self.old self.new }
        ensures cause { OnFault Self.S.Space result space.old space.new };

    /// The first pairs of a stretch of keys, at most `max`.
    fn range<C: Cut<Self::O>, L>(
        &mut self,
        space: &mut Self::S,
        cut: &C,
        max: u64,
        steps: &mut Steps<L>,
    ) -> Result<Pairs, RecErr>
        requires { ReadyIn Self.S.Space file_of holds self.old space.old }
        ensures value { AnswersIn Self.S.Space file_of holds result (inside_first max (C.side_of cut.now)) self.old space.old }
        ensures reads { ReadsIn Self.S.Space file_of holds self.old self.new space.old space.new }
        ensures keeps { Keeps Self.S.Space space.old space.new }
        ensures stays { StaysPacked file_of made lead tight self.old self.new }
        ensures steps { Ticks (gets self.old) (gets self.new) steps.old steps.new }
        ensures cause { Blames Self.S.Space result space.old space.new };

    /// Brings what is held in memory to the file, which then stands for the pairs, and ends in what holds something; where it was packed it is a packed file. It is full only where
    /// the undo log is.
    fn settle(&mut self, space: &mut Self::S) -> Result<(), RecErr>
        requires { ReadyIn Self.S.Space file_of holds self.old space.old }
        ensures settled { OnOk result (WritesIn Self.S.Space file_of holds same self.old self.new space.old space.new) }
        ensures stands { OnOk result (BringsIn Self.S.Space file_of holds (stands (made self.old)) self.old space.old space.new) }
        ensures packs { OnOk result (PacksIn Self.S.Space file_of holds tight packed self.old space.old space.new) }
        ensures trims { OnOk result (TrimsIn Self.S.Space file_of holds slack self.old space.old space.new) }
        ensures refused { RefusesIn Self.S.Space file_of holds result self.old self.new space.old space.new }
        ensures full { OnlyLogIsFull Self.S.Space result space.new }
        ensures keeps { Keeps Self.S.Space space.old space.new }
        ensures stays { StaysList file_of made lead self.old self.new }
        ensures cause { OnFault Self.S.Space result space.old space.new };

    /// Takes all pairs out. What the list was made with stays. It is full only where the undo log is, or where the little that an empty list has in its file had no room.
    fn clear(&mut self, space: &mut Self::S) -> Result<(), RecErr>
        requires { ReadyIn Self.S.Space file_of holds self.old space.old }
        ensures cleared { OnOk result (WritesIn Self.S.Space file_of holds (λ ps. []) self.old self.new space.old space.new) }
        ensures refused { RefusesIn Self.S.Space file_of holds result self.old self.new space.old space.new }
        ensures full { IsErrOf result RecErr.Full → FullClear Self.S.Space lacks_bare self.old space.old space.new }
        ensures keeps { Keeps Self.S.Space space.old space.new }
        ensures stays { StaysList file_of made lead self.old self.new }
        ensures cause { OnFault Self.S.Space result space.old space.new };

    /// Packs the file, in the form that it has or in the large one. The pairs stay. In the form that it has it is full only where the undo log is.
    fn pack(&mut self, space: &mut Self::S, form: Form) -> Result<(), RecErr>
        requires { ReadyIn Self.S.Space file_of holds self.old space.old }
        ensures packed { OnOk result (WritesIn Self.S.Space file_of holds same self.old self.new space.old space.new) }
        ensures tight { OnOk result (TightIn Self.S.Space file_of holds tight form self.old self.new space.old space.new) }
        ensures refused { RefusesIn Self.S.Space file_of holds result self.old self.new space.old space.new }
        ensures full { IsErrOf result RecErr.Full → FullPack Self.S.Space lacks_large form self.old space.old space.new }
        ensures keeps { Keeps Self.S.Space space.old space.new }
        ensures stays { PacksList Self.S.flag file_of made lead form result self.old self.new space.new }
        ensures cause { OnFault Self.S.Space result space.old space.new };

    /// The pairs stand in the order of their keys.
    ghost rises: { (m : Self) (bytes : List ℕ) (ps : List Pair) → holds m bytes ps → Rises Self.O.cmp ps };
}
