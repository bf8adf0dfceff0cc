//! The trait of engines.
ghost use Rattle.std.specs.Prelude.{◌≡◌, true, false, not, map, length, option_map, IsErrOf};
ghost use Rattle.tc_base.specs.Files.{Files};
ghost use Rattle.tc_space.specs.Frames.{Keeps};
ghost use Rattle.tc_space.specs.Refusals.{Blames, OnFault};
ghost use Rattle.tc_model.specs.Contents.{Contents, is_narrow};
ghost use Rattle.tc_model.specs.Meaning.{ranged, row_held};
ghost use Rattle.tc_model.specs.Apply.{keys_from};
ghost use Rattle.tc_model.specs.Rows.{texts_of};
ghost use Rattle.tc_model.specs.Stores.{all_keys, all_pairs, count, first_pair, held, size_of};
ghost use Rattle.ty_base.specs.Holding.{FindsHeld, IsReady, KeepsFills, ReadsHeld, RefusesHeld};
ghost use Rattle.tc_engine.specs.Changes.{all_cleared, all_gone, all_pushed, all_stored, first_of, found_by, index_set, pushed, row_stored, search_of, stored, taken, takes_out};
ghost use Rattle.tc_engine.specs.Effects.{AddsItem, AddsOf, AddsTexts, FullFor, MadeBy};
ghost use Rattle.tc_engine.specs.Rows.{Extends, item_row, pair_rows, text_rows};

use crate::rows::Rows;
use tc_base::{Blob, Blobs, Key, Keys, Mode, Pairs};
use tc_space::RecErr;
use ty_base::Storage;

/// What a database does for requests, over a space that keeps its files: what it reads and what it changes, each in one call. What requests make
/// of it and how they are answered is said once, above it.
///
/// A call that only reads changes nothing, whatever it answers.
pub trait Engine: Storage {
    /// Whether a value of four bytes has room, as `addint` wants it: in no table.
    fn takes_numbers(&self) -> bool
        ensures { (files : Files) (c : Contents) → Self.holds self.now files c → result ≡ not (is_narrow c) };

    /// The number of its pairs, of a tree with each value of a key, else of its keys.
    fn count(&self) -> u64
        ensures { (files : Files) (c : Contents) → Self.holds self.now files c → result ≡ count c };

    /// The bytes of its keys and values.
    fn size(&mut self, space: &mut Self::S) -> Result<u64, RecErr>
        requires { IsReady Self.S.Space Self.holds self.old space.old }
        ensures value { FindsHeld Self.S.Space Self.holds result size_of self.old space.old }
        ensures reads { ReadsHeld Self.S.Space Self.holds self.old self.new space.old space.new }
        ensures keeps { Keeps Self.S.Space space.old space.new }
        ensures cause { Blames Self.S.Space result space.old space.new };

    /// The length of the value of a key, of a tree of its first.
    fn value_len(&mut self, space: &mut Self::S, key: &Key) -> Result<Option<u64>, RecErr>
        requires { IsReady Self.S.Space Self.holds self.old space.old }
        ensures value { FindsHeld Self.S.Space Self.holds result (λ c. option_map length (held c key.now)) self.old space.old }
        ensures reads { ReadsHeld Self.S.Space Self.holds self.old self.new space.old space.new }
        ensures keeps { Keeps Self.S.Space space.old space.new }
        ensures cause { Blames Self.S.Space result space.old space.new };

    /// The value of a key, of a tree its first. A limit that is met behind it is one by what was there before it.
    fn value(&mut self, space: &mut Self::S, key: &Key) -> Result<Option<Blob>, RecErr>
        requires { IsReady Self.S.Space Self.holds self.old space.old }
        ensures value { FindsHeld Self.S.Space Self.holds result (λ c. held c key.now) self.old space.old }
        ensures reads { ReadsHeld Self.S.Space Self.holds self.old self.new space.old space.new }
        ensures fills { KeepsFills Self.S.Space Self.fills self.old self.new space.old space.new }
        ensures keeps { Keeps Self.S.Space space.old space.new }
        ensures cause { Blames Self.S.Space result space.old space.new };

    /// Adds the value of a key as a row, and answers whether the key is held; where it isn't nothing is added.
    fn item(&mut self, space: &mut Self::S, key: &Key, into: &mut Rows) -> Result<bool, RecErr>
        requires { IsReady Self.S.Space Self.holds self.old space.old }
        ensures value { AddsItem Self.S.Space Self.holds result (λ c. held c key.now) self.old space.old into.old into.new }
        ensures front { Extends into.old into.new }
        ensures reads { ReadsHeld Self.S.Space Self.holds self.old self.new space.old space.new }
        ensures keeps { Keeps Self.S.Space space.old space.new }
        ensures cause { Blames Self.S.Space result space.old space.new };

    /// Adds a key and its value as a row, where it is held.
    fn pair(&mut self, space: &mut Self::S, key: &Key, into: &mut Rows) -> Result<(), RecErr>
        requires { IsReady Self.S.Space Self.holds self.old space.old }
        ensures rows { AddsOf Self.S.Space Self.holds result (λ c. pair_rows (first_pair c key.now)) self.old space.old into.old into.new }
        ensures front { Extends into.old into.new }
        ensures reads { ReadsHeld Self.S.Space Self.holds self.old self.new space.old space.new }
        ensures keeps { Keeps Self.S.Space space.old space.new }
        ensures cause { Blames Self.S.Space result space.old space.new };

    /// Adds a row each for a key and its value, again for each further value that a tree has of it.
    fn pairs(&mut self, space: &mut Self::S, key: &Key, into: &mut Rows) -> Result<(), RecErr>
        requires { IsReady Self.S.Space Self.holds self.old space.old }
        ensures rows { AddsOf Self.S.Space Self.holds result (λ c. text_rows (all_pairs c key.now)) self.old space.old into.old into.new }
        ensures front { Extends into.old into.new }
        ensures reads { ReadsHeld Self.S.Space Self.holds self.old self.new space.old space.new }
        ensures keeps { Keeps Self.S.Space space.old space.new }
        ensures cause { Blames Self.S.Space result space.old space.new };

    /// The distinct keys in order.
    fn keys(&mut self, space: &mut Self::S) -> Result<Keys, RecErr>
        requires { IsReady Self.S.Space Self.holds self.old space.old }
        ensures value { FindsHeld Self.S.Space Self.holds result all_keys self.old space.old }
        ensures reads { ReadsHeld Self.S.Space Self.holds self.old self.new space.old space.new }
        ensures keeps { Keeps Self.S.Space space.old space.new }
        ensures cause { Blames Self.S.Space result space.old space.new };

    /// Adds the keys that begin with a prefix as rows, in order, at most so many.
    fn keys_from(
        &mut self,
        space: &mut Self::S,
        prefix: &Key,
        most: Option<u64>,
        into: &mut Rows,
    ) -> Result<(), RecErr>
        requires { IsReady Self.S.Space Self.holds self.old space.old }
        ensures rows { AddsOf Self.S.Space Self.holds result (λ c. map item_row (first_of most (keys_from c prefix.now))) self.old space.old into.old into.new }
        ensures front { Extends into.old into.new }
        ensures reads { ReadsHeld Self.S.Space Self.holds self.old self.new space.old space.new }
        ensures keeps { Keeps Self.S.Space space.old space.new }
        ensures cause { Blames Self.S.Space result space.old space.new };

    /// Adds a row each for key and value of the pairs of a tree from a key on, before another where one is given, at most so many.
    fn range(
        &mut self,
        space: &mut Self::S,
        from: &Key,
        to: Option<&Key>,
        most: Option<u64>,
        into: &mut Rows,
    ) -> Result<(), RecErr>
        requires { IsReady Self.S.Space Self.holds self.old space.old }
        ensures rows { AddsOf Self.S.Space Self.holds result (λ c. text_rows (ranged c from.now (option_map (λ k. k.now) to.entry) most)) self.old space.old into.old into.new }
        ensures front { Extends into.old into.new }
        ensures reads { ReadsHeld Self.S.Space Self.holds self.old self.new space.old space.new }
        ensures keeps { Keeps Self.S.Space space.old space.new }
        ensures cause { Blames Self.S.Space result space.old space.new };

    /// Gives a key a value, of a tree its first one. It answers whether it did: with `Keep` not on a held key, and not where the value is longer
    /// than 16,777,216 bytes or the key names nothing.
    fn store(
        &mut self,
        space: &mut Self::S,
        mode: Mode,
        key: Key,
        value: Blob,
    ) -> Result<bool, RecErr>
        requires { IsReady Self.S.Space Self.holds self.old space.old }
        ensures makes { MadeBy Self.S.Space Self.holds Self.own Self.layout result (stored mode key value) self.old self.new space.old space.new }
        ensures refused { RefusesHeld Self.S.Space Self.holds result self.old self.new space.old space.new }
        ensures full { FullFor Self.S.Space Self.holds Self.fills result (stored mode key value) self.old space.old space.new }
        ensures keeps { Keeps Self.S.Space space.old space.new }
        ensures cause { OnFault Self.S.Space result space.old space.new };

    /// Adds a value behind those that a tree has of a key.
    fn push(&mut self, space: &mut Self::S, key: Key, value: Blob) -> Result<bool, RecErr>
        requires { IsReady Self.S.Space Self.holds self.old space.old }
        ensures makes { MadeBy Self.S.Space Self.holds Self.own Self.layout result (pushed key value) self.old self.new space.old space.new }
        ensures refused { RefusesHeld Self.S.Space Self.holds result self.old self.new space.old space.new }
        ensures full { FullFor Self.S.Space Self.holds Self.fills result (pushed key value) self.old space.old space.new }
        ensures keeps { Keeps Self.S.Space space.old space.new }
        ensures cause { OnFault Self.S.Space result space.old space.new };

    /// Takes a key out, of a tree its first value. It answers whether it was held.
    fn out(&mut self, space: &mut Self::S, key: &Key) -> Result<bool, RecErr>
        requires { IsReady Self.S.Space Self.holds self.old space.old }
        ensures makes { MadeBy Self.S.Space Self.holds Self.own Self.layout result (taken key.now) self.old self.new space.old space.new }
        ensures refused { RefusesHeld Self.S.Space Self.holds result self.old self.new space.old space.new }
        ensures full { FullFor Self.S.Space Self.holds Self.fills result (taken key.now) self.old space.old space.new }
        ensures keeps { Keeps Self.S.Space space.old space.new }
        ensures cause { OnFault Self.S.Space result space.old space.new };

    /// Gives each key its value, one pair after the other; none where one of them can't be stored.
    fn store_all(&mut self, space: &mut Self::S, pairs: Pairs) -> Result<bool, RecErr>
        requires { IsReady Self.S.Space Self.holds self.old space.old }
        ensures makes { MadeBy Self.S.Space Self.holds Self.own Self.layout result (all_stored pairs) self.old self.new space.old space.new }
        ensures refused { RefusesHeld Self.S.Space Self.holds result self.old self.new space.old space.new }
        ensures full { FullFor Self.S.Space Self.holds Self.fills result (all_stored pairs) self.old space.old space.new }
        ensures keeps { Keeps Self.S.Space space.old space.new }
        ensures cause { OnFault Self.S.Space result space.old space.new };

    /// Adds each value behind those of its key, one pair after the other; none where one of them can't be added.
    fn push_all(&mut self, space: &mut Self::S, pairs: Pairs) -> Result<bool, RecErr>
        requires { IsReady Self.S.Space Self.holds self.old space.old }
        ensures makes { MadeBy Self.S.Space Self.holds Self.own Self.layout result (all_pushed pairs) self.old self.new space.old space.new }
        ensures refused { RefusesHeld Self.S.Space Self.holds result self.old self.new space.old space.new }
        ensures full { FullFor Self.S.Space Self.holds Self.fills result (all_pushed pairs) self.old space.old space.new }
        ensures keeps { Keeps Self.S.Space space.old space.new }
        ensures cause { OnFault Self.S.Space result space.old space.new };

    /// Takes out what is held of each key, of a tree all its values. It answers true.
    fn clear_all(&mut self, space: &mut Self::S, keys: Blobs) -> Result<bool, RecErr>
        requires { IsReady Self.S.Space Self.holds self.old space.old }
        ensures makes { MadeBy Self.S.Space Self.holds Self.own Self.layout result (all_cleared keys) self.old self.new space.old space.new }
        ensures refused { RefusesHeld Self.S.Space Self.holds result self.old self.new space.old space.new }
        ensures full { FullFor Self.S.Space Self.holds Self.fills result (all_cleared keys) self.old space.old space.new }
        ensures keeps { Keeps Self.S.Space space.old space.new }
        ensures cause { OnFault Self.S.Space result space.old space.new };

    /// Takes out all that is held. It answers true.
    fn clear(&mut self, space: &mut Self::S) -> Result<bool, RecErr>
        requires { IsReady Self.S.Space Self.holds self.old space.old }
        ensures makes { MadeBy Self.S.Space Self.holds Self.own Self.layout result all_gone self.old self.new space.old space.new }
        ensures refused { RefusesHeld Self.S.Space Self.holds result self.old self.new space.old space.new }
        ensures full { FullFor Self.S.Space Self.holds Self.fills result all_gone self.old space.old space.new }
        ensures keeps { Keeps Self.S.Space space.old space.new }
        ensures cause { OnFault Self.S.Space result space.old space.new };

    /// Gives a key of a table a row of these columns, of which none may come twice. It answers whether it did; another database has no rows.
    fn store_row(
        &mut self,
        space: &mut Self::S,
        mode: Mode,
        key: Key,
        columns: Pairs,
    ) -> Result<bool, RecErr>
        requires { IsReady Self.S.Space Self.holds self.old space.old }
        ensures makes { MadeBy Self.S.Space Self.holds Self.own Self.layout result (row_stored mode key columns) self.old self.new space.old space.new }
        ensures refused { RefusesHeld Self.S.Space Self.holds result self.old self.new space.old space.new }
        ensures full { FullFor Self.S.Space Self.holds Self.fills result (row_stored mode key columns) self.old space.old space.new }
        ensures keeps { Keeps Self.S.Space space.old space.new }
        ensures cause { OnFault Self.S.Space result space.old space.new };

    /// Adds the names and values of the row of a key as rows, and answers whether there is one; where there isn't nothing is added.
    fn row(&mut self, space: &mut Self::S, key: &Key, into: &mut Rows) -> Result<bool, RecErr>
        requires { IsReady Self.S.Space Self.holds self.old space.old }
        ensures value { AddsTexts Self.S.Space Self.holds result (λ c. option_map texts_of (row_held c key.now)) self.old space.old into.old into.new }
        ensures front { Extends into.old into.new }
        ensures reads { ReadsHeld Self.S.Space Self.holds self.old self.new space.old space.new }
        ensures keeps { Keeps Self.S.Space space.old space.new }
        ensures cause { Blames Self.S.Space result space.old space.new };

    /// Sets the index of a column of a table to the type of a code, or takes it away. It answers whether it did.
    fn set_index(&mut self, space: &mut Self::S, column: Blob, code: &Blob) -> Result<bool, RecErr>
        requires { IsReady Self.S.Space Self.holds self.old space.old }
        ensures makes { MadeBy Self.S.Space Self.holds Self.own Self.layout result (index_set column code.now) self.old self.new space.old space.new }
        ensures refused { RefusesHeld Self.S.Space Self.holds result self.old self.new space.old space.new }
        ensures full { FullFor Self.S.Space Self.holds Self.fills result (index_set column code.now) self.old space.old space.new }
        ensures keeps { Keeps Self.S.Space space.old space.new }
        ensures cause { OnFault Self.S.Space result space.old space.new };

    /// Does with the rows of a table what a search by conditions says, and adds what it has to say as rows. It answers whether they are a search
    /// and this is a table; where not nothing is added. Without `out` among them it only reads, and with it there is nothing to say.
    fn search(
        &mut self,
        space: &mut Self::S,
        conditions: &Blobs,
        into: &mut Rows,
    ) -> Result<bool, RecErr>
        requires { IsReady Self.S.Space Self.holds self.old space.old }
        ensures makes { MadeBy Self.S.Space Self.holds Self.own Self.layout result (found_by conditions.now) self.old self.new space.old space.new }
        ensures says { AddsTexts Self.S.Space Self.holds result (λ c. option_map (λ o. o.1) (search_of conditions.now c)) self.old space.old into.old into.new }
        ensures quiet { takes_out conditions.now ≡ true → into.new ≡ into.old }
        ensures front { Extends into.old into.new }
        ensures reads { takes_out conditions.now ≡ false → ReadsHeld Self.S.Space Self.holds self.old self.new space.old space.new }
        ensures writes { IsErrOf result RecErr.Full → takes_out conditions.now ≡ true }
        ensures refused { RefusesHeld Self.S.Space Self.holds result self.old self.new space.old space.new }
        ensures full { FullFor Self.S.Space Self.holds Self.fills result (found_by conditions.now) self.old space.old space.new }
        ensures keeps { Keeps Self.S.Space space.old space.new }
        ensures cause { OnFault Self.S.Space result space.old space.new };
}
