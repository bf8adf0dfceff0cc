//! A tree over a hash file, in one of the two orders, and its calls whichever it has.
#![tactic(auto, using(tc_space::specs::Frames::keeps_refl))]

ghost use Rattle.std.specs.Prelude.{◌≡◌, false, [], length, map, option_map, is_some, IfOk, IfSome, IsErrOf, OnErr, OnOk};
ghost use Rattle.tc_base.specs.Lists.{first, keys};
ghost use Rattle.tc_base.specs.Orders.{order};
ghost use Rattle.tc_space.specs.Changes.{same};
ghost use Rattle.tc_space.specs.Frames.{Keeps, Refuses, Writes};
ghost use Rattle.tc_space.specs.Refusals.{Blames, OnFault, OnlyLogIsFull};
ghost use Rattle.tc_space.specs.Stores.{IsReady, Only};
ghost use Rattle.bt_cache.specs.Effects.{OnFull};
ghost use Rattle.tc_engine.specs.Changes.{first_of};
ghost use Rattle.tc_engine.specs.Rows.{Adds, Extends, item_row, text_rows};
ghost use Rattle.tc_treedb.specs.Changing.{AreLengths, after, each_cleared, each_pushed, each_set, pushed_in, stored_in, taken_in};
ghost use Rattle.tc_treedb.specs.Holding.{Held, Means};
ghost use Rattle.tc_treedb.specs.Kept.{BringsKept, BringsTight, CountsKept, FillsTo, Finds, FormsKept, GrowsKept, HoldsIts, KeepsHead, LacksFormed, LessKept, LooksKept, Makes, OfTrees, PacksKept, SameTree, StaysKept, TrimsKept, height_of};
ghost use Rattle.tc_treedb.specs.Reading.{AddsFirstOf, bytes_in, keys_beginning, pairs_in, pairs_of};

use crate::laws::{decimal_tree, lexical_tree};
use crate::many::{clear_each, push_all, set_all};
use crate::ordered::Ordered;
use crate::reading::{add_first, add_keys, add_pairs, add_range, all_bytes, all_keys, first_len};
use crate::storing::{Change, push_last, store_first, take_first};
use bt_order::{All, PrefixCut};
use std::alloc::Global;
use tc_base::{Blob, Decimal, Form, Keys, Lexical, Mode, Pair, Steps};
use tc_engine::Rows;
use tc_space::{RecErr, Space};

/// A tree whose pages are the records of a hash file.
#[derive(Drop)]
pub enum Kept<S> {
    /// In the order of bytes.
    Lexical(Ordered<S, Lexical>),
    /// In the order of numbers.
    Decimal(Ordered<S, Decimal>),
}

impl<S: Space> Kept<S> {
    /// How many pairs are held.
    pub(crate) fn count(&self) -> u64
        ensures { HoldsIts self.now (λ ps. result ≡ length ps) }
    {
        match self {
            Kept::Lexical(tree) => {
                lexical_tree::<S>();
                tree.seen().count()
            }
            Kept::Decimal(tree) => {
                decimal_tree::<S>();
                tree.seen().count()
            }
        }
    }

    /// How many rows of pages there are.
    pub(crate) fn height(&self) -> u64
        ensures { result ≡ height_of self.now }
    {
        match self {
            Kept::Lexical(tree) => tree.seen().height(),
            Kept::Decimal(tree) => tree.seen().height(),
        }
    }

    /// The length of the first value of a key.
    pub(crate) fn first_len(&mut self, space: &mut S, key: &[u8]) -> Result<Option<u64>, RecErr>
        requires { IsReady S.Space (Means S.Space) self.old space.old }
        ensures value { Finds S.Space result (λ m. option_map length (first m.1 key.now)) self.old space.old }
        ensures looks { LooksKept S.Space self.old self.new space.old space.new }
        ensures cause { Blames S.Space result space.old space.new }
    {
        match self {
            Kept::Lexical(tree) => {
                lexical_tree::<S>();
                first_len(tree.lent(), space, key)
            }
            Kept::Decimal(tree) => {
                decimal_tree::<S>();
                first_len(tree.lent(), space, key)
            }
        }
    }

    /// The first value of a key.
    pub(crate) fn first_value(&mut self, space: &mut S, key: &[u8]) -> Result<Option<Blob>, RecErr>
        requires { IsReady S.Space (Means S.Space) self.old space.old }
        ensures value { Finds S.Space result (λ m. first m.1 key.now) self.old space.old }
        ensures looks { LooksKept S.Space self.old self.new space.old space.new }
        ensures cause { Blames S.Space result space.old space.new }
    {
        let mut steps: Steps<()> = Steps::new();
        match self {
            Kept::Lexical(tree) => {
                lexical_tree::<S>();
                tree.lent().first_value(space, key, &mut steps)
            }
            Kept::Decimal(tree) => {
                decimal_tree::<S>();
                tree.lent().first_value(space, key, &mut steps)
            }
        }
    }

    /// The bytes of all keys and values.
    pub(crate) fn all_bytes(&mut self, space: &mut S) -> Result<u64, RecErr>
        requires { IsReady S.Space (Means S.Space) self.old space.old }
        ensures value { Finds S.Space result (λ m. bytes_in m.1) self.old space.old }
        ensures looks { LooksKept S.Space self.old self.new space.old space.new }
        ensures cause { Blames S.Space result space.old space.new }
    {
        match self {
            Kept::Lexical(tree) => {
                lexical_tree::<S>();
                all_bytes(tree.lent(), space)
            }
            Kept::Decimal(tree) => {
                decimal_tree::<S>();
                all_bytes(tree.lent(), space)
            }
        }
    }

    /// The keys, each once, in order.
    pub(crate) fn all_keys(&mut self, alloc: Global, space: &mut S) -> Result<Keys, RecErr>
        requires { IsReady S.Space (Means S.Space) self.old space.old }
        ensures value { Finds S.Space result (λ m. keys m.1) self.old space.old }
        ensures looks { LooksKept S.Space self.old self.new space.old space.new }
        ensures cause { Blames S.Space result space.old space.new }
    {
        match self {
            Kept::Lexical(tree) => {
                lexical_tree::<S>();
                all_keys(alloc, tree.lent(), space)
            }
            Kept::Decimal(tree) => {
                decimal_tree::<S>();
                all_keys(alloc, tree.lent(), space)
            }
        }
    }

    /// Adds the first value of a key as a row, with the key where that is wanted, and answers whether the key is held.
    pub(crate) fn add_first(
        &mut self,
        alloc: Global,
        space: &mut S,
        key: &[u8],
        with_key: bool,
        into: &mut Rows,
    ) -> Result<bool, RecErr>
        requires { IsReady S.Space (Means S.Space) self.old space.old }
        ensures added { IfOk result (λ held. (m : Held) → Means S.Space self.old space.old m → AddsFirstOf with_key key.now held m.1 into.old into.new) }
        ensures front { Extends into.old into.new }
        ensures looks { LooksKept S.Space self.old self.new space.old space.new }
        ensures cause { Blames S.Space result space.old space.new }
    {
        match self {
            Kept::Lexical(tree) => {
                lexical_tree::<S>();
                add_first(alloc, tree.lent(), space, key, with_key, into)
            }
            Kept::Decimal(tree) => {
                decimal_tree::<S>();
                add_first(alloc, tree.lent(), space, key, with_key, into)
            }
        }
    }

    /// Adds a row each for a key and its values.
    pub(crate) fn add_pairs(
        &mut self,
        alloc: Global,
        space: &mut S,
        key: &[u8],
        into: &mut Rows,
    ) -> Result<(), RecErr>
        requires { IsReady S.Space (Means S.Space) self.old space.old }
        ensures rows { OnOk result ((m : Held) → Means S.Space self.old space.old m → Adds into.old into.new (text_rows (pairs_of key.now m.1))) }
        ensures front { Extends into.old into.new }
        ensures looks { LooksKept S.Space self.old self.new space.old space.new }
        ensures cause { Blames S.Space result space.old space.new }
    {
        match self {
            Kept::Lexical(tree) => {
                lexical_tree::<S>();
                add_pairs(alloc, tree.lent(), space, key, into)
            }
            Kept::Decimal(tree) => {
                decimal_tree::<S>();
                add_pairs(alloc, tree.lent(), space, key, into)
            }
        }
    }

    /// Adds a row each for key and value of the pairs from a key on, before another where one is given, at most so many.
    pub(crate) fn add_range(
        &mut self,
        alloc: Global,
        space: &mut S,
        from: &[u8],
        to: Option<&[u8]>,
        most: Option<u64>,
        into: &mut Rows,
    ) -> Result<(), RecErr>
        requires { IsReady S.Space (Means S.Space) self.old space.old }
        ensures rows { OnOk result ((m : Held) → Means S.Space self.old space.old m → Adds into.old into.new (text_rows (pairs_in (order m.0) from.now (option_map (λ k. k.now) to.entry) most m.1))) }
        ensures front { Extends into.old into.new }
        ensures looks { LooksKept S.Space self.old self.new space.old space.new }
        ensures cause { Blames S.Space result space.old space.new }
    {
        match self {
            Kept::Lexical(tree) => {
                lexical_tree::<S>();
                add_range(alloc, tree.lent(), space, from, to, most, into)
            }
            Kept::Decimal(tree) => {
                decimal_tree::<S>();
                add_range(alloc, tree.lent(), space, from, to, most, into)
            }
        }
    }

    /// Adds the keys that begin with a prefix as rows, in order, at most so many.
    pub(crate) fn add_keys(
        &mut self,
        alloc: Global,
        space: &mut S,
        prefix: &[u8],
        most: Option<u64>,
        into: &mut Rows,
    ) -> Result<(), RecErr>
        requires { IsReady S.Space (Means S.Space) self.old space.old }
        ensures rows { OnOk result ((m : Held) → Means S.Space self.old space.old m → Adds into.old into.new (map item_row (first_of most (keys_beginning prefix.now m.1)))) }
        ensures front { Extends into.old into.new }
        ensures looks { LooksKept S.Space self.old self.new space.old space.new }
        ensures cause { Blames S.Space result space.old space.new }
    {
        match self {
            Kept::Lexical(tree) => {
                lexical_tree::<S>();
                let cut = PrefixCut { prefix };
                add_keys(alloc, tree.lent(), space, &cut, prefix, most, into)
            }
            Kept::Decimal(tree) => {
                decimal_tree::<S>();
                add_keys(alloc, tree.lent(), space, &All, prefix, most, into)
            }
        }
    }

    /// Gives a key a first value as a mode says, and answers the lengths where it did.
    pub(crate) fn store(
        &mut self,
        alloc: Global,
        space: &mut S,
        mode: Mode,
        key: &[u8],
        value: &[u8],
    ) -> Result<Option<Change>, RecErr>
        requires { IsReady S.Space (Means S.Space) self.old space.old }
        ensures makes { IfOk result (λ c. Makes S.Space (λ m. stored_in (order m.0) mode key.now value.now m.1) (is_some c) self.old self.new space.old space.new) }
        ensures lengths { IfOk result (λ c. IfSome c (λ l. (m : Held) → Means S.Space self.old space.old m → AreLengths mode key.now value.now l m.1)) }
        ensures full { OnFull result (FillsTo S.Space (λ m. after (stored_in (order m.0) mode key.now value.now) m.1) self.old space.old space.new) }
        ensures refused { OnErr result (Refuses S.Space (Means S.Space) self.old self.new space.old space.new) }
        ensures stays { GrowsKept S.Space result self.old self.new space.new }
        ensures keeps { Keeps S.Space space.old space.new }
        ensures cause { OnFault S.Space result space.old space.new }
    {
        match self {
            Kept::Lexical(tree) => {
                lexical_tree::<S>();
                store_first(alloc, tree.lent(), space, mode, key, value)
            }
            Kept::Decimal(tree) => {
                decimal_tree::<S>();
                store_first(alloc, tree.lent(), space, mode, key, value)
            }
        }
    }

    /// Adds a value behind those of a key, and answers whether it did.
    pub(crate) fn push(&mut self, space: &mut S, key: &[u8], value: &[u8]) -> Result<bool, RecErr>
        requires { IsReady S.Space (Means S.Space) self.old space.old }
        ensures makes { IfOk result (λ done. Makes S.Space (λ m. pushed_in (order m.0) key.now value.now m.1) done self.old self.new space.old space.new) }
        ensures full { OnFull result (FillsTo S.Space (λ m. after (pushed_in (order m.0) key.now value.now) m.1) self.old space.old space.new) }
        ensures refused { OnErr result (Refuses S.Space (Means S.Space) self.old self.new space.old space.new) }
        ensures stays { GrowsKept S.Space result self.old self.new space.new }
        ensures keeps { Keeps S.Space space.old space.new }
        ensures cause { OnFault S.Space result space.old space.new }
    {
        match self {
            Kept::Lexical(tree) => {
                lexical_tree::<S>();
                push_last(tree.lent(), space, key, value)
            }
            Kept::Decimal(tree) => {
                decimal_tree::<S>();
                push_last(tree.lent(), space, key, value)
            }
        }
    }

    /// Takes the first value of a key out, and answers its length where there was one.
    pub(crate) fn take(&mut self, space: &mut S, key: &[u8]) -> Result<Option<u64>, RecErr>
        requires { IsReady S.Space (Means S.Space) self.old space.old }
        ensures makes { IfOk result (λ len. Makes S.Space (λ m. taken_in (order m.0) key.now m.1) (is_some len) self.old self.new space.old space.new) }
        ensures len { Finds S.Space result (λ m. option_map length (first m.1 key.now)) self.old space.old }
        ensures full { OnFull result (FillsTo S.Space (λ m. after (taken_in (order m.0) key.now) m.1) self.old space.old space.new) }
        ensures refused { OnErr result (Refuses S.Space (Means S.Space) self.old self.new space.old space.new) }
        ensures stays { LessKept self.old self.new }
        ensures keeps { Keeps S.Space space.old space.new }
        ensures cause { OnFault S.Space result space.old space.new }
    {
        match self {
            Kept::Lexical(tree) => {
                lexical_tree::<S>();
                take_first(tree.lent(), space, key)
            }
            Kept::Decimal(tree) => {
                decimal_tree::<S>();
                take_first(tree.lent(), space, key)
            }
        }
    }

    /// Gives each key its first value, one pair after the other, and answers how many bytes all have then, where they were counted. It is never full. After a refusal the space isn't sound.
    pub(crate) fn set_all(
        &mut self,
        space: &mut S,
        pairs: &[Pair],
        total: Option<u64>,
    ) -> Result<Option<u64>, RecErr>
        requires { IsReady S.Space (Means S.Space) self.old space.old }
        ensures made { OnOk result (Writes S.Space (Only 0) (Means S.Space) (λ m. (m.0, each_set (order m.0) pairs.now m.1)) self.old self.new space.old space.new) }
        ensures counted { IfOk result (λ n. IfSome n (CountsKept S.Space (λ m. each_set (order m.0) pairs.now m.1) total self.old space.old)) }
        ensures not_full { IsErrOf result RecErr.Full → ⊥ }
        ensures refused { OnErr result (S.flag space.new ≡ false) }
        ensures numbers { KeepsHead self.old self.new }
        ensures keeps { Keeps S.Space space.old space.new }
        ensures cause { OnFault S.Space result space.old space.new }
    {
        match self {
            Kept::Lexical(tree) => {
                lexical_tree::<S>();
                set_all(tree.lent(), space, pairs, total)
            }
            Kept::Decimal(tree) => {
                decimal_tree::<S>();
                set_all(tree.lent(), space, pairs, total)
            }
        }
    }

    /// Adds each value behind those of its key, one pair after the other. After a refusal the space isn't sound.
    pub(crate) fn push_all(
        &mut self,
        space: &mut S,
        pairs: &[Pair],
        total: Option<u64>,
    ) -> Result<Option<u64>, RecErr>
        requires { IsReady S.Space (Means S.Space) self.old space.old }
        ensures made { OnOk result (Writes S.Space (Only 0) (Means S.Space) (λ m. (m.0, each_pushed (order m.0) pairs.now m.1)) self.old self.new space.old space.new) }
        ensures counted { IfOk result (λ n. IfSome n (CountsKept S.Space (λ m. each_pushed (order m.0) pairs.now m.1) total self.old space.old)) }
        ensures full { OnFull result (FillsTo S.Space (λ m. each_pushed (order m.0) pairs.now m.1) self.old space.old space.new) }
        ensures refused { OnErr result (S.flag space.new ≡ false) }
        ensures numbers { KeepsHead self.old self.new }
        ensures keeps { Keeps S.Space space.old space.new }
        ensures cause { OnFault S.Space result space.old space.new }
    {
        match self {
            Kept::Lexical(tree) => {
                lexical_tree::<S>();
                push_all(tree.lent(), space, pairs, total)
            }
            Kept::Decimal(tree) => {
                decimal_tree::<S>();
                push_all(tree.lent(), space, pairs, total)
            }
        }
    }

    /// Takes all values of each key out that is held. After a refusal the space isn't sound.
    pub(crate) fn clear_each(
        &mut self,
        space: &mut S,
        keys: &[Blob],
        total: Option<u64>,
    ) -> Result<Option<u64>, RecErr>
        requires { IsReady S.Space (Means S.Space) self.old space.old }
        ensures made { OnOk result (Writes S.Space (Only 0) (Means S.Space) (λ m. (m.0, each_cleared (order m.0) keys.now m.1)) self.old self.new space.old space.new) }
        ensures counted { IfOk result (λ n. IfSome n (CountsKept S.Space (λ m. each_cleared (order m.0) keys.now m.1) total self.old space.old)) }
        ensures full { OnFull result (FillsTo S.Space (λ m. each_cleared (order m.0) keys.now m.1) self.old space.old space.new) }
        ensures refused { OnErr result (S.flag space.new ≡ false) }
        ensures stays { LessKept self.old self.new }
        ensures keeps { Keeps S.Space space.old space.new }
        ensures cause { OnFault S.Space result space.old space.new }
    {
        match self {
            Kept::Lexical(tree) => {
                lexical_tree::<S>();
                clear_each(tree.lent(), space, keys, total)
            }
            Kept::Decimal(tree) => {
                decimal_tree::<S>();
                clear_each(tree.lent(), space, keys, total)
            }
        }
    }

    /// Takes all pairs out.
    pub(crate) fn clear(&mut self, space: &mut S) -> Result<(), RecErr>
        requires { IsReady S.Space (Means S.Space) self.old space.old }
        ensures made { OnOk result (Writes S.Space (Only 0) (Means S.Space) (λ m. (m.0, [])) self.old self.new space.old space.new) }
        ensures full { OnFull result (FillsTo S.Space (λ m. []) self.old space.old space.new) }
        ensures refused { OnErr result (Refuses S.Space (Means S.Space) self.old self.new space.old space.new) }
        ensures stays { LessKept self.old self.new }
        ensures keeps { Keeps S.Space space.old space.new }
        ensures cause { OnFault S.Space result space.old space.new }
    {
        match self {
            Kept::Lexical(tree) => {
                lexical_tree::<S>();
                tree.lent().clear_all(space)
            }
            Kept::Decimal(tree) => {
                decimal_tree::<S>();
                tree.lent().clear_all(space)
            }
        }
    }

    /// Brings the tree to its file, which then stands for the pairs.
    pub(crate) fn settle(&mut self, space: &mut S) -> Result<(), RecErr>
        requires { IsReady S.Space (Means S.Space) self.old space.old }
        ensures settled { OnOk result (Writes S.Space (Only 0) (Means S.Space) same self.old self.new space.old space.new) }
        ensures stands { OnOk result (BringsKept S.Space self.old space.old space.new) }
        ensures packs { OnOk result (BringsTight S.Space self.old space.old space.new) }
        ensures trims { OnOk result (TrimsKept S.Space self.old space.old space.new) }
        ensures stays { StaysKept self.old self.new }
        ensures full { OnlyLogIsFull S.Space result space.new }
        ensures refused { OnErr result (Refuses S.Space (Means S.Space) self.old self.new space.old space.new) }
        ensures keeps { Keeps S.Space space.old space.new }
        ensures cause { OnFault S.Space result space.old space.new }
    {
        match self {
            Kept::Lexical(tree) => {
                lexical_tree::<S>();
                tree.lent().settle(space)
            }
            Kept::Decimal(tree) => {
                decimal_tree::<S>();
                tree.lent().settle(space)
            }
        }
    }

    /// Packs the file, in the form that it has or in the large one.
    pub(crate) fn pack(&mut self, space: &mut S, form: Form) -> Result<(), RecErr>
        requires { IsReady S.Space (Means S.Space) self.old space.old }
        ensures packed { OnOk result (Writes S.Space (Only 0) (Means S.Space) same self.old self.new space.old space.new) }
        ensures tight { OnOk result (PacksKept S.Space form self.old self.new space.old space.new) }
        ensures formed { OnOk result (FormsKept form self.old self.new) }
        ensures full { OnFull result (LacksFormed S.Space form self.old space.old space.new) }
        ensures refused { OnErr result (Refuses S.Space (Means S.Space) self.old self.new space.old space.new) }
        ensures tree { OfTrees SameTree self.old self.new }
        ensures keeps { Keeps S.Space space.old space.new }
        ensures cause { OnFault S.Space result space.old space.new }
    {
        match self {
            Kept::Lexical(tree) => {
                lexical_tree::<S>();
                tree.lent().pack(space, form)
            }
            Kept::Decimal(tree) => {
                decimal_tree::<S>();
                tree.lent().pack(space, form)
            }
        }
    }
}
