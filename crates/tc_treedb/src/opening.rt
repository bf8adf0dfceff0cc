//! A tree database opened in its file, or made in it.
#![tactic(auto, using(tc_space::specs::Frames::keeps_refl, tc_space::specs::Frames::only_reads_refl))]

ghost use Rattle.std.specs.Prelude.{◌≡◌, true, false, IfOk, IfErr, IsErrOf};
ghost use Rattle.tc_space.specs.Frames.{Keeps, OnlyReads};
ghost use Rattle.tc_space.specs.Refusals.{Blamed, OnFault};
ghost use Rattle.tc_treedb.specs.Holding.{BreaksAs};
ghost use Rattle.tc_treedb.specs.Opening.{BreaksTree, HoldsNewHash, IsNewKept, OpensKept, CanOpenHash, told_decimal};
ghost use Rattle.tc_treedb.specs.Shapes.{Lacks, MayHave, Shaped, anew, usual};
ghost use Rattle.tc_treedb.specs.Unbroken.{stands_unbroken};

use crate::holding::TreeEngine;
use crate::kept::Kept;
use crate::laws::{decimal_tree, lexical_tree};
use crate::ordered::Ordered;
use crate::shape::{TreeShape, USUAL};
use bt_tree::Tree;
use std::alloc::Global;
use tc_base::{Kind, Rule};
use tc_hash::Hash;
use tc_space::{OpenErr, RecErr, Records, Space};
use ty_base::{AnyErr, Opens};

// The type in the head of a tree file.
const TREE: u8 = 1;

// Whether a hash file's region tells the order of numbers.
fn is_by_number<S: Space>(hash: &Hash<S>) -> bool
    ensures { result ≡ told_decimal S.Space hash.now }
{
    let region = hash.opaque();
    region[0] == 1
}

impl<S: Space> Kept<S> {
    // The tree of a hash file that was opened, in the order of numbers, which the file tells.
    fn open_decimal(alloc: Global, hash: Hash<S>, space: &mut S) -> Result<Kept<S>, OpenErr>
        requires ready { CanOpenHash S.Space hash space.old }
        requires told { told_decimal S.Space hash ≡ true }
        ensures opened { IfOk result (OpensKept S.Space hash space.old space.new) }
        ensures broken { IfErr result (BreaksTree S.Space hash space.old) }
        ensures reads { OnlyReads S.Space space.old space.new }
        ensures cause { Blamed S.Space (IsErrOf result OpenErr.Fault) space.old space.new }
    {
        decimal_tree::<S>();
        let tree = Tree::open(alloc, hash, space)?;
        Ok(Kept::Decimal(Ordered { tree }))
    }

    // The same in the order of bytes, where the file doesn't tell the other.
    fn open_lexical(alloc: Global, hash: Hash<S>, space: &mut S) -> Result<Kept<S>, OpenErr>
        requires ready { CanOpenHash S.Space hash space.old }
        requires told { told_decimal S.Space hash ≡ false }
        ensures opened { IfOk result (OpensKept S.Space hash space.old space.new) }
        ensures broken { IfErr result (BreaksTree S.Space hash space.old) }
        ensures reads { OnlyReads S.Space space.old space.new }
        ensures cause { Blamed S.Space (IsErrOf result OpenErr.Fault) space.old space.new }
    {
        lexical_tree::<S>();
        let tree = Tree::open(alloc, hash, space)?; // a byte other than 0 and 1 breaks a rule
        Ok(Kept::Lexical(Ordered { tree }))
    }

    // The tree of a hash file that was opened, in the order that the file tells. Another byte than 0 and 1 is a broken rule, whatever the order.
    fn open(alloc: Global, hash: Hash<S>, space: &mut S) -> Result<Kept<S>, OpenErr>
        requires { CanOpenHash S.Space hash space.old }
        ensures opened { IfOk result (OpensKept S.Space hash space.old space.new) }
        ensures broken { IfErr result (BreaksTree S.Space hash space.old) }
        ensures reads { OnlyReads S.Space space.old space.new }
        ensures cause { Blamed S.Space (IsErrOf result OpenErr.Fault) space.old space.new }
    {
        if is_by_number(&hash) {
            return Self::open_decimal(alloc, hash, space);
        }
        Self::open_lexical(alloc, hash, space)
    }

    // A tree of no pairs in a hash file of no records, in the order of numbers.
    fn create_decimal(
        alloc: Global,
        hash: Hash<S>,
        shape: &TreeShape,
        space: &mut S,
    ) -> Result<Kept<S>, RecErr>
        requires new { HoldsNewHash S.Space shape.now hash space.old }
        requires numbers { MayHave shape.now }
        requires order { shape.now.decimal ≡ true }
        ensures made { IfOk result (IsNewKept S.Space shape.now hash space.old space.new) }
        ensures full { IsErrOf result RecErr.Full → S.tells → Lacks S.Space space.new shape.now }
        ensures keeps { Keeps S.Space space.old space.new }
        ensures cause { OnFault S.Space result space.old space.new }
    {
        decimal_tree::<S>();
        let tree = Tree::create(alloc, hash, space, shape.leaf_limit, shape.node_limit)?;
        Ok(Kept::Decimal(Ordered { tree }))
    }

    // The same in the order of bytes.
    fn create_lexical(
        alloc: Global,
        hash: Hash<S>,
        shape: &TreeShape,
        space: &mut S,
    ) -> Result<Kept<S>, RecErr>
        requires new { HoldsNewHash S.Space shape.now hash space.old }
        requires numbers { MayHave shape.now }
        requires order { shape.now.decimal ≡ false }
        ensures made { IfOk result (IsNewKept S.Space shape.now hash space.old space.new) }
        ensures full { IsErrOf result RecErr.Full → S.tells → Lacks S.Space space.new shape.now }
        ensures keeps { Keeps S.Space space.old space.new }
        ensures cause { OnFault S.Space result space.old space.new }
    {
        lexical_tree::<S>();
        let tree = Tree::create(alloc, hash, space, shape.leaf_limit, shape.node_limit)?;
        Ok(Kept::Lexical(Ordered { tree }))
    }

    // A tree of no pairs in a hash file of no records.
    fn create(
        alloc: Global,
        hash: Hash<S>,
        shape: &TreeShape,
        space: &mut S,
    ) -> Result<Kept<S>, RecErr>
        requires new { HoldsNewHash S.Space shape.now hash space.old }
        requires numbers { MayHave shape.now }
        ensures made { IfOk result (IsNewKept S.Space shape.now hash space.old space.new) }
        ensures full { IsErrOf result RecErr.Full → S.tells → Lacks S.Space space.new shape.now }
        ensures keeps { Keeps S.Space space.old space.new }
        ensures cause { OnFault S.Space result space.old space.new }
    {
        if shape.decimal {
            return Self::create_decimal(alloc, hash, shape, space);
        }
        Self::create_lexical(alloc, hash, shape, space)
    }
}

// The rest of a file that is made anew, behind its sections: the tree, and its numbers in the head.
fn make_tree<S: Space>(
    alloc: Global,
    hash: Hash<S>,
    shape: &TreeShape,
    space: &mut S,
) -> Result<Kept<S>, RecErr>
    requires new { HoldsNewHash S.Space shape.now hash space.old }
    requires numbers { MayHave shape.now }
    ensures made { IfOk result (IsSettledNew S.Space shape.now space.old space.new) }
    ensures full { IsErrOf result RecErr.Full → S.tells → Lacks S.Space space.new shape.now }
    ensures keeps { Keeps S.Space space.old space.new }
    ensures cause { OnFault S.Space result space.old space.new }
{
    let mut kept = Kept::create(alloc, hash, shape, space)?;
    kept.settle(space)?;
    Ok(kept)
}

ghost use Rattle.tc_treedb.specs.Opening.{IsSettledNew};

impl<S: Space> Opens for TreeEngine<S> {
    type Shape = TreeShape;

    ghost may_be = { λ shape. MayHave shape };

    ghost anew = { λ shape. anew shape };

    ghost shaped = { λ shape files. Shaped shape files };

    ghost usual = { usual };

    ghost lacks = { λ space shape. Lacks S.Space space shape };

    ghost breaks = { λ kind files file rule. BreaksAs kind files file rule };

    ghost breaks_new = { λ files file rule. ⊥ };

    ghost unbroken = { λ kind files c file rule opens breaks. stands_unbroken kind files c file rule opens breaks };

    fn open(alloc: Global, kind: Kind, space: &mut S) -> Result<TreeEngine<S>, AnyErr> {
        if kind != Kind::Tree {
            return Err(AnyErr::Broken {
                file: 0,
                rule: Rule {
                    letter: b'L',
                    number: 1,
                },
            });
        }
        if space.len(0) == 0 {
            return Self::create(alloc, &USUAL, space);
        }
        let hash = Hash::open(alloc, space, 0, TREE)?;
        let kept = Kept::open(alloc, hash, space)?;
        Ok(TreeEngine {
            alloc,
            kept,
            total: None,
        })
    }

    fn create(alloc: Global, shape: &TreeShape, space: &mut S) -> Result<TreeEngine<S>, AnyErr> {
        let hash = Hash::create(
            alloc,
            space,
            0,
            TREE,
            shape.apow,
            shape.fpow,
            shape.buckets,
            shape.large,
        )?;
        match make_tree(alloc, hash, shape, space) {
            Ok(kept) => Ok(TreeEngine {
                alloc,
                kept,
                total: Some(0),
            }),
            Err(e) => {
                space.spoil();
                Err(AnyErr::from(e))
            }
        }
    }
}
