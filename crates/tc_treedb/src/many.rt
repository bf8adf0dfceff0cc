//! Changes of many keys of a tree of either order.
#![tactic(auto, using(tc_space::specs::Frames::keeps_refl, tc_space::specs::Frames::keeps_then))]

ghost use Rattle.std.specs.Prelude.{◌≡◌, false, OnOk, OnErr, IfOk, IfSome, IsErrOf};
ghost use Rattle.std.specs.List.{list_all};
ghost use Rattle.tc_space.specs.Frames.{GivenUp, Keeps};
ghost use Rattle.tc_space.specs.Refusals.{OnFault};
ghost use Rattle.bt_cache.specs.Effects.{OnFull};
ghost use Rattle.bt_tree.specs.Inserting.{StaysMade};
ghost use Rattle.bt_tree.specs.Meaning.{Changes, IsOpen};
ghost use Rattle.tc_treedb.specs.Changing.{FillsAlong, StaysLess, cleared_in, each_cleared, each_pushed, each_set, is_short, set_in, push_in};

use crate::counting::{counted_less, counted_with};
use crate::reading::{first_len, key_bytes};
use bt_tree::Tree;
use tc_base::{Blob, Order, Pair, VALUE_MOST};
use tc_space::{RecErr, Records, Space};

/// Whether no value is too long.
pub(crate) fn are_short(pairs: &[Pair]) -> bool
    ensures { result ≡ list_all is_short pairs.now }
{
    for pair in pairs {
        if pair.value.len() > VALUE_MOST {
            return false;
        }
    }
    true
}

// Why a call was refused behind others that wrote: the space isn't sound then.
fn given_up<S: Space>(space: &mut S, cause: RecErr) -> RecErr
    ensures same { result ≡ cause }
    ensures given { GivenUp S.Space space.old space.new }
{
    space.spoil();
    cause
}

// Why a call was refused, where no limit is told.
fn without_limit(cause: RecErr) -> RecErr
    ensures not_full { result ≡ RecErr.Full → ⊥ }
    ensures fault { result ≡ RecErr.Fault → cause ≡ RecErr.Fault }
{
    match cause {
        RecErr::Full => RecErr::Memory,
        RecErr::Memory => RecErr::Memory,
        RecErr::Fault => RecErr::Fault,
    }
}

// Gives a key a first value, whatever its length, and answers how many bytes all have then, where they were counted.
fn set_one<R: Records, O: Order>(
    tree: &mut Tree<R, O>,
    space: &mut R::S,
    pair: &Pair,
    total: Option<u64>,
) -> Result<Option<u64>, RecErr>
    requires { IsOpen R.S.Space R.Records O.Order tree.old space.old }
    ensures set { OnOk result (Changes R.S.Space R.Records O.Order (set_in O.cmp pair.now) tree.old tree.new space.old space.new) }
    ensures counted { IfOk result (λ n. IfSome n (CountsTo R.S.Space R.Records O.Order (set_in O.cmp pair.now) total tree.old space.old)) }
    ensures keeps { Keeps R.S.Space space.old space.new }
    ensures stays { StaysMade R.Records tree.old tree.new }
    ensures cause { OnFault R.S.Space result space.old space.new }
{
    let key = pair.key.as_slice();
    let old = first_len(tree, space, key)?;
    tree.insert(space, key, pair.value.as_slice(), false)?;
    Ok(counted_with(total, key.len() as u64, old, pair.value.len() as u64))
}

ghost use Rattle.tc_treedb.specs.Changing.{CountsTo};

/// Gives each key its first value, one pair after the other, and answers how many bytes all have then, where they were counted. No request asks for it of a tree, so a limit is
/// answered as want of memory. After a refusal the space isn't sound.
pub(crate) fn set_all<R: Records, O: Order>(
    tree: &mut Tree<R, O>,
    space: &mut R::S,
    pairs: &[Pair],
    total: Option<u64>,
) -> Result<Option<u64>, RecErr>
    requires { IsOpen R.S.Space R.Records O.Order tree.old space.old }
    ensures set { OnOk result (Changes R.S.Space R.Records O.Order (each_set O.cmp pairs.now) tree.old tree.new space.old space.new) }
    ensures counted { IfOk result (λ n. IfSome n (CountsTo R.S.Space R.Records O.Order (each_set O.cmp pairs.now) total tree.old space.old)) }
    ensures refused { OnErr result (R.S.flag space.new ≡ false) }
    ensures not_full { IsErrOf result RecErr.Full → ⊥ }
    ensures keeps { Keeps R.S.Space space.old space.new }
    ensures stays { StaysMade R.Records tree.old tree.new }
    ensures cause { OnFault R.S.Space result space.old space.new }
{
    let mut so_far = total;
    for pair in pairs {
        let counted = match set_one(tree, space, pair, so_far) {
            Ok(counted) => counted,
            Err(e) => return Err(given_up(space, without_limit(e))),
        };
        so_far = counted;
    }
    Ok(so_far)
}

// Adds a value behind those of its key, whatever its length, and answers how many bytes all have then, where they were counted.
fn push_one<R: Records, O: Order>(
    tree: &mut Tree<R, O>,
    space: &mut R::S,
    pair: &Pair,
    total: Option<u64>,
) -> Result<Option<u64>, RecErr>
    requires { IsOpen R.S.Space R.Records O.Order tree.old space.old }
    ensures pushed { OnOk result (Changes R.S.Space R.Records O.Order (push_in O.cmp pair.now) tree.old tree.new space.old space.new) }
    ensures counted { IfOk result (λ n. IfSome n (CountsTo R.S.Space R.Records O.Order (push_in O.cmp pair.now) total tree.old space.old)) }
    ensures full { OnFull result (FillsAlong R.S.Space R.Records O.Order (push_in O.cmp pair.now) tree.old space.old space.new) }
    ensures keeps { Keeps R.S.Space space.old space.new }
    ensures stays { StaysMade R.Records tree.old tree.new }
    ensures cause { OnFault R.S.Space result space.old space.new }
{
    let key = pair.key.as_slice();
    tree.insert(space, key, pair.value.as_slice(), true)?;
    Ok(counted_with(total, key.len() as u64, None, pair.value.len() as u64))
}

/// Adds each value behind those of its key, one pair after the other. After a refusal the space isn't sound.
pub(crate) fn push_all<R: Records, O: Order>(
    tree: &mut Tree<R, O>,
    space: &mut R::S,
    pairs: &[Pair],
    total: Option<u64>,
) -> Result<Option<u64>, RecErr>
    requires { IsOpen R.S.Space R.Records O.Order tree.old space.old }
    ensures pushed { OnOk result (Changes R.S.Space R.Records O.Order (each_pushed O.cmp pairs.now) tree.old tree.new space.old space.new) }
    ensures counted { IfOk result (λ n. IfSome n (CountsTo R.S.Space R.Records O.Order (each_pushed O.cmp pairs.now) total tree.old space.old)) }
    ensures refused { OnErr result (R.S.flag space.new ≡ false) }
    ensures full { OnFull result (FillsAlong R.S.Space R.Records O.Order (each_pushed O.cmp pairs.now) tree.old space.old space.new) }
    ensures keeps { Keeps R.S.Space space.old space.new }
    ensures stays { StaysMade R.Records tree.old tree.new }
    ensures cause { OnFault R.S.Space result space.old space.new }
{
    let mut so_far = total;
    for pair in pairs {
        let counted = match push_one(tree, space, pair, so_far) {
            Ok(counted) => counted,
            Err(e) => return Err(given_up(space, e)),
        };
        so_far = counted;
    }
    Ok(so_far)
}

// Takes all values of a key out, if it is held, and answers how many bytes are left, where they were counted.
fn clear_one<R: Records, O: Order>(
    tree: &mut Tree<R, O>,
    space: &mut R::S,
    key: &[u8],
    total: Option<u64>,
) -> Result<Option<u64>, RecErr>
    requires { IsOpen R.S.Space R.Records O.Order tree.old space.old }
    ensures cleared { OnOk result (Changes R.S.Space R.Records O.Order (cleared_in O.cmp key.now) tree.old tree.new space.old space.new) }
    ensures counted { IfOk result (λ n. IfSome n (CountsTo R.S.Space R.Records O.Order (cleared_in O.cmp key.now) total tree.old space.old)) }
    ensures full { OnFull result (FillsAlong R.S.Space R.Records O.Order (cleared_in O.cmp key.now) tree.old space.old space.new) }
    ensures keeps { Keeps R.S.Space space.old space.new }
    ensures stays { StaysLess R.Records tree.old tree.new }
    ensures cause { OnFault R.S.Space result space.old space.new }
{
    let less = key_bytes(tree, space, key)?;
    let _held = tree.remove(space, key, true)?;
    Ok(counted_less(total, less))
}

/// Takes all values of each key out that is held. After a refusal the space isn't sound.
pub(crate) fn clear_each<R: Records, O: Order>(
    tree: &mut Tree<R, O>,
    space: &mut R::S,
    keys: &[Blob],
    total: Option<u64>,
) -> Result<Option<u64>, RecErr>
    requires { IsOpen R.S.Space R.Records O.Order tree.old space.old }
    ensures cleared { OnOk result (Changes R.S.Space R.Records O.Order (each_cleared O.cmp keys.now) tree.old tree.new space.old space.new) }
    ensures counted { IfOk result (λ n. IfSome n (CountsTo R.S.Space R.Records O.Order (each_cleared O.cmp keys.now) total tree.old space.old)) }
    ensures refused { OnErr result (R.S.flag space.new ≡ false) }
    ensures full { OnFull result (FillsAlong R.S.Space R.Records O.Order (each_cleared O.cmp keys.now) tree.old space.old space.new) }
    ensures keeps { Keeps R.S.Space space.old space.new }
    ensures stays { StaysLess R.Records tree.old tree.new }
    ensures cause { OnFault R.S.Space result space.old space.new }
{
    let mut so_far = total;
    for key in keys {
        let counted = match clear_one(tree, space, key.as_slice(), so_far) {
            Ok(counted) => counted,
            Err(e) => return Err(given_up(space, e)),
        };
        so_far = counted;
    }
    Ok(so_far)
}
