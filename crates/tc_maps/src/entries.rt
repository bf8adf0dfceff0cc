//! A map from keys to their values, and the change of one key in it.
ghost use Rattle.std.specs.Prelude.{◌≡◌, ◌++◌, length, option_map, unwrap_or, is_some, [], None, IfOk, OnOk, OnErr, true, false};
ghost use Rattle.std.specs.BTreeMap.{IsOrdered};
ghost use Rattle.tc_base.specs.Orders.{lexical};
ghost use Rattle.tc_base.specs.Lists.{first, with_first, with_last, without_first};
ghost use Rattle.tc_maps.specs.Entries.{seen};

use crate::values::Values;
use std::alloc::{AllocError, Global};
use std::collections::BTreeMap;
use std::collections::btree_map::Entry;
use tc_base::{Blob, Key};

/// Gives a key a first value, and hands back the length of the one that it replaced. An `Err` changes nothing.
pub fn put_front(
    entries: &mut BTreeMap<Key, Values>,
    key: Key,
    value: Blob,
) -> Result<Option<usize>, AllocError>
    ensures ok { OnOk result (seen entries.new ≡ with_first lexical (seen entries.old) key value) }
    ensures replaced { IfOk result (λ o. o ≡ option_map length (first (seen entries.old) key)) }
    ensures err { OnErr result (seen entries.new ≡ seen entries.old) }
    ensures sorted { IsOrdered lexical entries.new }
{
    match entries.entry(key)? {
        Entry::Occupied(entry) => {
            let values = entry.into_mut();
            let replaced = values.first().len();
            values.set_first(value);
            Ok(Some(replaced))
        }
        Entry::Vacant(entry) => {
            entry.insert(Values::one(value));
            Ok(None)
        }
    }
}

/// Adds a value behind those of a key. An `Err` changes nothing.
pub fn put_back(
    alloc: Global,
    entries: &mut BTreeMap<Key, Values>,
    key: Key,
    value: Blob,
) -> Result<(), AllocError>
    ensures ok { OnOk result (seen entries.new ≡ with_last lexical (seen entries.old) key value) }
    ensures err { OnErr result (seen entries.new ≡ seen entries.old) }
    ensures sorted { IsOrdered lexical entries.new }
{
    match entries.entry(key)? {
        Entry::Occupied(entry) => entry.into_mut().push(alloc, value),
        Entry::Vacant(entry) => {
            entry.insert(Values::one(value));
            Ok(())
        }
    }
}

/// Joins bytes behind the first value of a key, and says whether the key is held. An `Err` changes nothing.
pub fn join_front(
    entries: &mut BTreeMap<Key, Values>,
    key: &Key,
    more: &[u8],
) -> Result<bool, AllocError>
    ensures held { IfOk result (λ b. b ≡ true → seen entries.new ≡ with_first lexical (seen entries.old) key.now (unwrap_or (first (seen entries.old) key.now) [] ++ more.now)) }
    ensures found { IfOk result (λ b. b ≡ is_some (first (seen entries.old) key.now)) }
    ensures absent { IfOk result (λ b. b ≡ false → seen entries.new ≡ seen entries.old) }
    ensures err { OnErr result (seen entries.new ≡ seen entries.old) }
    ensures sorted { IsOrdered lexical entries.new }
{
    let Some(values) = entries.get_mut(key) else {
        return Ok(false);
    };
    let Ok(()) = values.append_first(more) else {
        return Err(AllocError);
    };
    Ok(true)
}

/// Takes the first value of a key out, and hands back its length.
pub fn take_front(entries: &mut BTreeMap<Key, Values>, key: &Key) -> Option<usize>
    ensures out { seen entries.new ≡ without_first lexical (seen entries.old) key.now }
    ensures sorted { IsOrdered lexical entries.new }
    ensures none { result ≡ None → seen entries.new ≡ seen entries.old }
    ensures taken { result ≡ option_map length (first (seen entries.old) key.now) }
{
    let values = entries.get_mut(key)?;
    if let Some(first) = values.pop() {
        return Some(first.len());
    }
    let values = entries.remove(key)?;
    Some(values.first().len())
}
