//! Which misc requests have keys that are short enough.
ghost use Rattle.std.specs.Prelude.{◌≡◌, map};
ghost use Rattle.tc_model.specs.Meaning.{keys_of, are_short};

use crate::misc::Misc;
use tc_base::{Blob, KEY_MOST, Pair};

fn are_short(keys: &[Blob]) -> bool
    ensures { result ≡ are_short keys.now }
{
    for key in keys {
        if key.len() > KEY_MOST {
            return false;
        }
    }
    true
}

fn are_short_pairs(pairs: &[Pair]) -> bool
    ensures { result ≡ are_short (map (λ p. p.key) pairs.now) }
{
    for pair in pairs {
        if pair.key.len() > KEY_MOST {
            return false;
        }
    }
    true
}

/// Whether the argument keys are at most 1,048,576 bytes each.
pub fn has_short_keys(m: &Misc) -> bool
    ensures { result ≡ are_short (keys_of m.now) }
{
    match m {
        Misc::Put { key, .. } => key.len() <= KEY_MOST,
        Misc::PutRow { key, .. } => key.len() <= KEY_MOST,
        Misc::Out { key } => key.len() <= KEY_MOST,
        Misc::Get { key } => key.len() <= KEY_MOST,
        Misc::GetRow { key } => key.len() <= KEY_MOST,
        Misc::PutDup { key, .. } => key.len() <= KEY_MOST,
        Misc::PutList { pairs } => are_short_pairs(pairs.as_slice()),
        Misc::PutDups { pairs } => are_short_pairs(pairs.as_slice()),
        Misc::OutList { keys } => are_short(keys.as_slice()),
        Misc::GetList { keys } => are_short(keys.as_slice()),
        Misc::Range {
            from,
            to: Some(to),
            ..
        } => from.len() <= KEY_MOST && to.len() <= KEY_MOST,
        Misc::Range { from, to: None, .. } => from.len() <= KEY_MOST,
        Misc::Vanish => true,
        Misc::SetIndex { .. } => true,
        Misc::Search { .. } => true,
    }
}
