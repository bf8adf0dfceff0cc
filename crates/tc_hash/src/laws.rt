//! The law of a file's map.
ghost use Rattle.tc_hash.specs.Keeping.{HoldsOne};

use tc_space::Space;

/// A file holds one map: what is held with the bytes that it has is the same, whatever tells it.
pub fn files_hold_one_map<S: Space>()
    ensures { HoldsOne S.Space }
{}
