//! Places that move as bytes in front of them come and go.
ghost use Rattle.std.specs.Prelude.{◌≡◌, ◌+◌, ◌-◌, ◌<◌, ◌≤◌, ◌++◌, ◌∷◌, length, map, take, drop, IfOk};
ghost use Rattle.std.specs.List.{All};
ghost use Rattle.bt_slots.specs.Changes.{shifted, MayShift};

use std::alloc::{AllocError, Global};

/// All places, where what ended at `from` ends at `to`.
fn shift(starts: &mut [usize], from: usize, to: usize)
    requires { All (MayShift from to) starts.old }
    ensures { starts.new ≡ map (shifted from to) starts.old }
{
    for start in starts {
        *start = *start - from + to;
    }
}

/// Those from an index on, where what ended at `from` ends at `to`.
pub(crate) fn shift_behind(starts: &mut Vec<usize>, index: usize, from: usize, to: usize)
    requires inside { index ≤ length starts.old.items }
    requires may { All (MayShift from to) (drop index starts.old.items) }
    ensures { starts.new.items ≡ take index starts.old.items ++ map (shifted from to) (drop index starts.old.items) }
{
    shift(&mut starts[index..], from, to);
}

/// A place more, `from`, at an index; what began there ends at `to`.
pub(crate) fn inserted(
    mut starts: Vec<usize>,
    index: usize,
    from: usize,
    to: usize,
) -> Result<Vec<usize>, AllocError>
    requires inside { index ≤ length starts.items }
    requires may { All (MayShift from to) (drop index starts.items) }
    ensures { IfOk result (λ v. v.items ≡ take index starts.items ++ from ∷ map (shifted from to) (drop index starts.items)) }
{
    starts.insert(index, from)?;
    shift_behind(&mut starts, index + 1, from, to);
    Ok(starts)
}

/// A place less; what ended at `from` and began at `to` is gone.
pub(crate) fn removed(mut starts: Vec<usize>, index: usize, from: usize, to: usize) -> Vec<usize>
    requires inside { index < length starts.items }
    requires may { All (MayShift from to) (drop (index + 1) starts.items) }
    ensures { result.items ≡ take index starts.items ++ map (shifted from to) (drop (index + 1) starts.items) }
{
    starts.remove(index);
    shift_behind(&mut starts, index, from, to);
    starts
}

/// Copies of those from one index to another; what began at `from` begins at `to`.
pub(crate) fn copied(
    alloc: Global,
    starts: &[usize],
    index: usize,
    end: usize,
    from: usize,
    to: usize,
) -> Result<Vec<usize>, AllocError>
    requires order { index ≤ end }
    requires inside { end ≤ length starts.now }
    requires may { All (MayShift from to) (take (end - index) (drop index starts.now)) }
    ensures { IfOk result (λ v. v.items ≡ map (shifted from to) (take (end - index) (drop index starts.now))) }
{
    let mut copies = Vec::from_slice(alloc, &starts[index..end])?;
    shift(&mut copies, from, to);
    Ok(copies)
}
