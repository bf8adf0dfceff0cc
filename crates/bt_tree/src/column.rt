//! The record `column` beside the pages of an index file.
ghost use Rattle.std.specs.Prelude.{◌≡◌, ◌≤◌, ◌+◌, IfOk, IfErr, IsErrOf, OnOk};
ghost use Rattle.tc_space.specs.Changes.{value_in};
ghost use Rattle.tc_space.specs.Frames.{Keeps};
ghost use Rattle.tc_space.specs.Refusals.{Blamed, Blames, OnFault};
ghost use Rattle.tc_space.specs.Stores.{AnswersIn, ReadyIn, WritesIn};
ghost use Rattle.bt_cache.specs.Effects.{OnFull, SameStore, rec_of};
ghost use Rattle.bt_check.specs.Looks.{Looks};
ghost use Rattle.bt_check.specs.Verdicts.{open_of};
ghost use Rattle.bt_rows.specs.Rules.{column as column_key};
ghost use Rattle.bt_tree.specs.Clearing.{FillsColumn, LacksColumn, with_column};
ghost use Rattle.bt_tree.specs.Opening.{IsColumn, NamesNone};

use tc_base::{Blob, Mode, Steps};
use tc_space::{OpenErr, PutErr, RecErr, Records};

/// The bytes of the record `column`, if a store has it. `Full` doesn't come.
pub(crate) fn read_column<R: Records>(
    store: &mut R,
    space: &mut R::S,
) -> Result<Option<Blob>, RecErr>
    requires { ReadyIn R.S.Space R.file_of R.holds store.old space.old }
    ensures value { AnswersIn R.S.Space R.file_of R.holds result (value_in column_key) store.old space.old }
    ensures looks { Looks R.S.Space R.Records store.old store.new space.old space.new }
    ensures asks { R.gets store.new ≤ R.gets store.old + 1 }
    ensures cause { Blames R.S.Space result space.old space.new }
{
    let mut steps: Steps<R> = Steps::new();
    store.get(space, b"column".as_slice(), &mut steps)
}

// The same cause. A store that is only read isn't full.
fn refusal(e: RecErr) -> OpenErr
    ensures { result ≡ open_of e }
{
    match e {
        RecErr::Full => OpenErr::Memory,
        RecErr::Fault => OpenErr::Fault,
        RecErr::Memory => OpenErr::Memory,
    }
}

/// The same in a store that is opened, where the record may stand in it.
pub(crate) fn find_column<R: Records>(
    store: &mut R,
    space: &mut R::S,
    index: bool,
) -> Result<Option<Blob>, OpenErr>
    requires { ReadyIn R.S.Space R.file_of R.holds store.old space.old }
    ensures value { IfOk result (IsColumn R.S.Space R.Records index store.old space.old) }
    ensures unnamed { IfErr result NamesNone }
    ensures looks { Looks R.S.Space R.Records store.old store.new space.old space.new }
    ensures asks { R.gets store.new ≤ R.gets store.old + 1 }
    ensures cause { Blamed R.S.Space (IsErrOf result OpenErr.Fault) space.old space.new }
{
    if !index {
        return Ok(None);
    }
    match read_column(store, space) {
        Ok(column) => Ok(column),
        Err(e) => Err(refusal(e)),
    }
}

// Why a put that keeps nothing was refused: that a key is held is no cause.
fn put_refusal(e: PutErr) -> RecErr
    ensures { result ≡ rec_of e }
{
    match e {
        PutErr::Exists => RecErr::Memory,
        PutErr::Full => RecErr::Full,
        PutErr::Fault => RecErr::Fault,
        PutErr::Memory => RecErr::Memory,
    }
}

/// Gives a store the record `column`, if it is to have one. After a refusal it may have been written.
pub(crate) fn put_column<R: Records>(
    store: &mut R,
    space: &mut R::S,
    column: &Option<Blob>,
) -> Result<(), RecErr>
    requires { ReadyIn R.S.Space R.file_of R.holds store.old space.old }
    ensures put { OnOk result (WritesIn R.S.Space R.file_of R.holds (with_column column.now) store.old store.new space.old space.new) }
    ensures fills { OnOk result (FillsColumn R.S.Space R.Records column.now store.old store.new space.old) }
    ensures full { OnFull result (LacksColumn R.S.Space R.Records column.now store.old space.old space.new) }
    ensures keeps { Keeps R.S.Space space.old space.new }
    ensures same { SameStore R.Records store.old store.new }
    ensures cause { OnFault R.S.Space result space.old space.new }
{
    match column {
        None => Ok(()),
        Some(bytes) => {
            let mut steps: Steps<R> = Steps::new();
            match store.put(
                space,
                b"column".as_slice(),
                bytes.as_slice(),
                Mode::Over,
                &mut steps,
            ) {
                Ok(()) => Ok(()),
                Err(e) => Err(put_refusal(e)),
            }
        }
    }
}
