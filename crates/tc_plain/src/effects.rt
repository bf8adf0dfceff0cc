//! What a request makes of contents, and what it is answered.
ghost use Rattle.std.specs.Prelude.{◌≡◌, IfOk, filter, option_map, option_and_then, nat_eq, false};
ghost use Rattle.std.specs.List.{starts_with};
ghost use Rattle.tc_base.specs.declared.request.Reply.TheVariants as reply;
ghost use Rattle.tc_model.specs.Apply as model;
ghost use Rattle.tc_model.specs.Apply.{effect, called, copied, keys_from, at_most, length_reply, updates};
ghost use Rattle.tc_model.specs.Misc.{updates_call};
ghost use Rattle.tc_model.specs.Stores as stores;
ghost use Rattle.tc_model.specs.Meaning.{done};
ghost use Rattle.tc_plain.specs.Views.{contents_of, effect_seen, outcome_seen};
ghost use Rattle.tc_plain.specs.Bodies.{is_change};

use crate::contents::{Data, kind_of};
use crate::maps::Copied;
use crate::meaning::{Outcome, done};
use crate::reads::{all_keys, count, first_pairs, held, size_of};
use crate::stores::{add, emptied, out, shift, store};
use std::alloc::{AllocError, Global};
use tc_base::{Blob, Blobs, Key, Mode, Reply, Request};
use tc_model::{Misc, may_copy, read_misc, stat_lines};
use ty_wire::{is_updating, is_updating_call};

/// The contents after a request, and its reply.
#[derive(Drop)]
pub(crate) struct Effect {
    pub(crate) after: Data,
    pub(crate) answer: Reply,
}

fn changes(answer: Reply, after: Option<Data>) -> Option<Effect>
    ensures { option_map effect_seen result ≡ model.changes answer (option_map contents_of after) }
{
    match after {
        Some(after) => Some(Effect { after, answer }),
        None => None,
    }
}

// The length of a value; one that has no room in four bytes is none.
fn length_answer(alloc: Global, old: &Data, key: &[u8]) -> Result<Option<Reply>, AllocError>
    ensures { IfOk result (λ o. o ≡ option_and_then length_reply (stores.held (contents_of old.now) key.now)) }
{
    let Some(value) = held(alloc, old, key)? else {
        return Ok(None);
    };
    if value.len() >= 4_294_967_296 {
        return Ok(None);
    }
    Ok(Some(Reply::Four {
        number: value.len() as u32,
    }))
}

fn beginning(alloc: Global, keys: &[Key], prefix: &[u8]) -> Result<Blobs, AllocError>
    ensures { IfOk result (λ ks. ks ≡ filter (λ key. starts_with nat_eq key prefix.now) keys.now) }
{
    let mut found = Blobs::new(alloc);
    for key in keys {
        if key.as_slice().starts_with(prefix) {
            found.push(Blob::from_slice(alloc, key.as_slice())?)?;
        }
    }
    Ok(found)
}

// At most so many, all where the number is negative.
fn at_most(maximum: i32, keys: Blobs) -> Blobs
    ensures { result ≡ at_most maximum keys }
{
    if maximum < 0 {
        return keys;
    }
    let mut all = keys.into_vec();
    all.truncate(maximum as usize);
    Blobs::from_vec(all)
}

// The keys that begin with a prefix.
fn keys_answer(alloc: Global, old: &Data, prefix: &Key, maximum: i32) -> Result<Blobs, AllocError>
    ensures { IfOk result (λ ks. ks ≡ at_most maximum (keys_from (contents_of old.now) prefix.now)) }
{
    let keys = all_keys(alloc, old)?;
    let found = beginning(alloc, keys.as_slice(), prefix.as_slice())?;
    Ok(at_most(maximum, found))
}

fn sum_effect(
    alloc: Global,
    old: Data,
    key: &Key,
    number: u32,
) -> Result<Option<Effect>, AllocError>
    ensures { IfOk result (λ o. option_map effect_seen o ≡ option_map (λ sum. (sum.1, reply.Four sum.0)) (stores.add (contents_of old) key.now number)) }
{
    match add(alloc, old, key.as_slice(), number)? {
        Some((number, after)) => Ok(Some(Effect {
            after,
            answer: Reply::Four { number },
        })),
        None => Ok(None),
    }
}

// Whether a request changes contents where it succeeds.
pub(crate) fn updates(r: &Request) -> bool
    ensures { result ≡ updates r.now }
{
    is_updating(r)
}

fn updates_call(name: &Blob, args: &Blobs) -> bool
    ensures { result ≡ updates_call name.now args.now }
{
    is_updating_call(name.as_slice(), args.as_slice())
}

// What a misc request makes of contents, once it was made.
fn done_of(alloc: Global, m: Misc, old: Data) -> Result<Option<Outcome>, AllocError>
    ensures { IfOk result (λ o. option_map outcome_seen o ≡ done m (contents_of old)) }
{
    let outcome = done(alloc, &m, old);
    drop(m);
    outcome
}

// An odd number of options asks for the omission of the update log, and fails an updating request.
fn called(
    alloc: Global,
    old: Data,
    name: &Blob,
    options: u32,
    args: &Blobs,
) -> Result<Option<Effect>, AllocError>
    ensures { IfOk result (λ o. option_map effect_seen o ≡ called name.now options args.now (contents_of old)) }
{
    if options % 2 == 1 && updates_call(name, args) {
        drop(old);
        return Ok(None);
    }
    let args = args.copied(alloc)?;
    let Some(m) = read_misc(alloc, name.as_slice(), args, kind_of(&old))? else {
        drop(old);
        return Ok(None);
    };
    match done_of(alloc, m, old)? {
        Some(outcome) => Ok(Some(Effect {
            after: outcome.after,
            answer: Reply::List {
                items: outcome.items,
            },
        })),
        None => Ok(None),
    }
}

// What a copy under this text is answered.
fn copy_answer(old: &Data, text: &[u8]) -> Option<Reply>
    ensures { result ≡ copied text.now (contents_of old.now) }
{
    if may_copy(kind_of(old), text) {
        Some(Reply::Done)
    } else {
        None
    }
}

// What a request that reads is answered.
fn answer_of(alloc: Global, r: &Request, old: &Data) -> Result<Option<Reply>, AllocError>
    ensures { IfOk result (λ o. is_change r.now ≡ false → option_map (λ a. (contents_of old.now, a)) o ≡ effect r.now (contents_of old.now)) }
{
    match r {
        Request::Get { key } => match held(alloc, old, key.as_slice())? {
            Some(value) => Ok(Some(Reply::Value { value })),
            None => Ok(None),
        },
        Request::MGet { keys } => {
            let pairs = first_pairs(alloc, old, keys.as_slice())?;
            Ok(Some(Reply::Pairs { pairs }))
        }
        Request::Vsiz { key } => Ok(length_answer(alloc, old, key.as_slice())?),
        Request::FwmKeys { prefix, maximum } => {
            let items = keys_answer(alloc, old, prefix, *maximum)?;
            Ok(Some(Reply::List { items }))
        }
        Request::Sync => Ok(Some(Reply::Done)),
        Request::Optimize { .. } => Ok(Some(Reply::Done)),
        Request::Copy { path } => Ok(copy_answer(old, path.as_slice())),
        Request::Rnum => {
            let number = count(old);
            Ok(Some(Reply::Eight { number }))
        }
        Request::Size => {
            let number = size_of(alloc, old)?;
            Ok(Some(Reply::Eight { number }))
        }
        Request::Stat => {
            let size = size_of(alloc, old)?;
            let value = stat_lines(alloc, kind_of(old), count(old), size)?;
            Ok(Some(Reply::Value { value }))
        }
        _ => Ok(None),
    }
}

// The requests that read.
fn answer(alloc: Global, r: &Request, old: Data) -> Result<Option<Effect>, AllocError>
    ensures { IfOk result (λ o. is_change r.now ≡ false → option_map effect_seen o ≡ effect r.now (contents_of old)) }
{
    match answer_of(alloc, r, &old)? {
        Some(answer) => Ok(Some(Effect { after: old, answer })),
        None => {
            drop(old);
            Ok(None)
        }
    }
}

/// What a request makes of contents and is answered, none where it fails; those of the walk and repl have no effect here.
pub(crate) fn effect_of(alloc: Global, r: &Request, old: Data) -> Result<Option<Effect>, AllocError>
    ensures { IfOk result (λ o. option_map effect_seen o ≡ effect r.now (contents_of old)) }
{
    match r {
        Request::Put { key, value } => {
            let after = store(alloc, Mode::Over, old, key.as_slice(), value.as_slice())?;
            Ok(changes(Reply::Done, after))
        }
        Request::PutKeep { key, value } => {
            let after = store(alloc, Mode::Keep, old, key.as_slice(), value.as_slice())?;
            Ok(changes(Reply::Done, after))
        }
        Request::PutCat { key, value } => {
            let after = store(alloc, Mode::Cat, old, key.as_slice(), value.as_slice())?;
            Ok(changes(Reply::Done, after))
        }
        Request::PutShl { key, value, width } => {
            let after = shift(alloc, old, key.as_slice(), value.as_slice(), *width)?;
            Ok(changes(Reply::Done, after))
        }
        Request::PutNr { key, value } => {
            let after = store(alloc, Mode::Over, old, key.as_slice(), value.as_slice())?;
            Ok(changes(Reply::Silent, after))
        }
        Request::Out { key } => {
            let after = out(alloc, old, key.as_slice())?;
            Ok(changes(Reply::Done, after))
        }
        Request::AddInt { key, number } => sum_effect(alloc, old, key, *number),
        Request::Vanish => Ok(changes(Reply::Done, Some(emptied(alloc, old)))),
        Request::Misc {
            name,
            options,
            args,
        } => called(alloc, old, name, *options, args),
        _ => answer(alloc, r, old),
    }
}
