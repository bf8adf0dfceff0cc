//! Requests that only read.
ghost use Rattle.std.specs.Prelude.{◌≡◌, ◌<◌, ◌^◌, ◌++◌, true, length, flat_map, List, ℕ, OnOk, OnErr, IfOk};
ghost use Rattle.tc_base.specs.declared.request.Reply.TheVariants as answer;
ghost use Rattle.tc_space.specs.Frames.{Keeps};
ghost use Rattle.tc_space.specs.Refusals.{Blames};
ghost use Rattle.ty_base.specs.Holding.{IsReady, ReadsHeld};
ghost use Rattle.ty_wire.specs.Prefixes.{IsPrefix};
ghost use Rattle.ty_wire.specs.Spelling.{HasSpelling, reply_bytes};
ghost use Rattle.tc_model.specs.declared.misc.Misc.TheVariants as misc;
ghost use Rattle.tc_model.specs.Apply.{at_most};
ghost use Rattle.tc_model.specs.Meaning.{ranged};
ghost use Rattle.tc_model.specs.Stores.{all_pairs, first_pair};
ghost use Rattle.tc_engine.specs.Changes.{first_of};
ghost use Rattle.tc_engine.specs.Rows.{Extends, pair_rows, text_rows};
ghost use Rattle.ty_answers.specs.Answers.{OnlyMemory, TellsBy};
ghost use Rattle.ty_answers.specs.Calls.{meant};
ghost use Rattle.ty_answers.specs.Lists.{Says};
ghost use Rattle.ty_answers.specs.Requests.{counted_keys, got, got_all, got_keys, got_len, lines_told, sized};
ghost use Rattle.tc_engine.specs.Effects.{AddsOf};

use crate::failing::fail;
use crate::listing::{end_list, give_back, open_list, open_value};
use crate::voice::Voice;
use std::alloc::{AllocError, Global};
use tc_base::{Blob, Blobs, Key, Keys, REPLY_MOST, Reply};
use tc_engine::{Engine, Rows};
use tc_model::{maximum_of, stat_lines};
use tc_space::RecErr;
use ty_wire::write_reply;

/// Answers that a request was done, with no more to say.
pub fn done(reply: &mut Blob) -> Result<bool, RecErr>
    ensures ok { IfOk result (λ done. (done ≡ true) × (reply.new ≡ reply.old ++ reply_bytes answer.Done)) }
    ensures err { OnErr result (reply.new ≡ reply.old) }
    ensures prefix { IsPrefix reply.old reply.new }
    ensures cause { OnlyMemory result }
{
    reply.push(0)?;
    Ok(true)
}

/// Adds the bytes of a reply. An `Err` changes nothing.
pub fn say(reply: Reply, into: &mut Blob) -> Result<(), AllocError>
    requires { HasSpelling reply }
    ensures ok { OnOk result (into.new ≡ into.old ++ reply_bytes reply) }
    ensures err { OnErr result (into.new ≡ into.old) }
{
    let said = write_reply(&reply, into);
    drop(reply);
    said
}

// Answers a number of eight bytes.
fn eight(number: u64, reply: &mut Blob) -> Result<bool, RecErr>
    ensures ok { IfOk result (λ done. Says (answer.Eight number) done reply.old reply.new) }
    ensures err { OnErr result (reply.new ≡ reply.old) }
    ensures prefix { IsPrefix reply.old reply.new }
    ensures cause { OnlyMemory result }
{
    say(Reply::Eight { number }, reply)?;
    Ok(true)
}

// Answers a length that has room in four bytes.
fn four(length: u64, reply: &mut Blob) -> Result<bool, RecErr>
    requires { length < 2 ^ 32 }
    ensures ok { IfOk result (λ done. Says (answer.Four length) done reply.old reply.new) }
    ensures err { OnErr result (reply.new ≡ reply.old) }
    ensures prefix { IsPrefix reply.old reply.new }
    ensures cause { OnlyMemory result }
{
    let number = length as u32;
    say(Reply::Four { number }, reply)?;
    Ok(true)
}

// Adds a value with its size in front.
fn spell_value(value: &[u8], reply: &mut Blob) -> Result<(), RecErr>
    requires { length value.now < 2 ^ 32 }
    ensures ok { OnOk result (reply.new ≡ reply.old ++ reply_bytes (answer.Value value.now)) }
    ensures front { IsPrefix reply.old reply.new }
    ensures cause { OnlyMemory result }
{
    reply.push(0)?;
    reply.append(&(value.len() as u32).to_be_bytes())?;
    reply.append(value)?;
    Ok(())
}

/// Answers a value, or that the request failed where it would be too long.
pub fn say_value(value: &[u8], reply: &mut Blob) -> Result<bool, RecErr>
    ensures ok { IfOk result (λ done. Says (answer.Value value.now) done reply.old reply.new) }
    ensures front { IsPrefix reply.old reply.new }
    ensures cause { OnlyMemory result }
{
    if value.len() > REPLY_MOST - 5 {
        return fail(Voice::Plain, reply);
    }
    spell_value(value, reply)?;
    Ok(true)
}

/// Answers the value of a key.
pub fn get<E: Engine>(
    alloc: Global,
    engine: &mut E,
    space: &mut E::S,
    key: &Key,
    reply: &mut Blob,
) -> Result<bool, RecErr>
    requires { IsReady E.S.Space E.holds engine.old space.old }
    ensures answers { TellsBy E.S.Space E.own E.layout E.holds result (got key.now) answer.Fail engine.old engine.new space.old space.new reply.old reply.new }
    ensures reads { ReadsHeld E.S.Space E.holds engine.old engine.new space.old space.new }
    ensures front { IsPrefix reply.old reply.new }
    ensures keeps { Keeps E.S.Space space.old space.new }
    ensures cause { Blames E.S.Space result space.old space.new }
{
    let begin = reply.len();
    let mut rows = open_value(alloc, reply)?;
    let found = engine.item(space, key, &mut rows);
    give_back(found, rows, begin, Voice::Plain, reply)
}

/// Answers the length of the value of a key.
pub fn vsiz<E: Engine>(
    engine: &mut E,
    space: &mut E::S,
    key: &Key,
    reply: &mut Blob,
) -> Result<bool, RecErr>
    requires { IsReady E.S.Space E.holds engine.old space.old }
    ensures answers { TellsBy E.S.Space E.own E.layout E.holds result (got_len key.now) answer.Fail engine.old engine.new space.old space.new reply.old reply.new }
    ensures reads { ReadsHeld E.S.Space E.holds engine.old engine.new space.old space.new }
    ensures front { IsPrefix reply.old reply.new }
    ensures keeps { Keeps E.S.Space space.old space.new }
    ensures cause { Blames E.S.Space result space.old space.new }
{
    let Some(len) = engine.value_len(space, key)? else {
        return fail(Voice::Plain, reply);
    };
    if len >= 4_294_967_296 {
        return fail(Voice::Plain, reply);
    }
    four(len, reply)
}

// Adds a row for a key and its value, of a tree its first, where the key is held. Rows that are long already stay, and nothing is read.
fn fill_pair<E: Engine>(
    engine: &mut E,
    space: &mut E::S,
    key: &Key,
    into: &mut Rows,
) -> Result<(), RecErr>
    requires { IsReady E.S.Space E.holds engine.old space.old }
    ensures rows { AddsOf E.S.Space E.holds result (λ c. pair_rows (first_pair c key.now)) engine.old space.old into.old into.new }
    ensures front { Extends into.old into.new }
    ensures reads { ReadsHeld E.S.Space E.holds engine.old engine.new space.old space.new }
    ensures keeps { Keeps E.S.Space space.old space.new }
    ensures cause { Blames E.S.Space result space.old space.new }
{
    if into.is_long() {
        return Ok(());
    }
    engine.pair(space, key, into)
}

// Adds a row each for a key and its value, of a tree its first, where the key is held.
fn fill_pairs<E: Engine>(
    engine: &mut E,
    space: &mut E::S,
    keys: &[Key],
    into: &mut Rows,
) -> Result<(), RecErr>
    requires { IsReady E.S.Space E.holds engine.old space.old }
    ensures rows { AddsOf E.S.Space E.holds result (λ c. pair_rows (flat_map (first_pair c) keys.now)) engine.old space.old into.old into.new }
    ensures front { Extends into.old into.new }
    ensures reads { ReadsHeld E.S.Space E.holds engine.old engine.new space.old space.new }
    ensures keeps { Keeps E.S.Space space.old space.new }
    ensures cause { Blames E.S.Space result space.old space.new }
{
    for key in keys {
        fill_pair(engine, space, key, into)?;
    }
    Ok(())
}

/// Answers those of some keys that are held, with their values.
pub fn mget<E: Engine>(
    alloc: Global,
    engine: &mut E,
    space: &mut E::S,
    keys: &Keys,
    reply: &mut Blob,
) -> Result<bool, RecErr>
    requires { IsReady E.S.Space E.holds engine.old space.old }
    ensures answers { TellsBy E.S.Space E.own E.layout E.holds result (got_all keys.now) answer.Fail engine.old engine.new space.old space.new reply.old reply.new }
    ensures reads { ReadsHeld E.S.Space E.holds engine.old engine.new space.old space.new }
    ensures front { IsPrefix reply.old reply.new }
    ensures keeps { Keeps E.S.Space space.old space.new }
    ensures cause { Blames E.S.Space result space.old space.new }
{
    let begin = reply.len();
    let mut rows = open_list(alloc, reply)?;
    let filled = fill_pairs(engine, space, keys.as_slice(), &mut rows);
    end_list(
        alloc,
        filled.and(Ok(true)),
        rows,
        begin,
        Voice::Plain,
        reply,
    )
}

// A maximum, of which a negative one is no limit.
fn limit(maximum: i32) -> Option<u64>
    ensures { (xs : List (List ℕ)) → first_of result xs ≡ at_most maximum xs }
{
    if maximum < 0 {
        return None;
    }
    Some(maximum as u64)
}

/// Answers the keys that begin with a prefix, at most so many, all where the maximum is negative.
pub fn fwmkeys<E: Engine>(
    alloc: Global,
    engine: &mut E,
    space: &mut E::S,
    prefix: &Key,
    maximum: i32,
    reply: &mut Blob,
) -> Result<bool, RecErr>
    requires { IsReady E.S.Space E.holds engine.old space.old }
    ensures answers { TellsBy E.S.Space E.own E.layout E.holds result (got_keys prefix.now maximum) answer.Fail engine.old engine.new space.old space.new reply.old reply.new }
    ensures reads { ReadsHeld E.S.Space E.holds engine.old engine.new space.old space.new }
    ensures front { IsPrefix reply.old reply.new }
    ensures keeps { Keeps E.S.Space space.old space.new }
    ensures cause { Blames E.S.Space result space.old space.new }
{
    let begin = reply.len();
    let mut rows = open_list(alloc, reply)?;
    let filled = engine.keys_from(space, prefix, limit(maximum), &mut rows);
    end_list(
        alloc,
        filled.and(Ok(true)),
        rows,
        begin,
        Voice::Plain,
        reply,
    )
}

/// Answers the number of pairs of a tree, else of keys.
pub fn rnum<E: Engine>(engine: &E, _space: &E::S, reply: &mut Blob) -> Result<bool, RecErr>
    requires { IsReady E.S.Space E.holds engine.now _space.now }
    ensures answers { TellsBy E.S.Space E.own E.layout E.holds result counted_keys answer.Fail engine.now engine.now _space.now _space.now reply.old reply.new }
    ensures err { OnErr result (reply.new ≡ reply.old) }
    ensures front { IsPrefix reply.old reply.new }
    ensures cause { OnlyMemory result }
{
    eight(engine.count(), reply)
}

/// Answers the bytes of all keys and values.
pub fn size<E: Engine>(engine: &mut E, space: &mut E::S, reply: &mut Blob) -> Result<bool, RecErr>
    requires { IsReady E.S.Space E.holds engine.old space.old }
    ensures answers { TellsBy E.S.Space E.own E.layout E.holds result sized answer.Fail engine.old engine.new space.old space.new reply.old reply.new }
    ensures reads { ReadsHeld E.S.Space E.holds engine.old engine.new space.old space.new }
    ensures front { IsPrefix reply.old reply.new }
    ensures keeps { Keeps E.S.Space space.old space.new }
    ensures cause { Blames E.S.Space result space.old space.new }
{
    let number = engine.size(space)?;
    eight(number, reply)
}

/// Answers three lines on the database: its kind, the number of its records and their bytes.
pub fn stat<E: Engine>(
    alloc: Global,
    engine: &mut E,
    space: &mut E::S,
    reply: &mut Blob,
) -> Result<bool, RecErr>
    requires { IsReady E.S.Space E.holds engine.old space.old }
    ensures answers { TellsBy E.S.Space E.own E.layout E.holds result lines_told answer.Fail engine.old engine.new space.old space.new reply.old reply.new }
    ensures reads { ReadsHeld E.S.Space E.holds engine.old engine.new space.old space.new }
    ensures front { IsPrefix reply.old reply.new }
    ensures keeps { Keeps E.S.Space space.old space.new }
    ensures cause { Blames E.S.Space result space.old space.new }
{
    let (kind, count) = (engine.kind(), engine.count());
    let size = engine.size(space)?;
    let text = stat_lines(alloc, kind, count, size)?;
    say_value(text.as_slice(), reply)
}

/// Answers the value of a key as the one element of a list.
pub fn misc_get<E: Engine>(
    alloc: Global,
    engine: &mut E,
    space: &mut E::S,
    key: &Key,
    reply: &mut Blob,
) -> Result<bool, RecErr>
    requires { IsReady E.S.Space E.holds engine.old space.old }
    ensures answers { TellsBy E.S.Space E.own E.layout E.holds result (meant (misc.Get key.now)) answer.FailMisc engine.old engine.new space.old space.new reply.old reply.new }
    ensures reads { ReadsHeld E.S.Space E.holds engine.old engine.new space.old space.new }
    ensures front { IsPrefix reply.old reply.new }
    ensures keeps { Keeps E.S.Space space.old space.new }
    ensures cause { Blames E.S.Space result space.old space.new }
{
    let begin = reply.len();
    let mut rows = open_list(alloc, reply)?;
    let found = engine.item(space, key, &mut rows);
    end_list(alloc, found, rows, begin, Voice::Misc, reply)
}

/// Answers the names and values of the row of a key of a table as a list.
pub fn misc_row<E: Engine>(
    alloc: Global,
    engine: &mut E,
    space: &mut E::S,
    key: &Key,
    reply: &mut Blob,
) -> Result<bool, RecErr>
    requires { IsReady E.S.Space E.holds engine.old space.old }
    ensures answers { TellsBy E.S.Space E.own E.layout E.holds result (meant (misc.GetRow key.now)) answer.FailMisc engine.old engine.new space.old space.new reply.old reply.new }
    ensures reads { ReadsHeld E.S.Space E.holds engine.old engine.new space.old space.new }
    ensures front { IsPrefix reply.old reply.new }
    ensures keeps { Keeps E.S.Space space.old space.new }
    ensures cause { Blames E.S.Space result space.old space.new }
{
    let begin = reply.len();
    let mut rows = open_list(alloc, reply)?;
    let found = engine.row(space, key, &mut rows);
    end_list(alloc, found, rows, begin, Voice::Misc, reply)
}

// Adds a row each for a key and its value, again for each further value that a tree has of it. Rows that are long already stay, and nothing
// is read.
fn fill_each<E: Engine>(
    engine: &mut E,
    space: &mut E::S,
    key: &Key,
    into: &mut Rows,
) -> Result<(), RecErr>
    requires { IsReady E.S.Space E.holds engine.old space.old }
    ensures rows { AddsOf E.S.Space E.holds result (λ c. text_rows (all_pairs c key.now)) engine.old space.old into.old into.new }
    ensures front { Extends into.old into.new }
    ensures reads { ReadsHeld E.S.Space E.holds engine.old engine.new space.old space.new }
    ensures keeps { Keeps E.S.Space space.old space.new }
    ensures cause { Blames E.S.Space result space.old space.new }
{
    if into.is_long() {
        return Ok(());
    }
    engine.pairs(space, key, into)
}

// Adds a row each for a key and its value, again for each further value that a tree has of it.
fn fill_all<E: Engine>(
    engine: &mut E,
    space: &mut E::S,
    keys: Blobs,
    into: &mut Rows,
) -> Result<(), RecErr>
    requires { IsReady E.S.Space E.holds engine.old space.old }
    ensures rows { AddsOf E.S.Space E.holds result (λ c. text_rows (flat_map (all_pairs c) keys)) engine.old space.old into.old into.new }
    ensures front { Extends into.old into.new }
    ensures reads { ReadsHeld E.S.Space E.holds engine.old engine.new space.old space.new }
    ensures keeps { Keeps E.S.Space space.old space.new }
    ensures cause { Blames E.S.Space result space.old space.new }
{
    for key in keys.into_vec() {
        let key = Key::new(key);
        fill_each(engine, space, &key, into)?;
    }
    Ok(())
}

/// Answers keys and values of those of some keys that are held, of a tree with all values.
pub fn misc_getlist<E: Engine>(
    alloc: Global,
    engine: &mut E,
    space: &mut E::S,
    keys: Blobs,
    reply: &mut Blob,
) -> Result<bool, RecErr>
    requires { IsReady E.S.Space E.holds engine.old space.old }
    ensures answers { TellsBy E.S.Space E.own E.layout E.holds result (meant (misc.GetList keys)) answer.FailMisc engine.old engine.new space.old space.new reply.old reply.new }
    ensures reads { ReadsHeld E.S.Space E.holds engine.old engine.new space.old space.new }
    ensures front { IsPrefix reply.old reply.new }
    ensures keeps { Keeps E.S.Space space.old space.new }
    ensures cause { Blames E.S.Space result space.old space.new }
{
    let begin = reply.len();
    let mut rows = open_list(alloc, reply)?;
    let filled = fill_all(engine, space, keys, &mut rows);
    end_list(alloc, filled.and(Ok(true)), rows, begin, Voice::Misc, reply)
}

// Adds a row each for key and value of the pairs of a range.
fn fill_range<E: Engine>(
    engine: &mut E,
    space: &mut E::S,
    from: Blob,
    to: Option<Blob>,
    most: Option<u64>,
    into: &mut Rows,
) -> Result<(), RecErr>
    requires { IsReady E.S.Space E.holds engine.old space.old }
    ensures rows { AddsOf E.S.Space E.holds result (λ c. text_rows (ranged c from to most)) engine.old space.old into.old into.new }
    ensures front { Extends into.old into.new }
    ensures reads { ReadsHeld E.S.Space E.holds engine.old engine.new space.old space.new }
    ensures keeps { Keeps E.S.Space space.old space.new }
    ensures cause { Blames E.S.Space result space.old space.new }
{
    let from = Key::new(from);
    match to {
        Some(to) => {
            let to = Key::new(to);
            engine.range(space, &from, Some(&to), most, into)
        }
        None => engine.range(space, &from, None, most, into),
    }
}

/// Answers keys and values of the pairs of a tree from a key on, before another where one is given, at most as many as a text says.
pub fn misc_range<E: Engine>(
    alloc: Global,
    engine: &mut E,
    space: &mut E::S,
    from: Blob,
    maximum: &Blob,
    to: Option<Blob>,
    reply: &mut Blob,
) -> Result<bool, RecErr>
    requires { IsReady E.S.Space E.holds engine.old space.old }
    ensures answers { TellsBy E.S.Space E.own E.layout E.holds result (meant (misc.Range from maximum.now to)) answer.FailMisc engine.old engine.new space.old space.new reply.old reply.new }
    ensures reads { ReadsHeld E.S.Space E.holds engine.old engine.new space.old space.new }
    ensures front { IsPrefix reply.old reply.new }
    ensures keeps { Keeps E.S.Space space.old space.new }
    ensures cause { Blames E.S.Space result space.old space.new }
{
    let Some(most) = maximum_of(maximum.as_slice()) else {
        return fail(Voice::Misc, reply);
    };
    let begin = reply.len();
    let mut rows = open_list(alloc, reply)?;
    let filled = fill_range(engine, space, from, to, most, &mut rows);
    end_list(alloc, filled.and(Ok(true)), rows, begin, Voice::Misc, reply)
}
