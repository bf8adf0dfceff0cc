//! Replies as bytes.
ghost use Rattle.std.specs.Prelude.{◌≡◌, ◌++◌, ◌+◌, ◌<◌, ◌^◌, ℕ, List, OnOk, OnErr, length};
ghost use Rattle.std.specs.Int.{w32, to_be_bytes};
ghost use Rattle.ty_wire.specs.Form.{long_bytes, items_bytes};
ghost use Rattle.ty_wire.specs.Spelling.{size, pairs_bytes, reply_bytes, HasSpelling};
ghost use Rattle.ty_wire.specs.Prefixes.{IsPrefix};

use std::alloc::AllocError;
use tc_base::{Blob, Pair, Reply};

// Adds eight bytes.
fn spell_long(number: u64, into: &mut Blob) -> Result<(), AllocError>
    ensures ok { OnOk result (into.new ≡ into.old ++ long_bytes number) }
    ensures err { OnErr result (IsPrefix into.old into.new) }
{
    let upper = (number / 4_294_967_296) as u32;
    let lower = (number % 4_294_967_296) as u32;
    into.append(&upper.to_be_bytes())?;
    into.append(&lower.to_be_bytes())
}

// Adds a size.
fn spell_size(n: usize, into: &mut Blob) -> Result<(), AllocError>
    requires { n < 2 ^ 32 }
    ensures ok { OnOk result (into.new ≡ into.old ++ to_be_bytes w32 n) }
    ensures err { OnErr result (into.new ≡ into.old) }
{
    into.append(&(n as u32).to_be_bytes())
}

// Adds a text with its size in front.
fn spell_text(text: &[u8], into: &mut Blob) -> Result<(), AllocError>
    requires { length text.now < 2 ^ 32 }
    ensures ok { OnOk result (into.new ≡ into.old ++ (size text.now ++ text.now)) }
    ensures err { OnErr result (IsPrefix into.old into.new) }
{
    spell_size(text.len(), into)?;
    into.append(text)
}

// Adds texts, each with its size in front.
fn spell_items(items: &[Blob], into: &mut Blob) -> Result<(), AllocError>
    requires { length (items_bytes items.now) < 2 ^ 32 }
    ensures ok { OnOk result (into.new ≡ into.old ++ items_bytes items.now) }
    ensures err { OnErr result (IsPrefix into.old into.new) }
{
    for item in items {
        spell_text(item.as_slice(), into)?;
    }
    Ok(())
}

// Adds a key and a value with their sizes in front.
fn spell_pair(pair: &Pair, into: &mut Blob) -> Result<(), AllocError>
    requires key { length pair.now.key < 2 ^ 32 }
    requires value { length pair.now.value < 2 ^ 32 }
    ensures ok { OnOk result (into.new ≡ into.old ++ (size pair.now.key ++ (size pair.now.value ++ (pair.now.key ++ pair.now.value)))) }
    ensures err { OnErr result (IsPrefix into.old into.new) }
{
    let key = pair.key.as_slice();
    let value = pair.value.as_slice();
    spell_size(key.len(), into)?;
    spell_size(value.len(), into)?;
    into.append(key)?;
    into.append(value)
}

// Adds keys and values.
fn spell_pairs(pairs: &[Pair], into: &mut Blob) -> Result<(), AllocError>
    requires { length (pairs_bytes pairs.now) < 2 ^ 32 }
    ensures ok { OnOk result (into.new ≡ into.old ++ pairs_bytes pairs.now) }
    ensures err { OnErr result (IsPrefix into.old into.new) }
{
    for pair in pairs {
        spell_pair(pair, into)?;
    }
    Ok(())
}

// Adds the reply, or a front of it where memory ran out.
fn spell(reply: &Reply, into: &mut Blob) -> Result<(), AllocError>
    requires { HasSpelling reply.now }
    ensures ok { OnOk result (into.new ≡ into.old ++ reply_bytes reply.now) }
    ensures err { OnErr result (IsPrefix into.old into.new) }
{
    match reply {
        Reply::Fail => into.push(1),
        Reply::FailMisc => into.append(&[1, 0, 0, 0, 0]),
        Reply::Silent => Ok(()),
        Reply::Done => into.push(0),
        Reply::Value { value } => {
            into.push(0)?;
            spell_text(value.as_slice(), into)
        }
        Reply::Four { number } => {
            into.push(0)?;
            into.append(&number.to_be_bytes())
        }
        Reply::Eight { number } => {
            into.push(0)?;
            spell_long(*number, into)
        }
        Reply::List { items } => {
            into.push(0)?;
            spell_size(items.len(), into)?;
            spell_items(items.as_slice(), into)
        }
        Reply::Pairs { pairs } => {
            into.push(0)?;
            spell_size(pairs.len(), into)?;
            spell_pairs(pairs.as_slice(), into)
        }
    }
}

/// Adds the reply's bytes behind those that are there. An `Err` changes nothing.
pub fn write_reply(reply: &Reply, into: &mut Blob) -> Result<(), AllocError>
    requires { HasSpelling reply.now }
    ensures ok { OnOk result (into.new ≡ into.old ++ reply_bytes reply.now) }
    ensures err { OnErr result (into.new ≡ into.old) }
{
    let before = into.len();
    let done = spell(reply, into);
    if done.is_err() {
        into.truncate(before);
    }
    done
}
