//! Copies of requests whose texts lie where they were read.
ghost use Rattle.std.specs.Prelude.{◌≡◌, IfOk};
ghost use Rattle.ty_wire.specs.Parsed.{parsed, texts, IsWhole, AreWhole};
ghost use Rattle.ty_wire.specs.Parsed as requests;

use crate::items::{copy_items, keys_from};
use crate::parsed::{Bare, Items, Keyed, Parsed, Stores, Texted};
use std::alloc::{AllocError, Global};
use tc_base::{Blob, Blobs, Key, Keys, Request};

fn list(alloc: Global, items: Items<'_>) -> Result<Blobs, AllocError>
    requires { AreWhole items }
    ensures { IfOk result (λ b. b ≡ texts items.entry) }
{
    copy_items(alloc, items.most, items.count, items.left, items.bytes)
}

fn key_list(alloc: Global, items: Items<'_>) -> Result<Keys, AllocError>
    requires { AreWhole items }
    ensures { IfOk result (λ keys. keys ≡ texts items.entry) }
{
    keys_from(alloc, list(alloc, items)?)
}

fn storing(what: Stores, key: Key, value: Blob) -> Request
    ensures { result ≡ requests.storing what key value }
{
    match what {
        Stores::Put => Request::Put { key, value },
        Stores::PutKeep => Request::PutKeep { key, value },
        Stores::PutCat => Request::PutCat { key, value },
        Stores::PutShl(width) => Request::PutShl { key, value, width },
        Stores::PutNr => Request::PutNr { key, value },
    }
}

fn of_key(what: Keyed, key: Key) -> Request
    ensures { result ≡ requests.of_key what key }
{
    match what {
        Keyed::Out => Request::Out { key },
        Keyed::Get => Request::Get { key },
        Keyed::Vsiz => Request::Vsiz { key },
        Keyed::FwmKeys(maximum) => Request::FwmKeys {
            prefix: key,
            maximum,
        },
        Keyed::AddInt(number) => Request::AddInt { key, number },
        Keyed::AddDouble(integer, fraction) => Request::AddDouble {
            key,
            integer,
            fraction,
        },
    }
}

fn of_text(what: Texted, text: Blob) -> Request
    ensures { result ≡ requests.of_text what text }
{
    match what {
        Texted::Optimize => Request::Optimize { text },
        Texted::Copy => Request::Copy { path: text },
        Texted::Restore(timestamp, options) => Request::Restore {
            path: text,
            timestamp,
            options,
        },
        Texted::SetMst(port, timestamp, options) => Request::SetMst {
            host: text,
            port,
            timestamp,
            options,
        },
    }
}

fn of_numbers(what: Bare) -> Request
    ensures { result ≡ requests.of_numbers what }
{
    match what {
        Bare::IterInit => Request::IterInit,
        Bare::IterNext => Request::IterNext,
        Bare::Sync => Request::Sync,
        Bare::Vanish => Request::Vanish,
        Bare::Rnum => Request::Rnum,
        Bare::Size => Request::Size,
        Bare::Stat => Request::Stat,
        Bare::Repl(timestamp, server) => Request::Repl { timestamp, server },
    }
}

/// A copy of a request.
#[inline(always)]
pub fn copied(alloc: Global, p: Parsed<'_>) -> Result<Request, AllocError>
    requires { IsWhole p }
    ensures { IfOk result (λ r. r ≡ parsed p.entry) }
{
    match p {
        Parsed::Stores(what, key, value) => {
            let key = Key::from_slice(alloc, key)?;
            Ok(storing(what, key, Blob::from_slice(alloc, value)?))
        }
        Parsed::Keyed(what, key) => Ok(of_key(what, Key::from_slice(alloc, key)?)),
        Parsed::Texted(what, text) => Ok(of_text(what, Blob::from_slice(alloc, text)?)),
        Parsed::Bare(what) => Ok(of_numbers(what)),
        Parsed::MGet(keys) => Ok(Request::MGet {
            keys: key_list(alloc, keys)?,
        }),
        Parsed::Ext(name, options, key, value) => Ok(Request::Ext {
            name: Blob::from_slice(alloc, name)?,
            options,
            key: Key::from_slice(alloc, key)?,
            value: Blob::from_slice(alloc, value)?,
        }),
        Parsed::Misc(name, options, args) => Ok(Request::Misc {
            name: Blob::from_slice(alloc, name)?,
            options,
            args: list(alloc, args)?,
        }),
    }
}
