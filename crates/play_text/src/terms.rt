//! Bytes as a case writes them: terms with blanks between them.
ghost use Rattle.std.specs.Prelude.{◌≤◌, IfOk};

use crate::names::Names;
use crate::numbers::number_of;
use crate::patterns::Pattern;
use crate::wrongs::Wrong;
use std::alloc::Global;

// What stands in a term: a text between quotes, or a word.
#[derive(Clone, Copy)]
enum Atom<'a> {
    Text(&'a str),
    Word(&'a str),
}

// What a term is made of, how often, and what stands behind it.
#[derive(Clone, Copy)]
struct Parted<'a> {
    atom: Atom<'a>,
    times: u64,
    rest: &'a str,
}

// The two parts of a text around its first blank; the second is empty where there is none.
pub fn at_blank(text: &str) -> (&str, &str) {
    text.split_once(' ').unwrap_or((text, ""))
}

// A term that begins with a quote, behind it.
fn quoted(text: &str) -> Result<Parted<'_>, Wrong> {
    let Some((inside, behind)) = text.split_once('\'') else {
        return Err(Wrong::Unread);
    };
    let (times, rest) = at_blank(behind);
    let times = match times.strip_prefix('*') {
        Some(times) => number_of(times),
        None if times.is_empty() => Some(1),
        None => None,
    };
    Ok(Parted {
        atom: Atom::Text(inside),
        times: times.ok_or(Wrong::Unread)?,
        rest,
    })
}

// A term of another sort.
fn worded(text: &str) -> Result<Parted<'_>, Wrong> {
    let (word, rest) = at_blank(text);
    let (word, times) = match word.split_once('*') {
        Some((word, times)) => (word, number_of(times)),
        None => (word, Some(1)),
    };
    Ok(Parted {
        atom: Atom::Word(word),
        times: times.ok_or(Wrong::Unread)?,
        rest,
    })
}

// A number, and in how many bytes it stands.
#[derive(Clone, Copy)]
struct Numeral {
    width: usize,
    number: u64,
}

// A number in 1 to 8 bytes, which have room for it.
fn numeral_of(width: &str, number: &str) -> Result<Numeral, Wrong>
    ensures { IfOk result (λ n. n.width ≤ 8) }
{
    let (Some(width), Some(number)) = (number_of(width), number_of(number)) else {
        return Err(Wrong::Unread);
    };
    if width < 1 || width > 8 || number > u64::MAX >> (64 - 8 * width) {
        return Err(Wrong::Unread);
    }
    Ok(Numeral {
        width: width as usize,
        number,
    })
}

// Adds a number in so many bytes, its least byte first.
fn add_least_first(width: &str, number: &str, into: &mut Pattern) -> Result<(), Wrong> {
    let numeral = numeral_of(width, number)?;
    let bytes = numeral.number.to_le_bytes();
    Ok(into.add(&bytes[..numeral.width])?)
}

// The same with its greatest byte first.
fn add_greatest_first(width: &str, number: &str, into: &mut Pattern) -> Result<(), Wrong> {
    let numeral = numeral_of(width, number)?;
    let bytes = numeral.number.to_be_bytes();
    Ok(into.add(&bytes[8 - numeral.width..])?)
}

// Adds bytes that stand there as digits of sixteen.
fn add_digits(alloc: Global, digits: &str, into: &mut Pattern) -> Result<(), Wrong> {
    match hex::decode(alloc, digits) {
        Ok(bytes) => Ok(into.add(&bytes)?),
        Err(_) => Err(Wrong::Unread),
    }
}

// Adds the bytes of a word.
fn add_word(alloc: Global, names: &Names, word: &str, into: &mut Pattern) -> Result<(), Wrong> {
    if word.starts_with('$') {
        let named = names.get(word).ok_or(Wrong::Unread)?;
        return Ok(into.append_times(named, 1)?);
    }
    if let Some((width, number)) = word.split_once('<') {
        return add_least_first(width, number, into);
    }
    if let Some((width, number)) = word.split_once('>') {
        return add_greatest_first(width, number, into);
    }
    match word {
        "" => Err(Wrong::Unread),
        "?" => Ok(into.add_free()?),
        _ => add_digits(alloc, word, into),
    }
}

// How many bytes a term has that stands so many times, in four bytes.
fn size_of(length: usize, times: usize) -> Result<[u8; 4], Wrong> {
    let size = u32::try_from(length.saturating_mul(times));
    Ok(size.ok().ok_or(Wrong::Unread)?.to_be_bytes())
}

// Adds the first term of a text, and answers what stands behind it.
fn add_term<'a>(
    alloc: Global,
    names: &Names,
    text: &'a str,
    into: &mut Pattern,
) -> Result<&'a str, Wrong> {
    let sized = text.strip_prefix('#');
    let text = sized.unwrap_or(text);
    let parted = match text.strip_prefix('\'') {
        Some(behind) => quoted(behind)?,
        None => worded(text)?,
    };
    let mut one = Pattern::new(alloc);
    match parted.atom {
        Atom::Text(text) => one.add(text.as_bytes())?,
        Atom::Word(word) => add_word(alloc, names, word, &mut one)?,
    }
    let times = usize::try_from(parted.times).ok().ok_or(Wrong::Unread)?;
    if sized.is_some() {
        into.add(&size_of(one.len(), times)?)?;
    }
    into.append_times(&one, times)?;
    Ok(parted.rest)
}

/// The bytes that terms are: digits of sixteen, `'text'`, `8<number` and `4>number` (in so many bytes, the least or the greatest first), `$name`,
/// `?` for any byte. Each may have `*times` behind it, and `#` in front of it, for its size in four bytes.
pub fn read_bytes(alloc: Global, names: &Names, text: &str) -> Result<Pattern, Wrong> {
    let mut all = Pattern::new(alloc);
    let mut rest = text.trim_start();
    for _ in 0..text.len() {
        if rest.is_empty() {
            break;
        }
        rest = add_term(alloc, names, rest, &mut all)?.trim_start();
    }
    Ok(all)
}
