//! Lines on a table, and on searches of it.

use crate::kept::Kept;
use crate::plans::{kind_of, names_of, reads};
use crate::texts::add_text;
use play_text::{Line, Pattern, Player, Script, Why, Wrong};
use std::alloc::{AllocError, Global};
use tc_base::{Blob, Blobs, Form};
use tc_model::{Deed, Query};
use td_query::{FoundRows, read_query, token_of};
use td_row::{Row, RowErr};
use td_token::tokens;

/// What plays tables.
#[derive(Drop)]
pub struct Tables {
    alloc: Global,
}

impl Tables {
    pub fn new(alloc: Global) -> Tables {
        Tables { alloc }
    }
}

// A table, the arguments of the search that comes, and how many rows were got before the last line that isn't `gets`.
#[derive(Drop)]
struct Case {
    alloc: Global,
    kept: Kept,
    asked: Blobs,
    before: u64,
}

fn row_of(alloc: Global, text: &[u8]) -> Result<Row, Wrong> {
    match Row::from_text(alloc, text) {
        Ok(row) => Ok(row),
        Err(RowErr::Bad) => Err(Wrong::Unread),
        Err(RowErr::Memory) => Err(Wrong::Memory),
    }
}

// The text of a row, if there is one.
fn text_of(alloc: Global, row: Option<Row>) -> Result<Option<Blob>, AllocError> {
    let Some(row) = row else {
        return Ok(None);
    };
    let mut text = Blob::new(alloc);
    row.to_text(&mut text)?;
    Ok(Some(text))
}

// Texts with a mark between each two.
fn joined(alloc: Global, mark: u8, texts: &Blobs) -> Result<Blob, AllocError> {
    let mut all = Blob::new(alloc);
    for text in texts.as_slice() {
        add_text(&mut all, mark, text.as_slice())?;
    }
    Ok(all)
}

// The primary keys of rows, with a blank between each two.
fn keys_of(alloc: Global, found: &FoundRows) -> Result<Blob, AllocError> {
    let mut keys = Blob::new(alloc);
    for row in found.as_slice() {
        add_text(&mut keys, b' ', row.0.as_slice())?;
    }
    Ok(keys)
}

// The tokens of a text, with a bar between each two.
fn tokens_of(alloc: Global, text: &[u8]) -> Result<Blob, AllocError> {
    let mut all = Blob::new(alloc);
    let mut rest = text;
    while let Some((token, more)) = token_of(rest) {
        add_text(&mut all, b'|', token)?;
        rest = more;
    }
    Ok(all)
}

// A text is that of a line; there is one.
fn is_text(line: &mut Line, wanted: &Pattern, found: &Option<Blob>) -> Result<(), Wrong> {
    match found {
        Some(found) => line.told(wanted, found.as_slice()),
        None => Err(Wrong::Not(Why::NothingThere)),
    }
}

impl Case {
    fn new(alloc: Global) -> Case {
        Case {
            alloc,
            kept: Kept::new(alloc),
            asked: Blobs::new(alloc),
            before: 0,
        }
    }

    // What the arguments so far ask for.
    fn query(&self) -> Result<Query, Wrong> {
        match read_query(self.alloc, &self.asked)? {
            Some(q) => Ok(q),
            None => Err(Wrong::Not(Why::Refused)),
        }
    }

    fn put_row(&mut self, line: &mut Line) -> Result<(), Wrong> {
        let key = line.bytes_up_to(" : ")?;
        let text = line.bytes()?;
        let row = row_of(self.alloc, text.as_slice())?;
        self.kept.put(key.as_slice(), row)
    }

    // The text of the row of a primary key is that of a line.
    fn is_row(&mut self, line: &mut Line) -> Result<(), Wrong> {
        let key = line.bytes_up_to(" : ")?;
        let wanted = line.bytes()?;
        let found = text_of(self.alloc, self.kept.get(key.as_slice())?)?;
        is_text(line, &wanted, &found)
    }

    // A text is no row's.
    fn is_no_row(&self, line: &mut Line) -> Result<(), Wrong> {
        let text = line.bytes()?;
        match Row::from_text(self.alloc, text.as_slice()) {
            Ok(_) => line.is_so(false),
            Err(RowErr::Bad) => line.is_so(true),
            Err(RowErr::Memory) => Err(Wrong::Memory),
        }
    }

    // The bytes that are kept of it are those of a line.
    fn is_kept(&mut self, line: &mut Line) -> Result<(), Wrong> {
        let key = line.bytes_up_to(" : ")?;
        let wanted = line.bytes()?;
        let found = self.kept.bytes(key.as_slice())?;
        is_text(line, &wanted, &found)
    }

    fn out_row(&mut self, what: &str, line: &mut Line) -> Result<(), Wrong> {
        let key = line.bytes()?;
        let taken = self.kept.out(key.as_slice())?;
        line.is_so(taken == matches!(what, "out"))
    }

    fn add_index(&mut self, line: &mut Line) -> Result<(), Wrong> {
        let column = line.bytes_up_to(" : ")?;
        let code = line.bytes()?;
        let kind = kind_of(code.as_slice())?;
        self.kept.add_index(column.as_slice(), kind)
    }

    fn drop_index(&mut self, what: &str, line: &mut Line) -> Result<(), Wrong> {
        let column = line.bytes()?;
        let had = self.kept.drop_index(column.as_slice());
        line.is_so(had == matches!(what, "drop"))
    }

    // The primary keys of the rows that the plan of the search of the arguments so far names.
    fn named(&mut self) -> Result<Blob, Wrong> {
        let q = self.query()?;
        let names = names_of(self.alloc, self.kept.sides())?;
        let mut named = Blob::new(self.alloc);
        for key in self.kept.keys()?.as_slice() {
            let key = key.as_slice();
            if let Some(row) = self.kept.get(key)? {
                if reads(self.alloc, &names, &q, key, &row)? {
                    add_text(&mut named, b' ', key)?;
                }
            }
        }
        Ok(named)
    }

    fn ask(&mut self, line: &mut Line) -> Result<(), Wrong> {
        let argument = line.bytes()?;
        self.asked
            .push(Blob::from_slice(self.alloc, argument.as_slice())?)?;
        Ok(())
    }

    // The search is refused.
    fn is_refused(&mut self, line: &mut Line) -> Result<(), Wrong> {
        let refused = read_query(self.alloc, &self.asked)?.is_none();
        self.asked = Blobs::new(self.alloc);
        line.is_so(refused)
    }

    // Takes out what was found.
    fn drop_found(&mut self, found: &FoundRows) -> Result<(), Wrong> {
        for row in found.as_slice() {
            self.kept.out(row.0.as_slice())?;
        }
        Ok(())
    }

    // The primary keys of what a search finds. Where it takes them out, the rows go.
    fn found_keys(&mut self, q: &Query) -> Result<Blob, Wrong> {
        if q.deed == Deed::Keys {
            let keys = self.kept.search_keys(q)?;
            return Ok(joined(self.alloc, b' ', &keys)?);
        }
        let found = self.kept.search(q)?;
        if q.deed == Deed::Out {
            self.drop_found(&found)?;
        }
        Ok(keys_of(self.alloc, &found)?)
    }

    // What a search finds: its number where it counts, else the primary keys.
    fn finds(&mut self, line: &mut Line) -> Result<(), Wrong> {
        let q = self.query()?;
        self.asked = Blobs::new(self.alloc);
        if q.deed == Deed::Count {
            let number = self.kept.count_found(&q)?;
            return self.is_number(line, number);
        }
        line.is_bytes(self.found_keys(&q)?.as_slice())
    }

    // A number is that of a line.
    fn is_number(&self, line: &mut Line, found: u64) -> Result<(), Wrong> {
        line.is_text(format!(in self.alloc; "{found}")?)
    }

    // A line on the rows.
    fn row_line(&mut self, what: &str, line: &mut Line) -> Result<(), Wrong> {
        match what {
            "row" => self.put_row(line),
            "no_row" => self.is_no_row(line),
            "is" => self.is_row(line),
            "kept" => self.is_kept(line),
            "out" | "no_out" => self.out_row(what, line),
            "clear" => self.kept.clear(),
            "count" => self.is_number(line, self.kept.count()),
            "gets" => self.is_number(line, self.kept.gets().saturating_sub(self.before)),
            "pack" => self.kept.pack(Form::Keep),
            "enlarge" => self.kept.pack(Form::Large),
            _ => Err(Wrong::Unread),
        }
    }

    // A line on the indexes, or on a search.
    fn search_line(&mut self, what: &str, line: &mut Line) -> Result<(), Wrong> {
        match what {
            "index" => self.add_index(line),
            "drop" | "no_drop" => self.drop_index(what, line),
            "has" => line.is_bytes(self.kept.entries()?.as_slice()),
            "ask" => self.ask(line),
            "refused" => self.is_refused(line),
            "finds" => self.finds(line),
            "reads" => line.is_bytes(self.named()?.as_slice()),
            _ => self.row_line(what, line),
        }
    }

    fn play_line(&mut self, what: &str, line: &mut Line) -> Result<(), Wrong> {
        if !matches!(what, "gets") {
            self.before = self.kept.gets();
        }
        match what {
            "set" => {
                let text = line.given()?;
                let all = tokens(self.alloc, text.as_slice())?;
                line.is_bytes(joined(self.alloc, b'|', &all)?.as_slice())
            }
            "tokens" => {
                let text = line.given()?;
                line.is_bytes(tokens_of(self.alloc, text.as_slice())?.as_slice())
            }
            _ => self.search_line(what, line),
        }
    }
}

impl Player for Tables {
    fn play(&mut self, script: &mut Script<'_>) -> Result<(), Wrong> {
        let mut case = Case::new(self.alloc);
        for _ in 0..script.len() {
            if let Some((what, mut line)) = script.next_line()? {
                case.play_line(what, &mut line)?;
                script.end(line)?;
            }
        }
        Ok(())
    }
}
