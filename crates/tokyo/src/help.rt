//! What the program says of itself, where its words ask for nothing else.

// The version; nothing else says it.
const VERSION: &[u8] = b"tokyo 0.1\n";

const PROGRAM: &[u8] =
    b"tokyo serves a database in the binary protocol of Tokyo Tyrant, and carries out
commands on databases in files.

tokyo serve [-host h] [-port p] [-ulog] [-sid n] [-mhost h -mport p] [-lim n]
            [-turns n] name            over sockets
tokyo pipe name                        over the standard streams
tokyo hash|tree|fixed|table --help     commands on files of a kind
tokyo drill seed n name                makes n requests, and prints what came of them
tokyo --help
tokyo --version

A name is
  '*'      a hash in memory: a value to each key (quoted for the shell)
  +        a tree in memory: one value or several to each key
  x.tch    a hash database in files: a value to each key
  x.tcb    a tree in files: one value or several to each key
  x.tcf    a fixed-length database in files: values by number
  x.tct    a table in files: a row of columns to each key, with indexes
Files that aren't there are made by serve, pipe and drill.

  -host    the address, 127.0.0.1 where it is left out; who reaches it may
           read and erase everything: there is no authentication
  -port    1 to 65535; 1978
  -ulog    of files: it keeps an update log beside them, x.tch.ulog, and feeds it
  -sid     0 to 65535; 0; its id in the log: give each server another
  -mhost   with -ulog and -mport: it follows the server there, and takes no changes
           from its clients
  -mport   1 to 65535
  -lim     the most bytes of a file, 256 to 1099511627776; the latter
  -turns   it ends behind so many turns, 1 to 18446744073709551615; the latter
  seed     determines the requests, 0 to 18446744073709551615
  n        so many requests, 0 to 1000000

A word that is not carried out yet: restore.

A status other than 0 writes its line to the standard error:
  0  it is done; of serve and pipe: the input ended, and all was answered
  1  tokyo: words           these words are in no command, or not carried out yet
  2  tokyo: refused         what a command asks for failed; or create or drill meets a
                            file that isn't empty, another command one that is
  3  tokyo: volume fault    a call of the system on a file failed
  4  tokyo: broken: ..      a file breaks a rule of its layout
  5  tokyo: no memory
  6  tokyo: full            a file would grow past its limit
  7  tokyo: wire fault      a stream failed, or it can't listen there
  8  tokyo: turns spent
";

const HASH: &[u8] = b"tokyo hash: commands on a hash database, whose name ends in .tch.

tokyo hash create [-tl] name [bnum [apow [fpow]]]    makes its file
tokyo hash inform name                               prints what it is
tokyo hash put [-dk|-dc] name key value              gives a key a value
tokyo hash out name key                              takes a key out
tokyo hash get name key                              prints a value, and a newline
tokyo hash list [-m n] [-pv] name                    prints the keys, a line each
tokyo hash optimize [-tl] name                       packs the file
tokyo hash restore [-ts n] name                      isn't carried out yet

  bnum     buckets, 1 to 16777216; 131071
  apow     the power of 2 that records are aligned to, 4 to 16; 4
  fpow     the power of 2 of the free block pool, 0 to 20; 10
  -tl      makes it large, or has it packed to a large one: its places have 8 bytes
  -dk      refused where the key is held
  -dc      joins the value behind that of the key
  -m       so many keys at most, 0 to 2147483647
  -pv      behind each key a tab and its value

Refused, with status 2: get and out of a key that isn't held; create where the file
isn't empty, and all others where it is or isn't there. The contents stay then.
";

const TREE: &[u8] = b"tokyo tree: commands on a tree in files, whose name ends in .tcb.

tokyo tree create [-cd] [-tl] name [lmemb [nmemb [bnum [apow [fpow]]]]]
                                                     makes its file
tokyo tree inform name                               prints what it is
tokyo tree put [-dk|-dc|-dd] name key value          gives a key its first value
tokyo tree out name key                              takes a key's first value out
tokyo tree get name key                              prints it, and a newline
tokyo tree list [-m n] [-pv] name                    prints the keys, a line each
tokyo tree optimize [-tl] name                       packs the file
tokyo tree restore [-ts n] name                      isn't carried out yet

  lmemb    keys of a leaf, 4 to 256; 128
  nmemb    entries of a node, 4 to 256; 256
  bnum     buckets, 1 to 16777216; 32749
  apow     the power of 2 that records are aligned to, 4 to 16; 8
  fpow     the power of 2 of the free block pool, 0 to 20; 10
  -cd      keys in the order of their numbers, and not of their bytes
  -tl      makes it large, or has it packed to a large one: its places have 8 bytes
  -dk      refused where the key is held
  -dc      joins the value behind the first of the key
  -dd      adds the value behind those of the key
  -m       so many keys at most, 0 to 2147483647
  -pv      behind each key a tab and its first value

Refused, with status 2: get and out of a key that isn't held; create where the file
isn't empty, and all others where it is or isn't there. The contents stay then.
";

const FIXED: &[u8] = b"tokyo fixed: commands on a fixed-length database, whose name ends in .tcf.

tokyo fixed create name [width [limsiz]]             makes its file
tokyo fixed inform name                              prints what it is
tokyo fixed put [-dk|-dc] name key value             gives an id a value
tokyo fixed out name key                             takes an id out
tokyo fixed get name key                             prints a value, and a newline
tokyo fixed list [-m n] [-pv] name                   prints the ids, a line each
tokyo fixed optimize name                            changes nothing
tokyo fixed restore [-ts n] name                     isn't carried out yet

  width    the most bytes of a value, 1 to 1048576; 255; longer ones are cut to it
  limsiz   the most bytes of the file, 512 to 1099511627776; 268435456
  -dk      refused where the id is held
  -dc      joins the value behind that of the id
  -m       so many ids at most, 0 to 2147483647
  -pv      behind each id a tab and its value
A key is a number, or min, max, prev or next.

Refused, with status 2: get and out of an id that isn't held; a key that is no id from
1 to the greatest that limsiz allows; create where the file isn't empty, and all
others where it is or isn't there. The contents stay then.
";

const TABLE: &[u8] = b"tokyo table: commands on a table, whose name ends in .tct.

tokyo table create [-tl] name [bnum [apow [fpow]]]   makes its main file
tokyo table inform name                              prints what it is
tokyo table put [-dk|-dc] name key [column value ..] gives a key a row
tokyo table out name key                             takes a key out
tokyo table get name key                             prints a row, with tabs in it
tokyo table list [-m n] [-pv] name                   prints the keys, a line each
tokyo table optimize [-tl] name                      packs the files
tokyo table restore [-ts n] name                     isn't carried out yet
tokyo table setindex [-it t] name column             gives a column an index
tokyo table search [-ord column n] [-m n] [-sk n] [-pv|-rm] name
                   [column operator expression ..]   prints the keys of the rows that
                                                     meet all conditions, a line each

  bnum     buckets, 1 to 16777216; 131071
  apow     the power of 2 that records are aligned to, 4 to 16; 4
  fpow     the power of 2 of the free block pool, 0 to 20; 10
  -tl      makes the main file large, or has it packed to a large one
  -dk      refused where the key is held
  -dc      adds the columns that the row lacks
  -it      lexical, decimal, token or void (takes it out); lexical
  -ord     in the order of a column: 0 its bytes ascending, 1 descending,
           2 its numbers ascending, 3 descending
  -m       so many rows at most, 0 to 2147483647
  -sk      leaves out so many before, 0 to 2147483647; 0
  -pv      behind each key a tab and its row
  -rm      takes the rows out, and prints nothing
An operator is 0 equal, 1 includes, 2 begins with, 3 ends with, 4 and 16 all tokens,
5 and 17 some token, 6 equals some token, 15 tokens in a row; of numbers 8 equal, 9
greater, 10 at least, 11 less, 12 at most, 13 between, 14 equals some.

Refused, with status 2: get and out of a key that isn't held; void without an index; a
17th index; an operator that isn't there; create where the main file isn't empty, and
all others where it is or isn't there. The contents stay then.
";

// What is said where the only word is this.
fn of_program(word: &str) -> Option<&'static [u8]> {
    if word == "--help" {
        Some(PROGRAM)
    } else if word == "--version" {
        Some(VERSION)
    } else {
        None
    }
}

// The help of a kind of database.
fn of_kind(kind: &str) -> Option<&'static [u8]> {
    if kind == "hash" {
        Some(HASH)
    } else if kind == "tree" {
        Some(TREE)
    } else if kind == "fixed" {
        Some(FIXED)
    } else if kind == "table" {
        Some(TABLE)
    } else {
        None
    }
}

/// The text that words ask for: `--help`, `--version`, or a kind and `--help`. None for all other words.
pub fn text_of(words: &[String]) -> Option<&'static [u8]> {
    if words.len() == 1 {
        of_program(words[0].as_str())
    } else if words.len() == 2 && words[1].as_str() == "--help" {
        of_kind(words[0].as_str())
    } else {
        None
    }
}
