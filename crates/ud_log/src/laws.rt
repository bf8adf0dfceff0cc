//! A law on the definitions, as a function whose contract it is.
ghost use Rattle.ud_log.specs.Grammar.{GrammarIsExact};

/// The grammar of a log in both directions: bytes that spell 18 lengths, entries and a rest with no whole entry in front are read
/// as these, and bytes that are read as these spell them.
pub fn grammar_is_exact()
    ensures { GrammarIsExact }
{}
