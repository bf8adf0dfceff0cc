//! Laws of the grammar.
ghost use Rattle.std.specs.Prelude.{◌≡◌, ℕ, List, Option, Ok};
ghost use Rattle.ty_memc.specs.declared.text.Text.{Text};
ghost use Rattle.ty_memc.specs.Answers.{then_by};
ghost use Rattle.ty_memc.specs.Fitting.{TextFits, ThenFits};
ghost use Rattle.ty_memc.specs.Reading.{text_at};
ghost use Rattle.ty_memc.specs.Grammar.{IsGrammar, Spells, piece_at};

/// What stands at the front of a connection's bytes is read exactly where it is spelled, whatever comes behind.
pub fn pieces_are_read()
    ensures { IsGrammar Spells piece_at }
{}

/// The keys and the value of a command that was read are within their limits.
pub fn commands_fit()
    ensures { (bytes : List ℕ) (t : Text) (rest : List ℕ) → text_at bytes ≡ Ok (t, rest) → TextFits t }
{}

/// A command that was read asks for an updating request within the limits of requests, or for none.
pub fn asked_requests_fit()
    ensures { (bytes : List ℕ) (t : Text) (rest : List ℕ) (look : List ℕ → Option (List ℕ)) → text_at bytes ≡ Ok (t, rest) → ThenFits (then_by look t) }
{}
