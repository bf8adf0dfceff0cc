//! Laws of what a piece makes of the database.
ghost use Rattle.std.specs.Prelude.{◌≡◌, ◌≤◌, Bool, true, false, [], length};
ghost use Rattle.tc_model.specs.Contents.{Contents, Walk};
ghost use Rattle.ty_memc.specs.declared.text.Piece.{Piece};
ghost use Rattle.ty_pieces.specs.Pieces.{done};

/// A piece that updates nothing leaves the contents, and one with nothing to commit updates nothing.
pub fn one_does_what_it_says()
    ensures idle { (replica : Bool) (x : Piece) (c : Contents) (w : Walk) → (done replica x c w).made.updates ≡ [] → (done replica x c w).made.contents ≡ c }
    ensures quiet { (replica : Bool) (x : Piece) (c : Contents) (w : Walk) → (done replica x c w).made.commits ≡ false → (done replica x c w).made.updates ≡ [] }
{}

/// On a replica none updates.
pub fn none_updates_a_replica()
    ensures { (x : Piece) (c : Contents) (w : Walk) → (done true x c w).made.updates ≡ [] }
{}

/// A reply has at most 67,108,864 bytes.
pub fn replies_are_short()
    ensures { (replica : Bool) (x : Piece) (c : Contents) (w : Walk) → length (done replica x c w).reply ≤ 67108864 }
{}
