//! Laws of every transcript.
ghost use Rattle.std.specs.Prelude.{◌≡◌, ◌≤◌, ℕ, true, false, List, [], length};
ghost use Rattle.tc_base.specs.Bytes.{IsBytes};
ghost use Rattle.tc_io.specs.declared.wire.At.{At};
ghost use Rattle.tc_io.specs.declared.wire.Entry.{Entry};
ghost use Rattle.tc_io.specs.Script.{AllAgree, Script, plays_all};
ghost use Rattle.tc_model.specs.Contents.{Contents, Walk};
ghost use Rattle.ty_memc.specs.declared.text.Piece.{Piece};
ghost use Rattle.ty_memc.specs.Grammar.{Spells};
ghost use Rattle.ty_ulog.specs.declared.record.Record.{Record};
ghost use Rattle.ty_ulog.specs.Log.{Follow};
ghost use Rattle.ty_world.specs.Answers.{AllSent, AllSpelled, AreInOrder, EachFed, EachWasFed, Introduced, NotesNothing};
ghost use Rattle.ty_world.specs.Before as before;
ghost use Rattle.ty_world.specs.Clients.{Client, has_whole, is_client};
ghost use Rattle.ty_world.specs.Fold.{AlwaysOf, Follows};
ghost use Rattle.ty_world.specs.Frames.{AreFrames, HasNone, frames};
ghost use Rattle.ty_world.specs.Logs.{Settings, is_replica, plain};
ghost use Rattle.ty_world.specs.Measure.{most_alone, most_linked};
ghost use Rattle.ty_world.specs.Playing.{AsksOver};
ghost use Rattle.ty_world.specs.Rounds.{LeavesIdle, MarksCommitted, round_of_all};
ghost use Rattle.ty_world.specs.Same.{LeavesNoTexts, RunsPlainly, SameWorld, mark_as};
ghost use Rattle.ty_world.specs.World.{AllAsked, AllCame, IsRested, Opening, World, begun, commits_in, ran, started, world_after};

/// The pieces placed are those that came, in order, and of the link whole records.
pub fn placed_pieces_came()
    ensures { (es : List Entry) (o : Opening) → AllCame (begun o) es → AllSpelled (ran o es) }
{}

/// Of any bytes there is a list of the whole pieces at their front, as the grammar has them, and `frames` is how many.
pub fn frames_are_counted()
    ensures found { (bytes : List ℕ) → IsBytes bytes → (xs : List Piece) × (rest : List ℕ) × AreFrames Spells bytes xs rest }
    ensures counted { (bytes rest : List ℕ) (xs : List Piece) → IsBytes bytes → AreFrames Spells bytes xs rest → length xs ≡ frames bytes }
{}

/// A script comes to its end in more turns than it has events and whole pieces, if no dial opens anything, or no master is given.
/// Each event of a script that came to its end was given or skipped, whatever dials are answered.
pub fn turns_suffice()
    ensures bound { (es : List Entry) (o : Opening) (s : Script) → s.dials ≡ [] → AsksOver s o es → (ran o es).shut ≡ false → (ran o es).events ≤ most_alone s }
    ensures alone { (es : List Entry) (o : Opening) (s : Script) → is_replica o.is ≡ false → AsksOver s o es → (ran o es).shut ≡ false → (ran o es).events ≤ most_alone s }
    ensures played { (es : List Entry) (o : Opening) (s : Script) → AsksOver s o es → (ran o es).shut ≡ true → (plays_all es s).acts ≡ [] }
{}

/// With any answers of dials each event of the script counts twice, and one turn goes to each event that finds a whole record on the link.
pub fn turns_suffice_a_replica()
    ensures { (es : List Entry) (o : Opening) (s : Script) → AsksOver s o es → (ran o es).shut ≡ false → (ran o es).events ≤ most_linked s (ran o es).looked }
{}

/// Where a script takes all that is offered, each connection but a 65th was sent all that it is owed: at the end, or as it was closed.
pub fn all_was_sent()
    ensures { (es : List Entry) (o : Opening) (s : Script) → AllAsked (begun o) es → AllAgree s es → IsRested (ran o es) → (ran o es).shut ≡ true → AllSent (ran o es) }
{}

/// Numbers of connections ascend; a round that neither updates nor takes a record leaves the contents; one with nothing to commit does neither; where no whole piece
/// is seen there is none.
pub fn rounds_are_right()
    ensures order { (es : List Entry) (o : Opening) → AllCame (begun o) es → AreInOrder (ran o es) }
    ensures idle { (is : Settings) (log : List Record) (c : Contents) (w : Walk) (ks : List Client) → LeavesIdle c (round_of_all is log c w ks) }
    ensures quiet { (is : Settings) (log : List Record) (c : Contents) (w : Walk) (ks : List Client) → MarksCommitted (round_of_all is log c w ks) }
    ensures none { (k : Client) → is_client k.role ≡ true → has_whole k ≡ false → HasNone Spells k.unread }
{}

/// A feed is owed what it was by then, and the bytes of each record above its timestamp. One that was closed is owed those of a front of the records.
pub fn feeds_are_owed_all()
    ensures there { (es : List Entry) (o : Opening) → EachFed (ran o es).records (ran o es).there }
    ensures past { (es : List Entry) (o : Opening) → EachWasFed (ran o es).records (ran o es).past }
{}

/// One link at most is there, none without a master. One whose master's id wasn't read has fewer than four bytes that weren't looked at, where it isn't to be closed.
pub fn links_are_introduced()
    ensures { (es : List Entry) (o : Opening) → AllAsked (begun o) es → Introduced (ran o es) }
{}

/// A replica whose link brings only records of one list, which follow on, holds a front of this list, and its contents are what that front makes of the first.
pub fn a_replica_follows()
    ensures { (m : List Record) (first : Contents) (es : List Entry) (w : World) → Follow 0 m → AllCame w es → AlwaysOf m w es → Follows m first w → Follows m first (world_after es w) }
{}

/// With no update log file 2 stays as it was, and the clock isn't asked.
pub fn nothing_is_noted()
    ensures { (es : List Entry) (w : World) → w.is.logs ≡ false → NotesNothing w (world_after es w) }
{}

/// With no update log, no link and no text that came, each field is what it was of requests alone. Where none is left either, all that is asked of the wire is what was asked.
/// A wire may give what it gave, and the same rounds have something to commit.
pub fn as_before()
    ensures begins { (ticks : List ℕ) (opens : List At) (m : before.Mark) → SameWorld (started plain ticks opens (mark_as m)) (before.started opens m) }
    ensures same { (es : List Entry) (w : World) (v : before.World) → SameWorld w v → RunsPlainly w es → SameWorld (world_after es w) (before.world_after es v) }
    ensures asked { (es : List Entry) (w : World) (v : before.World) → SameWorld w v → RunsPlainly w es → LeavesNoTexts w es → before.AllAsked v es }
    ensures came { (es : List Entry) (w : World) (v : before.World) → SameWorld w v → RunsPlainly w es → before.AllCame v es → AllCame w es }
    ensures commits { (es : List Entry) (w : World) (v : before.World) → SameWorld w v → RunsPlainly w es → commits_in w es ≡ before.commits_in v es }
{}
