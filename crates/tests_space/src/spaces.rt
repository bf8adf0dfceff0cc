//! A client of any space: a dozen writes over two files and one commit, proved from the clauses of `Space` alone.
ghost use Rattle.std.specs.Prelude.{◌≡◌, ◌≢◌, ℕ, ◌⊎◌, [], OnOk, IsErrOf, IsTrue, Option, Some};
ghost use Rattle.tc_base.specs.Files.{Files};
ghost use Rattle.tc_space.specs.Effects.{Outcome};
ghost use Rattle.tc_space.specs.Frames.{Follows};
ghost use Rattle.tc_space.specs.Moments.{LeavesOnly, Steady};
ghost use Rattle.tc_space.specs.Refusals.{Blamed};
ghost use Rattle.tests_space.specs.Client.{Holds, OthersStay, IsWritten, main_first, side_first, main_second, side_second, main_last, side_last};

use tc_space::{Space, SpaceErr};

// Both files begun.
#[tactic(auto, using(tc_space::specs::Moments::steady_then, tc_space::specs::Moments::steady_refl, tc_space::specs::Frames::follows_then, tc_space::specs::Frames::follows_refl))]
fn begin<S: Space>(space: &mut S) -> Result<(), SpaceErr>
    requires sound { S.sound space.old }
    requires holds { Holds S.tells S.now [] [] space.old }
    ensures wrote { OnOk result (Holds S.tells S.now main_first side_first space.new) }
    ensures others { OnOk result (S.tells → OthersStay (S.now space.old) (S.now space.new)) }
    ensures steady { S.tells → Steady S.moment S.files_at S.left S.kept space.old space.new }
    ensures outcome { Outcome S.sound S.flag result space.new }
    ensures follows { Follows S.Space space.old space.new }
    ensures cause { (Blamed S.Space (IsErrOf result SpaceErr.Fault) space.old space.new) × (IsErrOf result SpaceErr.Memory → ⊥) }
{
    space.write(0, 0, b"one two")?;
    space.write(2, 0, b"aaaa")?;
    space.write(0, 7, b" three")?;
    space.write(2, 2, b"bbbb")?;
    Ok(())
}

// Bytes within the files written over, and more behind them.
#[tactic(auto, using(tc_space::specs::Moments::steady_then, tc_space::specs::Moments::steady_refl, tc_space::specs::Frames::follows_then, tc_space::specs::Frames::follows_refl))]
fn go_on<S: Space>(space: &mut S) -> Result<(), SpaceErr>
    requires sound { S.sound space.old }
    requires holds { Holds S.tells S.now main_first side_first space.old }
    ensures wrote { OnOk result (Holds S.tells S.now main_second side_second space.new) }
    ensures others { OnOk result (S.tells → OthersStay (S.now space.old) (S.now space.new)) }
    ensures steady { S.tells → Steady S.moment S.files_at S.left S.kept space.old space.new }
    ensures outcome { Outcome S.sound S.flag result space.new }
    ensures follows { Follows S.Space space.old space.new }
    ensures cause { (Blamed S.Space (IsErrOf result SpaceErr.Fault) space.old space.new) × (IsErrOf result SpaceErr.Memory → ⊥) }
{
    space.write(0, 4, b"TWO")?;
    space.write(2, 6, b"cc")?;
    space.write(0, 0, b"ONE")?;
    space.write(2, 3, b"dddddddd")?;
    Ok(())
}

// The rest.
#[tactic(auto, using(tc_space::specs::Moments::steady_then, tc_space::specs::Moments::steady_refl, tc_space::specs::Frames::follows_then, tc_space::specs::Frames::follows_refl))]
fn end<S: Space>(space: &mut S) -> Result<(), SpaceErr>
    requires sound { S.sound space.old }
    requires holds { Holds S.tells S.now main_second side_second space.old }
    ensures wrote { OnOk result (Holds S.tells S.now main_last side_last space.new) }
    ensures others { OnOk result (S.tells → OthersStay (S.now space.old) (S.now space.new)) }
    ensures steady { S.tells → Steady S.moment S.files_at S.left S.kept space.old space.new }
    ensures outcome { Outcome S.sound S.flag result space.new }
    ensures follows { Follows S.Space space.old space.new }
    ensures cause { (Blamed S.Space (IsErrOf result SpaceErr.Fault) space.old space.new) × (IsErrOf result SpaceErr.Memory → ⊥) }
{
    space.write(0, 8, b"THREE, four")?;
    space.write(2, 11, b"e")?;
    space.write(0, 19, b"!")?;
    space.write(2, 9, b"CC")?;
    Ok(())
}

// All that is written: before a commit a stop leaves what was kept.
#[tactic(auto, using(tc_space::specs::Moments::steady_then, tc_space::specs::Moments::steady_refl, tc_space::specs::Frames::follows_then, tc_space::specs::Frames::follows_refl))]
fn write_all<S: Space>(space: &mut S) -> Result<(), SpaceErr>
    requires sound { S.sound space.old }
    requires holds { Holds S.tells S.now [] [] space.old }
    ensures wrote { OnOk result (Holds S.tells S.now main_last side_last space.new) }
    ensures others { OnOk result (S.tells → OthersStay (S.now space.old) (S.now space.new)) }
    ensures steady { S.tells → Steady S.moment S.files_at S.left S.kept space.old space.new }
    ensures outcome { Outcome S.sound S.flag result space.new }
    ensures follows { Follows S.Space space.old space.new }
    ensures cause { (Blamed S.Space (IsErrOf result SpaceErr.Fault) space.old space.new) × (IsErrOf result SpaceErr.Memory → ⊥) }
{
    begin(space)?;
    go_on(space)?;
    end(space)?;
    Ok(())
}

/// Writes both files and commits. A stop leaves what was kept or all that is written, and the latter alone once it answers `Ok`.
/// A refusal leaves what was kept, or in the commit either, and spoils the space.
#[tactic(auto, using(tc_space::specs::Moments::steady_then, tc_space::specs::Moments::steady_refl, tc_space::specs::Frames::follows_then, tc_space::specs::Frames::follows_refl))]
pub fn store<S: Space>(space: &mut S) -> Result<(), SpaceErr>
    requires sound { S.sound space.old }
    requires holds { Holds S.tells S.now [] [] space.old }
    ensures wrote { OnOk result (Holds S.tells S.now main_last side_last space.new) }
    ensures others { OnOk result (S.tells → OthersStay (S.now space.old) (S.now space.new)) }
    ensures kept { OnOk result (S.tells → S.kept space.new ≡ Some (S.now space.new)) }
    ensures stops { S.tells → LeavesOnly S.moment S.left space.old space.new (λ o. (o ≡ S.kept space.old) ⊎ IsWritten (S.now space.old) o) }
    ensures after { OnOk result (S.tells → (o : Option Files) → S.left space.new (S.moment space.new) o → o ≡ Some (S.now space.new)) }
    ensures outcome { Outcome S.sound S.flag result space.new }
    ensures follows { Follows S.Space space.old space.new }
    ensures cause { (Blamed S.Space (IsErrOf result SpaceErr.Fault) space.old space.new) × (IsErrOf result SpaceErr.Memory → ⊥) }
{
    write_all(space)?;
    space.commit()?;
    Ok(())
}

/// Whether both files are empty.
pub fn is_empty<S: Space>(space: &S) -> bool
    requires { S.sound space.now }
    ensures { IsTrue result → Holds S.tells S.now [] [] space.now }
{
    space.len(0) == 0 && space.len(2) == 0
}
