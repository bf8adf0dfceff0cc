//! Where a copy may be made.
ghost use Rattle.std.specs.Prelude.{◌≡◌, ◌&&◌};
ghost use Rattle.tc_base.specs.Labels.{is_label};
ghost use Rattle.tc_model.specs.Contents.{is_stored};

use tc_base::{Kind, is_label};

// Whether databases of a kind stand in files.
fn is_stored(kind: Kind) -> bool
    ensures { result ≡ is_stored kind }
{
    match kind {
        Kind::Hash | Kind::Tree | Kind::Fixed | Kind::Table => true,
        Kind::MemHash | Kind::MemTree => false,
    }
}

/// Whether a database of a kind may be copied under this label.
pub fn may_copy(kind: Kind, text: &[u8]) -> bool
    ensures { result ≡ (is_label text.now && is_stored kind) }
{
    is_label(text) && is_stored(kind)
}
