//! Why the log isn't opened.
ghost use Rattle.std.specs.Prelude.{◌≡◌};
ghost use Rattle.ty_ulog.specs.Errors.{broken_at};

use crate::record::ULOG_FILE;
use tc_base::Rule;
use tc_space::OpenErr;

/// A rule of the log that doesn't hold.
pub fn broken(number: u8) -> OpenErr
    ensures { result ≡ broken_at number }
{
    OpenErr::Broken {
        file: ULOG_FILE,
        rule: Rule {
            letter: b'G',
            number,
        },
    }
}
