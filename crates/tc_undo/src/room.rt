//! The state of the log in memory, and whether it has room.
ghost use Rattle.std.specs.Prelude.{◌≡◌, ◌+◌, ◌-◌, ◌^◌, ◌≤◌, ◌<◌, true, ℕ, max, IfSome, IfNone};
ghost use Rattle.ud_log.specs.Undo.{is_data, length_of, all_short};
ghost use Rattle.tc_undo.specs.Room.{needs, log_end, stop_of};

use tc_base::LOG_MOST;
use ud_log::place;

/// What is known of the log between calls: whether a transaction is open, the log's length, the lengths that it records, and
/// which data files changed in it.
#[derive(Clone, Copy)]
pub struct Log {
    pub active: bool,
    pub end: u64,
    pub recorded: [u64; 18],
    pub changed: [bool; 18],
}

/// Where the bytes of a range that need entries end, or None where the log has no room for them.
pub fn stop_at(log: &Log, lens: &[u64; 18], file: u32, at: u64, all: u64) -> Option<u64>
    requires is_data { is_data file ≡ true }
    requires small { all ≤ 2 ^ 40 }
    requires end { log.now.end ≤ 2 ^ 62 }
    ensures stop { IfSome result (λ stop. stop ≡ stop_of log.now.active log.now.recorded lens.now file all) }
    ensures room { IfSome result (λ stop. log_end log.now.active log.now.end + needs (stop - at) ≤ 2 ^ 62) }
    ensures none { IfNone result (2 ^ 62 < log_end log.now.active log.now.end + needs (stop_of log.now.active log.now.recorded lens.now file all - at)) }
{
    let i = place(file);
    let recorded = if log.active { log.recorded[i] } else { lens[i] };
    let end = if log.active { log.end } else { 152 };
    let stop = all.min(recorded).min(lens[i]);
    let size = stop.saturating_sub(at);
    let needs = size + 20 * ((size + 4095) / 4096);
    if end + needs > LOG_MOST {
        return None;
    }
    Some(stop)
}

/// The limit of each data file: the greater of a limit and its length.
pub fn limits_of(lens: &[u64; 18], limit: u64) -> [u64; 18]
    requires limit { limit ≤ 2 ^ 40 }
    requires short { all_short lens.now ≡ true }
    ensures limits { (f : ℕ) → is_data f ≡ true → length_of result f ≡ max limit (length_of lens.now f) }
    ensures short { all_short result ≡ true }
{
    let mut limits = [0u64; 18];
    for i in 0..18 {
        limits[i] = lens[i].max(limit);
    }
    limits
}
