//! What a stop may leave.

use tc_fakes::Choice;

/// All is left. It takes a copy of a volume that nothing was written to.
pub const WHOLE: Choice = Choice {
    keep: u64::MAX,
    fill: 0,
    cut: true,
};

/// What may be left of the last write or cut to a file that wasn't synced: each of four numbers of bytes kept, either filling, and cut or not. The first two are those of a second stop.
pub fn choices() -> [Choice; 16] {
    let mut all = [WHOLE; 16];
    for (number, choice) in all.iter_mut().enumerate() {
        choice.keep = match number / 4 {
            0 => 1,
            1 => 0,
            2 => 100,
            _ => u64::MAX,
        };
        choice.fill = if number % 4 < 2 { 0xFF } else { 0 };
        choice.cut = number % 2 == 0;
    }
    all
}
