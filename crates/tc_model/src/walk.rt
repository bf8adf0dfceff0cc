//! The walk over the keys.
ghost use Rattle.std.specs.Prelude.{◌≡◌, ◌≤◌, None, Some, drop, length, option_map};
ghost use Rattle.tc_model.specs.Walks.{HasKeys};

use std::marker::Model;
use tc_base::{Key, Keys};

/// The keys left of the one walk of the whole server, or no walk.
#[derive(Drop)]
pub struct Walk {
    keys: Option<Keys>,
    // How many of them were left behind.
    passed: usize,
}

impl Model for Walk {
    ghost use Rattle.std.specs.Prelude.{ℕ, List, Option, option_map, drop};
    ghost use Rattle.tc_model.specs.Walks.{HasKeys};

    ghost Value = { Option (List (List ℕ)) };

    ghost view = { λ w. option_map (drop w.passed) w.keys };

    ghost invariant = { λ w. HasKeys w.passed w.keys };
}

// The keys behind the first `n`, in no more room than they need where there is memory to move them.
#[tactic(auto, using(crate::proofs::Walked::behind_front))]
fn behind(keys: Keys, n: usize) -> Keys
    requires { n ≤ length keys }
    ensures { result ≡ drop n keys }
{
    let mut keys = keys.into_vec();
    let left = keys.len() - n;
    keys.rotate_left(n);
    keys.truncate(left);
    keys.shrink_to_fit();
    Keys::from_vec(keys)
}

impl Walk {
    /// No walk.
    pub fn new() -> Walk
        ensures { result ≡ None }
    {
        Walk {
            keys: None,
            passed: 0,
        }
    }

    /// Makes these keys the walk.
    pub fn set(&mut self, keys: Keys)
        ensures { self.new ≡ Some keys }
    {
        self.keys = Some(keys);
        self.passed = 0;
    }

    /// The keys left, or none where there is no walk.
    pub fn keys(&self) -> Option<&[Key]>
        ensures { option_map (λ keys. keys.now) result ≡ self.now }
    {
        match &self.keys {
            Some(keys) => Some(&keys.as_slice()[self.passed..]),
            None => None,
        }
    }

    /// Drops the first `n` keys. Those that were dropped take memory until they are as many as those left.
    pub fn leave(&mut self, n: usize)
        requires { HasKeys n self.old }
        ensures { self.new ≡ option_map (drop n) self.old }
    {
        if let Some(keys) = &self.keys {
            let most = keys.len();
            self.passed = most.min(self.passed.saturating_add(n));
        }
        self.let_go();
    }

    // Keys left behind are let go once they are as many as those left.
    fn let_go(&mut self)
        ensures { self.new ≡ self.old }
    {
        let Some(keys) = &self.keys else {
            return;
        };
        if self.passed < keys.len() - self.passed {
            return;
        }
        if let Some(keys) = self.keys.take() {
            self.keys = Some(behind(keys, self.passed));
            self.passed = 0;
        }
    }
}
