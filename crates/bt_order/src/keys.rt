//! Stretches of whole keys.
ghost use Rattle.std.specs.Prelude.{◌≡◌, option_map};
ghost use Rattle.bt_order.specs.Keys.{side_in};
ghost use Rattle.bt_order.specs.Sides.{side_begun};

use crate::sides::begun;
use tc_base::{Blob, Cut, Lexical, Order, Side};

/// All keys, of either order.
#[derive(Clone, Copy)]
pub struct All;

impl<O: Order> Cut<O> for All {
    ghost use Rattle.tc_base.specs.declared.order.Side.TheVariants.{Inside};
    ghost use Rattle.bt_order.specs.Rising.{all_inside};

    ghost side_of = { λ _ _. Inside };

    ghost never_falls = { λ _. all_inside O.cmp };

    fn side(&self, _key: &[u8]) -> Side {
        Side::Inside
    }
}

/// The keys from one on, and before another where one is named, of either order.
#[derive(Drop)]
pub struct KeyCut {
    pub from: Blob,
    pub to: Option<Blob>,
}

impl<O: Order> Cut<O> for KeyCut {
    ghost use Rattle.std.specs.Prelude.{◌↔◌};
    ghost use Rattle.tc_base.specs.declared.order.Side.TheVariants.{Inside};
    ghost use Rattle.bt_order.specs.Keys.{side_in, IsWithin};
    ghost use Rattle.bt_order.specs.Laws.{stretch_never_falls};

    ghost side_of = { λ c key. side_in O.cmp c.from c.to key };

    ghost never_falls = { λ c. stretch_never_falls O.cmp O.total c.from c.to };

    fn side(&self, key: &[u8]) -> Side
        ensures at { result ≡ side_in O.cmp self.now.from self.now.to key.now }
        ensures inside { (result ≡ Inside) ↔ IsWithin O.cmp self.now.from self.now.to key.now }
    {
        let stretch = Stretch {
            first: self.from.as_slice(),
            end: end_of(&self.to),
        };
        <Stretch as Cut<O>>::side(&stretch, key)
    }
}

// The end as bytes.
fn end_of(to: &Option<Blob>) -> Option<&[u8]>
    ensures { option_map (λ e. e.now) result ≡ to.now }
{
    match to {
        Some(to) => Some(to.as_slice()),
        None => None,
    }
}

/// The keys from one on, and before another where one is named, of either order: a `KeyCut` that borrows its ends.
#[derive(Clone, Copy)]
pub struct Stretch<'a> {
    pub first: &'a [u8],
    pub end: Option<&'a [u8]>,
}

impl<'a, O: Order> Cut<O> for Stretch<'a> {
    ghost use Rattle.std.specs.Prelude.{◌↔◌, option_map};
    ghost use Rattle.tc_base.specs.declared.order.Side.TheVariants.{Inside};
    ghost use Rattle.bt_order.specs.Keys.{side_in, IsWithin};
    ghost use Rattle.bt_order.specs.Laws.{stretch_never_falls};

    ghost side_of = { λ s key. side_in O.cmp s.first.now (option_map (λ e. e.now) s.end) key };

    ghost never_falls = { λ s. stretch_never_falls O.cmp O.total s.first.now (option_map (λ e. e.now) s.end) };

    fn side(&self, key: &[u8]) -> Side
        ensures at { result ≡ side_in O.cmp self.now.first.now (option_map (λ e. e.now) self.now.end) key.now }
        ensures inside { (result ≡ Inside) ↔ IsWithin O.cmp self.now.first.now (option_map (λ e. e.now) self.now.end) key.now }
    {
        if O::order(key, self.first).is_lt() {
            return Side::Before;
        }
        match self.end {
            Some(end) if O::order(key, end).is_ge() => Side::After,
            _ => Side::Inside,
        }
    }
}

/// The keys that begin with some bytes, of the lexical order.
#[derive(Clone, Copy)]
pub struct PrefixCut<'a> {
    pub prefix: &'a [u8],
}

impl<'a> Cut<Lexical> for PrefixCut<'a> {
    ghost use Rattle.std.specs.Prelude.{◌↔◌, true, nat_eq};
    ghost use Rattle.std.specs.List.{starts_with};
    ghost use Rattle.tc_base.specs.declared.order.Side.TheVariants.{Inside};
    ghost use Rattle.bt_order.specs.Sides.{side_begun};
    ghost use Rattle.bt_order.specs.Laws.{prefix_never_falls};

    ghost side_of = { λ c key. side_begun c.prefix.now key };

    ghost never_falls = { λ c. prefix_never_falls c.prefix.now };

    #[tactic(auto, using(crate::proofs::Within::is_begun))]
    fn side(&self, key: &[u8]) -> Side
        ensures at { result ≡ side_begun self.now.prefix.now key.now }
        ensures inside { (result ≡ Inside) ↔ (starts_with nat_eq key.now self.now.prefix.now ≡ true) }
    {
        begun(self.prefix, key)
    }
}
