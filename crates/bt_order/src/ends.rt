//! The keys above one.
use tc_base::{Cut, Order, Side};

/// The keys above one, of either order.
#[derive(Clone, Copy)]
pub struct Above<'a> {
    pub key: &'a [u8],
}

impl<'a, O: Order> Cut<O> for Above<'a> {
    ghost use Rattle.std.specs.Prelude.{◌≡◌, ◌↔◌};
    ghost use Rattle.std.specs.declared.cmp.Ordering.TheVariants.{Greater};
    ghost use Rattle.tc_base.specs.declared.order.Side.TheVariants.{Inside};
    ghost use Rattle.bt_order.specs.Ends.{above_never_falls, side_above};

    ghost side_of = { λ c key. side_above O.cmp c.key.now key };

    ghost never_falls = { λ c. above_never_falls O.cmp O.total c.key.now };

    fn side(&self, key: &[u8]) -> Side
        ensures at { result ≡ side_above O.cmp self.now.key.now key.now }
        ensures inside { (result ≡ Inside) ↔ (O.cmp key.now self.now.key.now ≡ Greater) }
    {
        if O::order(key, self.key).is_gt() {
            Side::Inside
        } else {
            Side::Before
        }
    }
}
