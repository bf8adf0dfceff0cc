//! Stretches by the number of a key.
use tc_base::{Cut, Decimal, Side, number_of, value_part};

/// The keys whose number is from one to another, both included, of the decimal order; in units of 10^-9. None where `high` is below `low`.
#[derive(Clone, Copy)]
pub struct NumberCut {
    pub low: i128,
    pub high: i128,
}

impl Cut<Decimal> for NumberCut {
    ghost use Rattle.std.specs.Prelude.{◌≡◌, ◌↔◌};
    ghost use Rattle.tc_base.specs.declared.order.Side.TheVariants.{Inside};
    ghost use Rattle.bt_order.specs.Numbers.{side_numbered, IsNumbered};
    ghost use Rattle.bt_order.specs.Laws.{number_never_falls};

    ghost side_of = { λ c key. side_numbered c.low c.high key };

    ghost never_falls = { λ c. number_never_falls c.low c.high };

    #[tactic(auto, using(crate::proofs::Within::is_numbered))]
    fn side(&self, key: &[u8]) -> Side
        ensures at { result ≡ side_numbered self.now.low self.now.high key.now }
        ensures inside { (result ≡ Inside) ↔ IsNumbered self.now.low self.now.high key.now }
    {
        let number = number_of(value_part(key));
        if number < self.low {
            return Side::Before;
        }
        if number > self.high {
            return Side::After;
        }
        Side::Inside
    }
}
