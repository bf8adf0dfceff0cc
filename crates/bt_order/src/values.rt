//! Stretches by the value part of a key, which is what stands before its first zero byte.
use crate::sides::{begun, beside};
use tc_base::{Blob, Cut, Lexical, Side, value_part};

/// The keys whose value part is a value, of the lexical order. None where the value has a zero byte.
#[derive(Drop)]
pub struct ValueCut {
    pub value: Blob,
}

impl Cut<Lexical> for ValueCut {
    ghost use Rattle.std.specs.Prelude.{◌≡◌, ◌↔◌};
    ghost use Rattle.tc_base.specs.Orders.{value_part};
    ghost use Rattle.tc_base.specs.declared.order.Side.TheVariants.{Inside};
    ghost use Rattle.bt_order.specs.Values.{side_valued};
    ghost use Rattle.bt_order.specs.Laws.{value_never_falls};

    ghost side_of = { λ c key. side_valued c.value key };

    ghost never_falls = { λ c. value_never_falls c.value };

    #[tactic(auto, using(crate::proofs::Within::is_value))]
    fn side(&self, key: &[u8]) -> Side
        ensures at { result ≡ side_valued self.now.value key.now }
        ensures inside { (result ≡ Inside) ↔ (value_part key.now ≡ self.now.value) }
    {
        beside(value_part(key), self.value.as_slice())
    }
}

/// The keys whose value part begins with some bytes, of the lexical order. None where these have a zero byte.
#[derive(Drop)]
pub struct BeginCut {
    pub prefix: Blob,
}

impl Cut<Lexical> for BeginCut {
    ghost use Rattle.std.specs.Prelude.{◌≡◌, ◌↔◌, true, nat_eq};
    ghost use Rattle.std.specs.List.{starts_with};
    ghost use Rattle.tc_base.specs.Orders.{value_part};
    ghost use Rattle.tc_base.specs.declared.order.Side.TheVariants.{Inside};
    ghost use Rattle.bt_order.specs.Values.{side_beginning};
    ghost use Rattle.bt_order.specs.Laws.{begin_never_falls};

    ghost side_of = { λ c key. side_beginning c.prefix key };

    ghost never_falls = { λ c. begin_never_falls c.prefix };

    #[tactic(auto, using(crate::proofs::Within::is_begun))]
    fn side(&self, key: &[u8]) -> Side
        ensures at { result ≡ side_beginning self.now.prefix key.now }
        ensures inside { (result ≡ Inside) ↔ (starts_with nat_eq (value_part key.now) self.now.prefix ≡ true) }
    {
        begun(self.prefix.as_slice(), value_part(key))
    }
}
