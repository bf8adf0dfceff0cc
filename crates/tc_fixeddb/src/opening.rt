//! A fixed-length database opened in its file.
#![tactic(auto, using(tc_space::specs::Frames::keeps_refl, tc_space::specs::Frames::only_reads_refl))]

ghost use Rattle.tc_fixeddb.specs.Holding.{BreaksAs};
ghost use Rattle.tc_fixeddb.specs.Shapes.{Lacks, MayHave, Shaped, anew, usual};
ghost use Rattle.tc_fixeddb.specs.Unbroken.{stands_unbroken};

use crate::holding::FixedEngine;
use crate::shape::{FixedShape, USUAL};
use std::alloc::Global;
use tc_base::{Kind, Rule};
use tc_fixed::Fixed;
use tc_space::Space;
use ty_base::{AnyErr, Opens};

impl<S: Space> Opens for FixedEngine<S> {
    type Shape = FixedShape;

    ghost may_be = { λ shape. MayHave shape };

    ghost anew = { λ shape. anew shape };

    ghost shaped = { λ shape files. Shaped shape files };

    ghost usual = { usual };

    ghost lacks = { λ space shape. Lacks S.Space space shape };

    ghost breaks = { λ kind files file rule. BreaksAs kind files file rule };

    ghost breaks_new = { λ files file rule. ⊥ };

    ghost unbroken = { λ kind files c file rule opens breaks. stands_unbroken kind files c file rule opens breaks };

    fn open(alloc: Global, kind: Kind, space: &mut S) -> Result<FixedEngine<S>, AnyErr> {
        if kind != Kind::Fixed {
            return Err(AnyErr::Broken {
                file: 0,
                rule: Rule {
                    letter: b'F',
                    number: 1,
                },
            });
        }
        if space.len(0) == 0 {
            return Self::create(alloc, &USUAL, space);
        }
        let fixed = Fixed::open(alloc, space)?;
        Ok(FixedEngine { alloc, fixed })
    }

    fn create(alloc: Global, shape: &FixedShape, space: &mut S) -> Result<FixedEngine<S>, AnyErr> {
        let fixed = Fixed::create(alloc, space, shape.width, shape.limit)?;
        Ok(FixedEngine { alloc, fixed })
    }
}
