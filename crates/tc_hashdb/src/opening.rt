//! A hash database opened in its file.
#![tactic(auto, using(tc_space::specs::Frames::keeps_refl, tc_space::specs::Frames::only_reads_refl))]

ghost use Rattle.tc_hashdb.specs.Holding.{BreaksAs};
ghost use Rattle.tc_hashdb.specs.Shapes.{Lacks, MayHave, Shaped, anew, usual};
ghost use Rattle.tc_hashdb.specs.Unbroken.{stands_unbroken};

use crate::holding::HashEngine;
use crate::shape::{HashShape, USUAL};
use std::alloc::Global;
use tc_base::{Kind, Rule};
use tc_hash::Hash;
use tc_space::Space;
use ty_base::{AnyErr, Opens};

// The type in the head of a hash file.
const HASH: u8 = 0;

impl<S: Space> Opens for HashEngine<S> {
    type Shape = HashShape;

    ghost may_be = { λ shape. MayHave shape };

    ghost anew = { λ shape. anew shape };

    ghost shaped = { λ shape files. Shaped shape files };

    ghost usual = { usual };

    ghost lacks = { λ space shape. Lacks S.Space space shape };

    ghost breaks = { λ kind files file rule. BreaksAs kind files file rule };

    ghost breaks_new = { λ files file rule. ⊥ };

    ghost unbroken = { λ kind files c file rule opens breaks. stands_unbroken kind files c file rule opens breaks };

    fn open(alloc: Global, kind: Kind, space: &mut S) -> Result<HashEngine<S>, AnyErr> {
        if kind != Kind::Hash {
            return Err(AnyErr::Broken {
                file: 0,
                rule: Rule {
                    letter: b'L',
                    number: 1,
                },
            });
        }
        if space.len(0) == 0 {
            return Self::create(alloc, &USUAL, space);
        }
        let hash = Hash::open(alloc, space, 0, HASH)?;
        Ok(HashEngine {
            alloc,
            hash,
            total: None,
        })
    }

    fn create(alloc: Global, shape: &HashShape, space: &mut S) -> Result<HashEngine<S>, AnyErr> {
        let hash = Hash::create(
            alloc,
            space,
            0,
            HASH,
            shape.apow,
            shape.fpow,
            shape.buckets,
            shape.large,
        )?;
        Ok(HashEngine {
            alloc,
            hash,
            total: Some(0),
        })
    }
}
