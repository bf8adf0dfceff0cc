//! What is held in memory, brought to the file.
ghost use Rattle.std.specs.Prelude.{◌≡◌, length, None, IfOk, IsSome, OnOk, OnErr};
ghost use Rattle.tc_base.specs.Maps.{Map};
ghost use Rattle.tc_space.specs.Effects.{Outcome};
ghost use Rattle.tc_space.specs.Frames.{Keeps, OnlyReads, OnlyWrites};
ghost use Rattle.tc_space.specs.Refusals.{Blames, OnFault, OnlyLogIsFull};
ghost use Rattle.hf_head.specs.Heads.{Spells, spelled};
ghost use Rattle.tc_hash.specs.Bringing.{IsNewSection, MayWriteFront, MayWriteSection, WritesFront, WritesSection};
ghost use Rattle.tc_hash.specs.Fronts.{IsFront};
ghost use Rattle.tc_hash.specs.Keeping.{CanCall, Means, Refused, StaysOpen};
ghost use Rattle.tc_hash.specs.Settling.{DropsEnd, Settles, head_now};

use crate::front::{Front, read_front};
use crate::hash::Hash;
use crate::section::{section_place, section_size};
use hf_head::Head;
use hf_record::Body;
use std::alloc::AllocError;
use tc_base::Blob;
use tc_reach::{append_zeros, cut_to, write_difference};
use tc_space::{RecErr, Space};

/// The bytes of a head.
pub fn spelling(head: &Head) -> [u8; 256]
    ensures bytes { result ≡ spelled head.now }
    ensures spells { Spells head.now (spelled head.now) }
    ensures long { length (spelled head.now) ≡ 256 }
{
    head.write()
}

// The section of the free blocks, if they may have changed since it was written, and the one that stands in the file: as many bytes of both, behind which
// there are zeros alone.
fn new_section(body: &Body, old: &mut Blob) -> Result<Option<Blob>, AllocError>
    ensures section { IfOk result (IsNewSection body.now old.old old.new) }
{
    if !body.pool.has_changed() {
        return Ok(None);
    }
    let mut section = Blob::new(body.alloc);
    body.pool.pairs(section_size(&body.head), &mut section)?;
    append_zeros(old.len().saturating_sub(section.len()), &mut section)?;
    append_zeros(section.len().saturating_sub(old.len()), old)?;
    Ok(Some(section))
}

// Writes the section over the old one, if there is one to write.
fn write_section<S: Space>(
    space: &mut S,
    body: &Body,
    old: &[u8],
    section: &Option<Blob>,
) -> Result<(), RecErr>
    requires { MayWriteSection S.Space body.now old.now section.now space.old }
    ensures wrote { OnOk result (WritesSection S.Space body.now section.now space.old space.new) }
    ensures outcome { Outcome S.sound S.flag result space.new }
    ensures writes { OnlyWrites S.Space space.old space.new }
    ensures full { OnlyLogIsFull S.Space result space.new }
    ensures cause { OnFault S.Space result space.old space.new }
{
    match section {
        Some(bytes) => write_difference(
            space,
            body.file,
            section_place(&body.head),
            old,
            bytes.as_slice(),
        ),
        None => Ok(()),
    }
}

/// Writes a head and the pool section, of each the bytes that differ from those that stand there, and cuts the file to a size. After a refusal the space
/// isn't sound.
pub(crate) fn write_front<S: Space>(
    space: &mut S,
    body: &Body,
    front: &Front,
    head: &[u8; 256],
    section: &Option<Blob>,
    size: u64,
) -> Result<(), RecErr>
    requires { MayWriteFront S.Space body.now front.now section.now space.old }
    ensures wrote { OnOk result (WritesFront S.Space body.now head.now section.now size space.old space.new) }
    ensures outcome { Outcome S.sound S.flag result space.new }
    ensures writes { OnlyWrites S.Space space.old space.new }
    ensures full { OnlyLogIsFull S.Space result space.new }
    ensures cause { OnFault S.Space result space.old space.new }
{
    write_difference(space, body.file, 0, &front.head, head)?;
    write_section(space, body, front.section.as_slice(), section)?;
    cut_to(space, body.file, size)
}

impl<S: Space> Hash<S> {
    /// The head of the file as it is to be.
    pub(crate) fn head_now(&self) -> Head
        ensures { result ≡ head_now self.now.body.head self.now.records self.now.body.pool.size self.now.region }
    {
        let head = &self.body.head;
        Head {
            kind: head.kind,
            apow: head.apow,
            fpow: head.fpow,
            options: head.options,
            buckets: head.buckets,
            records: self.records,
            size: self.body.pool.size(),
            first: head.first,
            opaque: self.region,
        }
    }

    // What stands in front of the blocks, which isn't kept any more. It is read where it isn't known.
    fn take_front(&mut self, space: &mut S) -> Result<Front, RecErr>
        requires { CanCall S.Space self.old space.old }
        ensures front { IfOk result (λ f. (m : Map) → Means S.Space self.old space.old m → IsFront self.old.body.head f (S.now space.old self.old.body.file)) }
        ensures stays { self.new ≡ record self.old { front = None } }
        ensures known { IsSome self.old.front → space.new ≡ space.old }
        ensures reads { OnlyReads S.Space space.old space.new }
        ensures cause { Blames S.Space result space.old space.new }
    {
        match self.front.take() {
            Some(front) => Ok(front),
            None => read_front(&self.body, space),
        }
    }

    /// Brings what is held in memory to the file: free blocks at its end are dropped, the head and the pool section are written, of each the bytes that
    /// differ from those that were read or written last, and the file is cut to its size. Then the file stands for the map. A
    /// file that was settled, and neither packed nor cleared since, isn't read. After a refusal the space isn't sound, or nothing was written.
    pub fn settle(&mut self, space: &mut S) -> Result<(), RecErr>
        requires { CanCall S.Space self.old space.old }
        ensures settled { OnOk result (Settles S.Space self.old self.new space.old space.new) }
        ensures trimmed { DropsEnd self.old self.new }
        ensures stays { StaysOpen self.old self.new }
        ensures refused { OnErr result (Refused S.Space self.old self.new space.old space.new) }
        ensures counted { IsSome self.old.front → S.bytes_read space.new ≡ S.bytes_read space.old }
        ensures keeps { Keeps S.Space space.old space.new }
        ensures full { OnlyLogIsFull S.Space result space.new }
        ensures cause { OnFault S.Space result space.old space.new }
    {
        self.body.pool.trim();
        let mut front = self.take_front(space)?;
        let section = new_section(&self.body, &mut front.section)?;
        let head = spelling(&self.head_now());
        let size = self.body.pool.size();
        write_front(space, &self.body, &front, &head, &section, size)?;
        let section = section.unwrap_or(front.section);
        self.front = Some(Front { head, section });
        self.body.pool.mark_written();
        Ok(())
    }
}
