//! A feed of the update log.
#![tactic(auto, using(tc_space::specs::Frames::only_reads_refl, tc_space::specs::Frames::only_reads_then))]

ghost use Rattle.std.specs.Prelude.{◌≡◌, ◌+◌, ◌≤◌, take, None, IfOk, OnErr};
ghost use Rattle.tc_io.specs.Causes.{HasCause};
ghost use Rattle.tc_space.specs.Frames.{OnlyReads};
ghost use Rattle.ty_ulog.specs.Feeds.{Counts, FindsPlace, GivesNext, room};
ghost use Rattle.ty_ulog.specs.Holding.{ReadsFew};

use crate::log::Ulog;
use tc_base::Fault;
use tc_space::Space;

/// Gives the records above a timestamp, each byte once, as they come to stand in the log.
#[derive(Clone, Copy)]
pub struct Feed {
    above: u64,
    // where its next byte stands; none before the log has a record above the timestamp
    place: Option<u64>,
}

// Where the first record above a timestamp stands, if there is one.
fn first_above<S: Space>(log: &Ulog, space: &mut S, above: u64) -> Result<Option<u64>, Fault>
    requires { S.sound space.old }
    ensures found { IfOk result (FindsPlace S.Space log.now space.old (record { above = above; place = None })) }
    ensures counted { ReadsFew S.Space log.now space.old space.new 2101248 }
    ensures reads { OnlyReads S.Space space.old space.new }
    ensures cause { HasCause (S.faults space.old) (S.faults space.new) result }
{
    if log.last() <= above {
        return Ok(None);
    }
    let at = log.after(space, above)?;
    Ok(Some(at))
}

impl Feed {
    /// Nothing was given yet of what stands above a timestamp.
    pub fn new(above: u64) -> Feed
        ensures { result ≡ record { above = above; place = None } }
    {
        Feed { above, place: None }
    }

    // Where its next byte stands, once the log has a record above its timestamp.
    fn find<S: Space>(&self, log: &Ulog, space: &mut S) -> Result<Option<u64>, Fault>
        requires { S.sound space.old }
        ensures found { IfOk result (FindsPlace S.Space log.now space.old self.now) }
        ensures falls { IfOk result (λ o. room o ≤ room self.now.place) }
        ensures counted { Counts S.Space log.now self.now space.old space.new 0 }
        ensures reads { OnlyReads S.Space space.old space.new }
        ensures cause { HasCause (S.faults space.old) (S.faults space.new) result }
    {
        match self.place {
            Some(at) => Ok(Some(at)),
            None => first_above(log, space, self.above),
        }
    }

    /// Fills the front of `into` with the next bytes that are due, 4,096 or as many as are left, and answers how many. It takes no memory. An
    /// `Err` leaves the feed as it was; what is in `into` then isn't said.
    pub fn next<S: Space>(
        &mut self,
        log: &Ulog,
        space: &mut S,
        into: &mut [u8; 4096],
    ) -> Result<usize, Fault>
        requires { S.sound space.old }
        ensures gives { IfOk result (λ n. GivesNext S.Space log.now space.old self.old self.new (take n into.new)) }
        ensures few { IfOk result (λ n. (n ≤ 4096) × (room self.new.place + n ≤ room self.old.place)) }
        ensures counted { Counts S.Space log.now self.old space.old space.new 4096 }
        ensures above { self.new.above ≡ self.old.above }
        ensures err { OnErr result (self.new ≡ self.old) }
        ensures reads { OnlyReads S.Space space.old space.new }
        ensures cause { HasCause (S.faults space.old) (S.faults space.new) result }
    {
        let Some(at) = self.find(log, space)? else {
            return Ok(0);
        };
        let n = log.next_bytes(space, at, into)?;
        self.place = Some(at + n as u64);
        Ok(n)
    }
}
