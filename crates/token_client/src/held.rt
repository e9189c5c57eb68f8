//! What a client knows of one block.
ghost use Rattle.std.specs.Prelude.{◌≡◌, ◌<◌};
ghost use Rattle.xfs_base.specs.Limits.{u64_end};
ghost use Rattle.token_client.specs.Held.{gives_after};

use xfs_base::{Crosses, Entry, Mode, Place, Stamp, Value};

/// A want that no answer has ended.
#[derive(Clone, Copy, PartialEq, Eq)]
pub struct Wanted {
    /// Its number. The client counts its wants from 1.
    pub req: u32,
    /// How often it was sent again.
    pub again: u32,
    /// The mode that it asks for.
    pub mode: Mode,
}

/// A granted copy that has to be read from a log.
#[derive(Clone, Copy, PartialEq, Eq)]
pub struct Fetch {
    /// The version that was granted.
    pub ver: u64,
    /// Where it lies.
    pub place: Place,
}

/// A recall that is put off until the block is clean.
#[derive(Clone, Copy, PartialEq, Eq)]
pub struct Giving {
    /// The stamp of the recall.
    pub stamp: Stamp,
    /// Whether a copy may stay.
    pub keep: bool,
}

/// What a client knows of one block (the 1996 paper, "Cache Consistency": a client reads and writes
/// what it caches under tokens that the block's manager hands out and revokes).
pub struct Held {
    /// What the client may do with it.
    pub mode: Mode,
    /// The version of its value.
    pub ver: u64,
    /// The greatest version that is known to be settled.
    pub settled: u64,
    /// Its value, where one is kept.
    pub value: Option<Value>,
    /// The stamp of the last word of a manager that was followed. It never falls, and stays when the
    /// block is held no more: an older word is known by it.
    pub stamp: Stamp,
    /// The open want.
    pub want: Option<Wanted>,
    /// The fetch that runs.
    pub fetch: Option<Fetch>,
    /// The recall that is put off.
    pub giving: Option<Giving>,
}

impl Drop for Held {
    fn drop(self) {
        let Held {
            mode: _,
            ver: _,
            settled: _,
            value,
            stamp: _,
            want,
            fetch: _,
            giving: _,
        } = self;
        drop(value);
        drop(want);
    }
}

impl Crosses for Wanted {}

impl Crosses for Fetch {}

impl Crosses for Giving {}

impl Crosses for Held {}

/// Whether a later recall stands there already.
fn gives_after(giving: Option<Giving>, stamp: Stamp) -> bool
    ensures { result ≡ gives_after giving stamp }
{
    match giving {
        Some(giving) => giving.stamp.is_after(stamp),
        None => false,
    }
}

impl Held {
    ghost use Rattle.token_client.specs.Held.{held_new, is_dirty, is_asking, must_ask, is_answer, may_write, is_settled_by, may_end_fetch, may_evict, held_ask, held_own, copy_of, fetch_from, take_copy, take_grant, end_fetch, held_write, let_go, quit, drop_promised, put_off, give_up};

    /// Nothing is known.
    pub(crate) fn new() -> Held
        ensures { result ≡ held_new }
    {
        Held {
            mode: Mode::Nothing,
            ver: 0,
            settled: 0,
            value: None,
            stamp: Stamp { epoch: 0, turn: 0 },
            want: None,
            fetch: None,
            giving: None,
        }
    }

    /// Whether its newest version isn't settled.
    pub(crate) fn is_dirty(&self) -> bool
        ensures { result ≡ is_dirty self.now }
    {
        self.settled < self.ver
    }

    /// Whether a want or a fetch is open.
    pub(crate) fn is_asking(&self) -> bool
        ensures { result ≡ is_asking self.now }
    {
        self.want.is_some() || self.fetch.is_some()
    }

    /// Whether a call that needs this mode has to ask for it.
    pub(crate) fn must_ask(&self, mode: Mode) -> bool
        ensures { result ≡ must_ask self.now mode }
    {
        !self.is_asking() && self.giving.is_none() && !self.mode.allows(mode)
    }

    /// Whether what came with this stamp answers the open want.
    pub(crate) fn is_answer(&self, stamp: Stamp, req: u32, mode: Mode) -> bool
        ensures { result ≡ is_answer self.now stamp req mode }
    {
        match self.want {
            Some(want) => want.req == req && want.mode.is_same(mode) && stamp.is_after(self.stamp),
            None => false,
        }
    }

    /// Whether it may be written.
    pub(crate) fn may_write(&self) -> bool
        ensures { result ≡ may_write self.now }
    {
        self.mode.is_own() && self.giving.is_none() && self.ver < u64::MAX
    }

    /// Whether it is news that a version is settled.
    pub(crate) fn is_settled_by(&self, ver: u64) -> bool
        ensures { result ≡ is_settled_by self.now ver }
    {
        self.settled < ver && ver <= self.ver
    }

    /// Whether what was read ends the fetch.
    pub(crate) fn may_end_fetch(&self) -> bool
        ensures { result ≡ may_end_fetch self.now }
    {
        self.fetch.is_some() && self.want.is_none()
    }

    /// Whether it may leave the cache.
    pub(crate) fn may_evict(&self) -> bool
        ensures { result ≡ may_evict self.now }
    {
        self.mode.is_held() && !self.is_dirty()
    }

    /// Opens a want.
    pub(crate) fn ask(&mut self, req: u32, mode: Mode)
        ensures { self.new ≡ held_ask self.old req mode }
    {
        self.want = Some(Wanted {
            req,
            again: 0,
            mode,
        });
    }

    /// It is owned at this version, with no value yet.
    fn own(&mut self, stamp: Stamp, ver: u64)
        ensures { self.new ≡ held_own self.old stamp ver }
    {
        self.mode = Mode::Own;
        self.ver = ver;
        self.settled = ver;
        self.value = None;
        self.stamp = stamp;
        self.want = None;
        self.fetch = None;
    }

    /// It is a copy of this settled version.
    pub(crate) fn copy_of(&mut self, stamp: Stamp, ver: u64, value: Value)
        ensures { self.new ≡ copy_of self.old stamp ver value }
    {
        self.mode = Mode::Copy;
        self.ver = ver;
        self.settled = ver;
        self.value = Some(value);
        self.stamp = stamp;
        self.want = None;
        self.fetch = None;
    }

    /// It is to be read at a place.
    fn fetch_from(&mut self, stamp: Stamp, ver: u64, place: Place)
        ensures { self.new ≡ fetch_from self.old stamp ver place }
    {
        self.mode = Mode::Nothing;
        self.value = None;
        self.stamp = stamp;
        self.want = None;
        self.fetch = Some(Fetch { ver, place });
    }

    /// Takes a granted copy.
    fn take_copy(&mut self, stamp: Stamp, ver: u64, place: Option<Place>)
        ensures { self.new ≡ take_copy self.old stamp ver place }
    {
        match place {
            None => self.copy_of(stamp, ver, Value::absent()),
            Some(place) => self.fetch_from(stamp, ver, place),
        }
    }

    /// Takes a grant.
    pub(crate) fn take_grant(&mut self, stamp: Stamp, mode: Mode, entry: Entry)
        ensures { self.new ≡ take_grant self.old stamp mode entry }
    {
        if mode.is_own() {
            self.own(stamp, entry.ver);
        } else {
            self.take_copy(stamp, entry.ver, entry.place);
        }
    }

    /// Ends the fetch with what was read.
    pub(crate) fn end_fetch(&mut self, value: Value)
        ensures { self.new ≡ end_fetch self.old self.old.fetch value }
    {
        if let Some(fetch) = self.fetch {
            self.mode = Mode::Copy;
            self.ver = fetch.ver;
            self.settled = fetch.ver;
            self.value = Some(value);
            self.fetch = None;
        }
    }

    /// Takes a new version.
    pub(crate) fn write(&mut self, value: Value)
        requires { self.old.ver < u64_end }
        ensures { self.new ≡ held_write self.old value }
    {
        self.ver += 1;
        self.value = Some(value);
    }

    /// Lets go of what is held.
    pub(crate) fn let_go(&mut self)
        ensures { self.new ≡ let_go self.old }
    {
        self.mode = Mode::Nothing;
        self.value = None;
    }

    /// Ends the want and the fetch.
    pub(crate) fn quit(&mut self)
        ensures { self.new ≡ quit self.old }
    {
        self.want = None;
        self.fetch = None;
    }

    /// Puts a recall off; of two the later stands.
    pub(crate) fn put_off(&mut self, stamp: Stamp, keep: bool)
        ensures { self.new ≡ put_off self.old stamp keep }
    {
        if !gives_after(self.giving, stamp) {
            self.giving = Some(Giving { stamp, keep });
        }
    }

    /// Gives up what is held, but for a copy where that may stay.
    pub(crate) fn give_up(&mut self, stamp: Stamp, keep: bool)
        ensures { self.new ≡ give_up self.old stamp keep }
    {
        if keep && self.mode.is_held() {
            self.mode = Mode::Copy;
        } else {
            self.mode = Mode::Nothing;
            self.value = None;
        }
        self.stamp = stamp;
        self.giving = None;
    }

    /// Drops what a promise ends: the fetch and the recall that is put off.
    pub(crate) fn drop_promised(&mut self)
        ensures { self.new ≡ drop_promised self.old }
    {
        self.fetch = None;
        self.giving = None;
    }
}
