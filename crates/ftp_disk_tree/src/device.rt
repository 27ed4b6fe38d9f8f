// A device that has the octets of a tree's files: what it answered, and how often it failed.
ghost use Rattle.std.specs.Prelude.{◌≡◌, ◌≤◌, ◌<◌, ◌+◌, ◌++◌, IfOk, OnErr, OnOk, drop, length, take};
ghost use Rattle.ftp_tree.specs.Change.{NoStray, never_strayed, one_failure_more};
ghost use Rattle.ftp_disk_tree.specs.Note.{taken};
ghost use Rattle.ftp_disk_tree.specs.Stray.{strays_between, front_of, strays_of};
ghost use Rattle.ftp_disk_scan.specs.loading.Held.{fit};

use crate::answer::{Answer, Putting, Reading};
use crate::draft::{DiskDraft, State};
use crate::opened::DiskOpen;
use crate::record::Record;
use ftp_disk_host::{Host, Look};
use ftp_disk_scan::Held;
use ftp_facts::Moment;
use ftp_tree::Broken;
use std::io;
use std::marker::{Model, PhantomData};

/// A device. A clause sees of it how many failures it told, and how many of its answers strayed from what is held.
pub(crate) struct Device<'a, H: Host, K: Held> {
    host: &'a H,
    failures: u64,
    answers: Record,
    of: PhantomData<K>,
}

/// By hand, as that of the tree.
impl<'a, H: Host, K: Held> Drop for Device<'a, H, K> {
    fn drop(self) {
        let Self {
            host: _,
            failures: _,
            answers: _,
            of: _,
        } = self;
    }
}

impl<'a, H: Host, K: Held> Model for Device<'a, H, K> {
    ghost use Rattle.ftp_tree.specs.Change.{Failures};

    ghost Value = { Failures };

    ghost use Rattle.ftp_disk_tree.specs.Stray.{strays_of};

    ghost view = { λ device. record { told = device.failures; strays = strays_of K.holds device.answers.events } };
}

impl<'a, H: Host, K: Held> Device<'a, H, K> {
    /// A device that was not asked yet.
    pub(crate) fn new(host: &'a H) -> Device<'a, H, K>
        ensures { result ≡ never_strayed 0 }
    {
        Device {
            host,
            failures: 0,
            answers: Record::new(),
            of: PhantomData,
        }
    }

    /// Who has its files.
    pub(crate) fn host(&self) -> &'a H {
        self.host
    }

    /// How many failures it told; the count moves on by wrapping.
    pub(crate) fn told(&self) -> u64
        ensures { result ≡ self.now.told }
    {
        self.failures
    }

    /// A call of it failed: that is told, and why.
    pub(crate) fn fail(&mut self, error: io::Error)
        ensures { self.new ≡ one_failure_more self.old }
    {
        self.host.blame(error);
        self.count_failure();
    }

    /// A failure is told of which is known why.
    fn count_failure(&mut self)
        ensures { self.new ≡ one_failure_more self.old }
    {
        self.failures = self.failures.wrapping_add(1);
    }

    /// Others changed what it keeps.
    pub(crate) fn changed(&mut self)
        ensures told { self.new.told ≡ self.old.told }
        ensures strays { self.new.strays ≡ self.old.strays + 1 }
    {
        self.answers.note(&Answer::Changed, b"".as_slice());
    }

    /// Reads octets of an open file from a place on, at least one where there is room. It strays where they are not those that are held there.
    pub(crate) fn read(
        &mut self,
        file: &mut DiskOpen<H>,
        at: u64,
        room: &mut [u8],
    ) -> Result<usize, Broken>
        ensures octets { NoStray self.old self.new →
            IfOk result (λ count. take count room.new ≡ take count (drop at (fit file.old.len (K.holds file.old.version)))) }
        ensures strays { IfOk result (λ count. self.new.strays ≡ self.old.strays
            + strays_between (take count (drop at (fit file.old.len (K.holds file.old.version)))) (take count room.new)) }
        ensures most { IfOk result (λ count. count ≤ length room.old) }
        ensures some { IfOk result (λ count. 0 < length room.old → 0 < count) }
        ensures file { (file.new.len ≡ file.old.len) × (file.new.version ≡ file.old.version) }
        ensures told { OnOk result (self.new.told ≡ self.old.told) }
        ensures failed { OnErr result (self.new ≡ one_failure_more self.old) }
    {
        match read_noted::<H, K>(self.host, &mut self.answers, file, at, room) {
            Ok(count) => Ok(count),
            Err(error) => {
                self.fail(error);
                Err(Broken)
            }
        }
    }

    /// Gives a draft's part the name of a place: over the file that looked so, or where nothing stands. It strays where the octets that are kept and
    /// those that came are not those that are held of the new version. A draft that was refused a write fails.
    pub(crate) fn put(
        &mut self,
        below: &str,
        over: Option<Look>,
        draft: &mut DiskDraft<'a, H>,
        putting: Putting,
        moment: Moment,
    ) -> Result<Look, Broken>
        ensures strays { OnOk result (self.new.strays ≡ self.old.strays
            + strays_between (fit putting.len (K.holds putting.version)) (front_of K.holds putting.front ++ taken draft.old.written.events)) }
        ensures told { OnOk result (self.new.told ≡ self.old.told) }
        ensures failed { OnErr result (self.new ≡ one_failure_more self.old) }
    {
        let State::Whole = draft.state else {
            self.count_failure();
            return Err(Broken);
        };
        match put_noted::<H, K>(
            self.host,
            &mut self.answers,
            below,
            over,
            draft,
            putting,
            moment,
        ) {
            Ok(look) => Ok(look),
            Err(error) => {
                self.fail(error);
                Err(Broken)
            }
        }
    }
}

/// Reads octets of an open file, and notes them, as those of its version from that place on: that they were read there is seen by eye.
fn read_noted<H: Host, K: Held>(
    host: &H,
    answers: &mut Record,
    file: &mut DiskOpen<H>,
    at: u64,
    room: &mut [u8],
) -> io::Result<usize>
    ensures strays { IfOk result (λ count. strays_of K.holds answers.new.events ≡ strays_of K.holds answers.old.events
        + strays_between (take count (drop at (fit file.old.len (K.holds file.old.version)))) (take count room.new)) }
    ensures most { IfOk result (λ count. count ≤ length room.old) }
    ensures some { IfOk result (λ count. 0 < length room.old → 0 < count) }
    ensures file { (file.new.len ≡ file.old.len) × (file.new.version ≡ file.old.version) }
    ensures kept { OnErr result (answers.new.events ≡ answers.old.events) }
{
    let count = host.read(&mut file.file, at, room)?;
    let reading = Reading {
        version: file.version,
        len: file.len,
        at,
    };
    note_reading::<K>(answers, reading, &room[..count]);
    Ok(count)
}

/// Gives a draft's part the name of a place, and notes what was written to it, after the front that is kept: that it has these octets, and that name, is
/// seen by eye.
fn put_noted<'a, H: Host, K: Held>(
    host: &H,
    answers: &mut Record,
    below: &str,
    over: Option<Look>,
    draft: &mut DiskDraft<'a, H>,
    putting: Putting,
    moment: Moment,
) -> io::Result<Look>
    requires { draft.old.state ≡ State.Whole }
    ensures strays { OnOk result (strays_of K.holds answers.new.events ≡ strays_of K.holds answers.old.events
        + strays_between (fit putting.len (K.holds putting.version)) (front_of K.holds putting.front ++ taken draft.old.written.events)) }
    ensures kept { OnErr result (answers.new.events ≡ answers.old.events) }
{
    let count = putting.front.count;
    let look = name_part(host, &mut draft.part, below, over, count, moment)?;
    draft.state = State::Named;
    note_putting::<K>(answers, putting, &draft.written);
    Ok(look)
}

/// Gives a part the name of a place: over the file that looked so, whose first octets it gets, `count` of them, or where nothing stands.
fn name_part<H: Host>(
    host: &H,
    part: &mut H::Part,
    below: &str,
    over: Option<Look>,
    count: u64,
    moment: Moment,
) -> io::Result<Look> {
    let Some(old) = over else {
        return host.put_new(part, below, moment);
    };
    if count > 0 {
        host.keep(part, below, old, count)?;
    }
    host.put_over(part, below, moment)
}

/// Notes octets that were read.
fn note_reading<K: Held>(answers: &mut Record, reading: Reading, octets: &[u8])
    ensures { strays_of K.holds answers.new.events ≡ strays_of K.holds answers.old.events
        + strays_between (take (length octets.now) (drop reading.at (fit reading.len (K.holds reading.version)))) octets.now }
{
    answers.note(&Answer::Read(reading), octets);
}

/// Notes that all octets that were written became a version of a file, after the front that was kept.
fn note_putting<K: Held>(answers: &mut Record, putting: Putting, written: &Record)
    ensures { strays_of K.holds answers.new.events ≡ strays_of K.holds answers.old.events
        + strays_between (fit putting.len (K.holds putting.version)) (front_of K.holds putting.front ++ taken written.now.events) }
{
    answers.adopt(&Answer::Put(putting), written);
}
