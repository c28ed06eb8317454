// The month's record: what is kept of a month beside the five columns, and its place in the lent lists.
//
// A record stands in its list as its numbers, in the order of the fields of `Record`; V, of 64 bits, has a list of its own.
// A further figure of a month is a field of `Record` and one of `NUMBERS`, and no call's promise changes.
//
// For the crates that make the calls, which hold the soil, the water and the lengths in range: what has a `requires` is for
// them alone.
#![tactic(auto)]

ghost use Rattle.std.specs.Prelude.{◌≡◌, ◌≤◌, ◌<◌, length, set};
ghost use Rattle.door.specs.Readings.{most_reading};
ghost use Rattle.water.specs.Layers.{SoilFits};
ghost use Rattle.records.specs.Record.{water_record, z_record, no_record, numbers_of, record_in, record_at};
ghost use Rattle.records.specs.Ends.{amounts, ends_meet};
ghost use Rattle.records.specs.Recordable.{Recordable};

use water::{Month, Soil};

// How many numbers a record has.
pub const NUMBERS: usize = 14;

// A record as it stands at its place in the lent list: its numbers, in the order of its fields.
pub type RecordNumbers = [i32; NUMBERS];

// Where Z, ET, R, L, RO, the storages at a month's end and the modified index stand among them.
pub const Z: usize = 0;

pub const ET: usize = 3;

pub const R: usize = 4;

pub const L: usize = 5;

pub const RO: usize = 6;

pub const SURFACE: usize = 9;

pub const UNDERLYING: usize = 10;

pub const MODIFIED: usize = 12;

// What a record's `water` says: a number, since C reads a record as it stands.
const NO_WATER: i32 = 0;

pub const WATER: i32 = 1;

// What a record's `kind` says of a month that was added as a Z.
const NONE: i32 = 0;

// A month's record: its Z, its water, both storages at its start and at its end, whether it had water, its modified index, and
// the kind of its precipitation.
#[repr(C)]
#[derive(Clone, Copy, Default)]
pub struct Record {
    pub z: i32,
    pub p: i32,
    pub pe: i32,
    pub et: i32,
    pub r: i32,
    pub l: i32,
    pub ro: i32,
    pub ss: i32,
    pub su: i32,
    pub surface: i32,
    pub underlying: i32,
    pub water: i32,
    pub modified: i32,
    pub kind: i32,
}

// The record of a month of water with this modified index: what fell and of which kind that was, what was asked for, and what the
// balance made of it.
pub fn water_record(s: Soil, p: u32, pe: u32, m: Month, modified: i32, kind: u8) -> Record
    requires { Recordable s p pe m }
    ensures { result ≡ water_record s p pe m modified kind }
{
    Record {
        z: m.z,
        p: p as i32,
        pe: pe as i32,
        et: m.et as i32,
        r: m.r as i32,
        l: (m.ls + m.lu) as i32,
        ro: m.ro as i32,
        ss: s.surface as i32,
        su: s.underlying as i32,
        surface: m.surface as i32,
        underlying: m.underlying as i32,
        water: WATER,
        modified,
        kind: kind as i32,
    }
}

// The record of an added Z with this modified index: no water, and the storages stay.
pub fn z_record(s: Soil, z: i32, modified: i32) -> Record
    requires { SoilFits s }
    ensures { result ≡ z_record s z modified }
{
    let surface = s.surface as i32;
    let underlying = s.underlying as i32;
    Record {
        z,
        ss: surface,
        su: underlying,
        surface,
        underlying,
        water: NO_WATER,
        modified,
        kind: NONE,
        ..Record::default()
    }
}

// No month's record: all 0.
pub fn no_record() -> Record
    ensures { result ≡ no_record }
{
    Record::default()
}

// Its numbers, in the order of its fields.
impl From<Record> for RecordNumbers {
    ghost from_gives = { λ r n. n ≡ numbers_of r };

    fn from(r: Record) -> RecordNumbers {
        [
            r.z,
            r.p,
            r.pe,
            r.et,
            r.r,
            r.l,
            r.ro,
            r.ss,
            r.su,
            r.surface,
            r.underlying,
            r.water,
            r.modified,
            r.kind,
        ]
    }
}

// The record whose numbers these are.
impl From<RecordNumbers> for Record {
    ghost from_gives = { λ n r. r ≡ record_in n };

    fn from(n: RecordNumbers) -> Record {
        let [
            z,
            p,
            pe,
            et,
            r,
            l,
            ro,
            ss,
            su,
            surface,
            underlying,
            water,
            modified,
            kind,
        ] = n;
        Record {
            z,
            p,
            pe,
            et,
            r,
            l,
            ro,
            ss,
            su,
            surface,
            underlying,
            water,
            modified,
            kind,
        }
    }
}

// A month's record, written at its place.
pub fn put(at: usize, r: Record, records: &mut [RecordNumbers])
    requires { at < length records.old }
    ensures { records.new ≡ set records.old at (numbers_of r) }
{
    records[at] = RecordNumbers::from(r);
}

// V after a month, written at its place.
pub fn put_v(at: usize, last: i64, v: &mut [i64])
    requires { at < length v.old }
    ensures { v.new ≡ set v.old at last }
{
    v[at] = last;
}

// The record whose numbers stand at a place.
pub fn record_at(records: &[RecordNumbers], i: usize) -> Record
    requires { i < length records.now }
    ensures { result ≡ record_at records.now i }
{
    Record::from(records[i])
}

// Whether after these months the last record's storages are the soil's; there is no last one where there are no months.
pub fn ends_meet(months: u32, s: Soil, records: &[RecordNumbers]) -> bool
    requires { (months ≤ length records.now) × SoilFits s }
    ensures { result ≡ ends_meet months s records.now }
{
    if months == 0 {
        return true;
    }
    let last = months as usize - 1;
    amounts(records[last][SURFACE], s.surface) && amounts(records[last][UNDERLYING], s.underlying)
}

// Whether a number of a record is this amount.
pub fn amounts(n: i32, k: u32) -> bool
    requires { k ≤ most_reading }
    ensures { result ≡ amounts n k }
{
    n == k as i32
}
