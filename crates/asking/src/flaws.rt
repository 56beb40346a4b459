// What is wrong with bytes that are no well-formed record, and at which byte, for the words of answer 4.
ghost use Rattle.std.specs.Prelude.{◌≤◌, length};
ghost use Rattle.asking.specs.Flaws.{FlawIs};

use record::limits::{MAX_POINTS, MAX_SCANS, SMALL_POINTS, SMALL_SCANS, VERSION_1, VERSION_2};
use record::point::{DELETE, PUT, READ};
use record::{Answer, check, version_for};
use words::{word2, word4};

// What is wrong, with the number that stands there.
#[derive(Clone, Copy)]
pub enum Wrong {
    // Fewer bytes than the smallest record has.
    Short,
    // The length is not that of the bytes.
    Length(u32),
    // There is no such version.
    Version(u8),
    // Version 2, and the bytes end within its two counts.
    Counts,
    // More points than version 1 has.
    PointsIn1(u32),
    // More scans than version 1 has.
    ScansIn1(u32),
    // Too many points.
    Points(u32),
    // Too many scans.
    Scans(u32),
    // Version 2, with so few points and scans that they have version 1.
    Few,
    // There is no such kind.
    Kind(u8),
    // A point's key is not above the key before it.
    Key(u32),
    // A scan's low is not above the high before it.
    Low(u32),
    // A scan's high is below its low.
    High(u32),
    // The bytes end within a point or a scan.
    Torn,
    // Bytes are left behind the last scan.
    Rest,
}

// What is wrong, and the byte where it stands, counted from 0.
#[derive(Clone, Copy)]
pub struct Flaw {
    pub wrong: Wrong,
    pub at: usize,
}

// Where a point or a scan stands in a record's bytes, and the least key that it may begin with.
#[derive(Clone, Copy)]
struct Place<'a> {
    bytes: &'a [u8],
    at: usize,
    least: u64,
    ghost within: { at ≤ length bytes.now },
}

impl<'a> Place<'a> {
    // Past the point there.
    fn past_point(self) -> Result<Place<'a>, Flaw> {
        let Place { bytes, at, least } = self;
        let left = bytes.len() - at;
        if left < 5 {
            return Err(Flaw {
                wrong: Wrong::Torn,
                at,
            });
        }
        let kind = bytes[at];
        let size = match kind {
            READ | DELETE => 5,
            PUT => 13,
            _ => return Err(Flaw {
                wrong: Wrong::Kind(kind),
                at,
            }),
        };
        let key = word4(bytes, at + 1);
        if u64::from(key) < least {
            return Err(Flaw {
                wrong: Wrong::Key(key),
                at: at + 1,
            });
        }
        if left < size {
            return Err(Flaw {
                wrong: Wrong::Torn,
                at,
            });
        }
        Ok(Place {
            bytes,
            at: at + size,
            least: u64::from(key) + 1,
        })
    }

    // Past the scan there.
    fn past_scan(self) -> Result<Place<'a>, Flaw> {
        let Place { bytes, at, least } = self;
        if bytes.len() - at < 8 {
            return Err(Flaw {
                wrong: Wrong::Torn,
                at,
            });
        }
        let low = word4(bytes, at);
        if u64::from(low) < least {
            return Err(Flaw {
                wrong: Wrong::Low(low),
                at,
            });
        }
        let high = word4(bytes, at + 4);
        if high < low {
            return Err(Flaw {
                wrong: Wrong::High(high),
                at: at + 4,
            });
        }
        Ok(Place {
            bytes,
            at: at + 8,
            least: u64::from(high) + 1,
        })
    }
}

// Past so many points and scans from a place on: where the bytes behind the last begin.
fn past_all(bytes: &[u8], start: usize, points: usize, scans: usize) -> Result<usize, Flaw>
    requires { start ≤ length bytes.now }
{
    let first = Place {
        bytes,
        at: start,
        least: 0,
    };
    let Place { bytes, at, .. } = (0..points).try_fold(first, |place, _| place.past_point())?;
    let first = Place {
        bytes,
        at,
        least: 0,
    };
    let end = (0..scans).try_fold(first, |place, _| place.past_scan())?;
    Ok(end.at)
}

// A count that is no larger than it may be.
fn count_up_to(most: usize, count: u32, wrong: Wrong, at: usize) -> Result<usize, Flaw> {
    let held = count as usize;
    if most < held {
        return Err(Flaw { wrong, at });
    }
    Ok(held)
}

// The end of a record of version 1: past its counts, and the points and scans behind them.
fn end_in_version_1(bytes: &[u8]) -> Result<usize, Flaw>
    requires { 9 ≤ length bytes.now }
{
    let points = u32::from(bytes[7]);
    let points = count_up_to(SMALL_POINTS, points, Wrong::PointsIn1(points), 7)?;
    let scans = u32::from(bytes[8]);
    let scans = count_up_to(SMALL_SCANS, scans, Wrong::ScansIn1(scans), 8)?;
    past_all(bytes, 9, points, scans)
}

// The end of a record of version 2.
fn end_in_version_2(bytes: &[u8]) -> Result<usize, Flaw>
    requires { 9 ≤ length bytes.now }
{
    if bytes.len() < 11 {
        return Err(Flaw {
            wrong: Wrong::Counts,
            at: bytes.len(),
        });
    }
    let points = word2(bytes, 7);
    let points = count_up_to(MAX_POINTS, points, Wrong::Points(points), 7)?;
    let scans = word2(bytes, 9);
    let scans = count_up_to(MAX_SCANS, scans, Wrong::Scans(scans), 9)?;
    if version_for(points, scans) == VERSION_1 {
        return Err(Flaw {
            wrong: Wrong::Few,
            at: 2,
        });
    }
    past_all(bytes, 11, points, scans)
}

// The end of a record: past what its head says it holds. Else the first that is wrong, found from the front.
fn end_of(bytes: &[u8]) -> Result<usize, Flaw> {
    if bytes.len() < 9 {
        return Err(Flaw {
            wrong: Wrong::Short,
            at: bytes.len(),
        });
    }
    let length = word2(bytes, 0);
    if length as usize + 2 != bytes.len() {
        return Err(Flaw {
            wrong: Wrong::Length(length),
            at: 0,
        });
    }
    match bytes[2] {
        VERSION_1 => end_in_version_1(bytes),
        VERSION_2 => end_in_version_2(bytes),
        version => Err(Flaw {
            wrong: Wrong::Version(version),
            at: 2,
        }),
    }
}

// What is wrong with bytes lent as a record, the first that is found from the front; none with a well-formed record.
pub fn find_flaw(bytes: &[u8]) -> Option<Flaw>
    ensures { FlawIs bytes.now result }
{
    if check(bytes) == Answer::COMMITTED {
        return None;
    }
    match end_of(bytes) {
        Ok(end) => Some(Flaw {
            wrong: Wrong::Rest,
            at: end,
        }),
        Err(flaw) => Some(flaw),
    }
}
