// The point or the scan of a record that touches a key, for the words.
use reason::Touch;
use record::limits::{MAX_POINTS, MAX_SCANS};
use record::point::{PUT, READ};
use record::{Point, Scan, read};

// What touches a key, and its number in the record.
#[derive(Clone, Copy)]
pub enum Named {
    Point { number: usize, point: Point },
    Scan { number: usize, scan: Scan },
}

// The point or the scan of that number in a record; none where the record has none.
pub fn named_by(bytes: &[u8], touch: Touch) -> Option<Named> {
    let mut kinds = [0u8; MAX_POINTS];
    let mut keys = [0u32; MAX_POINTS];
    let mut payloads = [0u64; MAX_POINTS];
    let mut lows = [0u32; MAX_SCANS];
    let mut highs = [0u32; MAX_SCANS];
    let reading = read(
        bytes,
        &mut kinds,
        &mut keys,
        &mut payloads,
        &mut lows,
        &mut highs,
    )
    .ok()?;
    match touch {
        Touch::Point(number) => {
            let i = number.checked_sub(1)?;
            let key = *keys.get(..reading.points)?.get(i)?;
            let point = match kinds[i] {
                READ => Point::Read(key),
                PUT => Point::Put(key, payloads[i]),
                _ => Point::Delete(key),
            };
            Some(Named::Point { number, point })
        }
        Touch::Scan(number) => {
            let i = number.checked_sub(1)?;
            let low = *lows.get(..reading.scans)?.get(i)?;
            let scan = Scan {
                low,
                high: highs[i],
            };
            Some(Named::Scan { number, scan })
        }
    }
}
