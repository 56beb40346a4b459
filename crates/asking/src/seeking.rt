// The record at a position of a log: the records before it are melded, and it is explained.
ghost use Rattle.std.specs.Prelude.{◌≡◌, ◌≤◌, length, IfOk};
ghost use Rattle.asking.specs.Seeking.{PassedBy, stopped_by, LooksAndTells, Sought};
ghost use Rattle.asking.specs.Asked.{AsksLog};

use crate::telling::{Told, Unread, tell};
use crate::window::{Stop, look, shift};
use lines::{HEAD, open};
use meld::meld;
use std::io::Read;
use stream::fill;
use words::word4;

// Melds the record at the window's front, and moves the window past it: so many bytes are held behind it.
fn pass<R: Read>(
    log: &mut R,
    pool: &mut [u8],
    window: &mut [u8],
    held: usize,
) -> Result<usize, Stop>
    requires { held ≤ length window.old }
    ensures passed { PassedBy held pool.old window.old pool.new window.new result }
    ensures within { IfOk result (λ left. left ≤ length window.new) }
{
    let front = look(log, window, held)?;
    meld(pool, &window[..front.next]);
    Ok(shift(window, front.next, front.held))
}

// Explains the record at the window's front, which so many records stand before.
fn tell_at<R: Read>(
    log: &mut R,
    pool: &[u8],
    window: &mut [u8],
    held: usize,
    records: u32,
) -> Result<Told, Unread>
    requires { held ≤ length window.old }
    ensures { LooksAndTells held records pool.now window.old window.new result }
{
    match look(log, window, held) {
        Ok(front) => Ok(tell(pool, &window[..front.next])),
        Err(stop) => stopped(stop, records),
    }
}

// What is told where no record is at the window's front, so many records into the log.
fn stopped(stop: Stop, records: u32) -> Result<Told, Unread>
    ensures { result ≡ stopped_by stop records }
{
    match stop {
        Stop::Unread { .. } => Err(Unread),
        Stop::Over { found, .. } => Ok(Told::Over { found, records }),
    }
}

// Melds so many records of the log into the pool, and explains the next.
fn seek<R: Read>(
    log: &mut R,
    pool: &mut [u8],
    window: &mut [u8],
    before: u32,
) -> Result<Told, Unread>
    ensures { Sought before pool.old window.old pool.new window.new result }
{
    let mut held: usize = 0;
    for records in 0..before {
        match pass(log, pool, window, held) {
            Ok(left) => held = left,
            Err(stop) => return stopped(stop, records),
        }
    }
    tell_at(log, pool, window, held, before)
}

// Reads limits and a log, makes the pool that the limits ask for out of the bytes lent, for an N up to the largest, and explains
// the record that so many records stand before. Its bytes stand at the front of the window.
pub fn ask<R: Read>(
    log: &mut R,
    pool: &mut [u8],
    window: &mut [u8],
    most: u32,
    before: u32,
) -> Result<Told, Unread>
    ensures { AsksLog most before pool.old window.old pool.new window.new result }
{
    let mut head = [0u8; HEAD];
    let limits = fill(log, &mut head, 0);
    if limits.failed {
        return Err(Unread);
    }
    let held = limits.held;
    match open(pool, &head[..held], most) {
        Ok(size) => seek(log, &mut pool[..size], window, before),
        Err(_) => Ok(Told::Limits {
            held,
            n: word4(&head, 0),
            z: word4(&head, 4),
        }),
    }
}
