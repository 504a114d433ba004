//! What is told as a job of a round begins and ends.

use std::sync::Wait;
use std::sync::atomic::Ordering::{AcqRel, Acquire, Release};
use std::sync::atomic::{AtomicBool, AtomicU32};
use std::thread;

/// What a round's workers call as they begin and end a job. A job is told by its number in the round, from 1. A gate may
/// hold a worker up; it changes nothing of what the round does.
pub trait Gate {
    /// A worker begins a job.
    fn enter<R: Wait>(&self, rt: &R, job: u32);

    /// A worker has served the last line of a job.
    fn leave<R: Wait>(&self, rt: &R, job: u32);
}

/// A gate that holds nobody.
#[derive(Drop)]
pub struct OpenGate {}

impl OpenGate {
    /// A gate.
    pub fn new() -> OpenGate {
        OpenGate {}
    }
}

impl Gate for OpenGate {
    fn enter<R: Wait>(&self, _rt: &R, _job: u32) {}

    fn leave<R: Wait>(&self, _rt: &R, _job: u32) {}
}

/// A gate at which the first two jobs of a round have to meet: each is held at its end until the other ends too. So it
/// shows whether two jobs are served at the same time. It is made for one round.
#[derive(Drop)]
pub struct TurnGate {
    // For how many turns a job is held at most.
    limit: u32,
    first_ends: AtomicBool,
    second_ends: AtomicBool,
    is_expired: AtomicBool,
    ended: AtomicU32,
}

impl TurnGate {
    /// A gate that holds a job for at most so many turns. In a turn the job's thread lets other threads run.
    pub fn new(limit: u32) -> TurnGate {
        TurnGate {
            limit,
            first_ends: AtomicBool::new(false),
            second_ends: AtomicBool::new(false),
            is_expired: AtomicBool::new(false),
            ended: AtomicU32::new(0),
        }
    }

    /// Whether a job was held until the limit.
    pub fn expired(&self) -> bool {
        self.is_expired.load(Acquire)
    }

    /// How many calls of `leave` have returned.
    pub fn left(&self) -> u32 {
        self.ended.load(Acquire)
    }

    /// Waits until the other job ends, at most until the limit.
    fn meet(&self, other_ends: &AtomicBool) {
        for _ in 0..self.limit {
            if other_ends.load(Acquire) {
                return;
            }
            thread::yield_now();
        }
        if !other_ends.load(Acquire) {
            self.is_expired.store(true, Release);
        }
    }
}

impl Gate for TurnGate {
    fn enter<R: Wait>(&self, _rt: &R, _job: u32) {}

    fn leave<R: Wait>(&self, _rt: &R, job: u32) {
        match job {
            1 => {
                self.first_ends.store(true, Release);
                self.meet(&self.second_ends);
            }
            2 => {
                self.second_ends.store(true, Release);
                self.meet(&self.first_ends);
            }
            _ => {}
        }
        self.ended.fetch_add(1, AcqRel);
    }
}
