//! A script as it is written, and what stands in the words of the shard behind each line.
use super::picture::Picture;
use super::seats::CAPACITY;
use super::worker::Worker;
use hcc_core::setup::Setup;
use hcc_player::play::play_core;
use std::alloc::{AllocError, Global};
use std::io::BufRead;
use std::process::Abort;
use std::test::Fail;

/// How many lines start the clients, and how many are the call's and the watcher's behind it.
const STARTS: usize = 3;

const LINES: u32 = 20;

/// The script, the client that looks at the words, and what it found behind each line.
#[derive(Drop)]
pub(super) struct Tape<'a> {
    pub(super) alloc: Global,
    script: String,
    /// Client 2, which does nothing else.
    watcher: Worker<'a>,
    /// Where the last turn left the hand.
    pub(super) hand: u64,
    pictures: Vec<Picture>,
}

impl<'a> Tape<'a> {
    /// The beginning: each client of the shard is alive.
    pub(super) fn new(alloc: Global, watcher: Worker<'a>) -> Result<Tape<'a>, AllocError> {
        Ok(Tape {
            alloc,
            script: String::from_str(alloc, "start 0\nstart 1\nstart 2\n")?,
            watcher,
            hand: 0,
            pictures: Vec::new(alloc),
        })
    }

    /// Adds the line of a call, and looks at all words.
    pub(super) fn add(&mut self, line: &str) -> Result<(), AllocError> {
        self.script.push_str(line)?;
        self.script.push_str("\n")?;
        let mut slots = [(0, 0); 8];
        for slot in 0..8 {
            write!(self.script, "look 2 {slot}\ncount 2 {slot}\n")?;
            slots[slot as usize] = self.watcher.finds(slot);
        }
        let [usage, occupancy, standing] = self.watcher.totals();
        self.script.push_str("usage 2\noccupancy 2\nstanding 2\n")?;
        self.pictures.push(Picture {
            slots,
            totals: [usage, occupancy, standing, self.hand],
        })?;
        Ok(())
    }

    /// Plays the script, and compares what is printed behind each call and behind each look at the
    /// words after it.
    pub(super) fn compare(&self, rt: &impl Abort) -> Result<(), Fail> {
        let alloc = self.alloc;
        let setup = Setup {
            slots: 8,
            clients: 3,
            capacity: CAPACITY,
            strict: false,
        };
        let mut script = self.script.as_bytes();
        let mut out = Vec::new(alloc);
        let played = play_core(alloc, &mut script, &mut out, setup);
        assert_eq!(rt; played, Ok(()));
        let mut lines = out.as_slice().lines(alloc).skip(STARTS);
        for picture in &self.pictures {
            for _ in 0..LINES {
                let line = lines.next().expect(rt, "a line is missing")?;
                picture.compare(rt, alloc, &line)?;
            }
        }
        assert!(rt; lines.next().is_none(), "a line is left");
        Ok(())
    }
}
