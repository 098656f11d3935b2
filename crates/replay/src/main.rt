// Replays the recording on standard input to standard output, through fixed buffers.
#![tactic(auto)]

use recording::Stream;
use std::io::{ErrorKind, Read, Stderr, Stdin, Stdout, Write};

// The program's streams.
#[derive(Clone, Copy)]
struct Streams {
    input: Stdin,
    output: Stdout,
    errors: Stderr,
}

// Nothing is left to do: the replay is over, or an error is told.
#[derive(Clone, Copy)]
struct Stop;

impl Streams {
    fn put(mut self, reply: &[u8]) -> Result<(), Stop> {
        if let Err(error) = self.output.write_all(reply) {
            let _ = eprintln!(self.errors; "write: {error}");
            return Err(Stop);
        }
        Ok(())
    }
}

// A replay, the memory lent to it, and how many bytes the window holds.
#[derive(Drop)]
struct Replay<'a> {
    streams: Streams,
    stream: Stream,
    sectors: &'a mut [u8],
    window: &'a mut [u8],
    held: usize,
    out: &'a mut [u8],
}

impl<'a> Replay<'a> {
    // Reads once, behind the bytes that the window holds; whether the recording ends with them.
    fn fill(&mut self) -> Result<bool, Stop> {
        if self.window.len() <= self.held {
            return Ok(false);
        }
        match self.streams.input.read(&mut self.window[self.held..]) {
            Ok(0) => Ok(true),
            Ok(more) => {
                self.held += more;
                Ok(false)
            }
            Err(error) if error.kind() == ErrorKind::Interrupted => Ok(false),
            Err(error) => {
                let _ = eprintln!(self.streams.errors; "read: {error}");
                Err(Stop)
            }
        }
    }

    // One read, the turn over what it brought, and its reply written.
    fn round(&mut self) -> Result<(), Stop> {
        let last = self.fill()?;
        let turn = self
            .stream
            .turn(self.sectors, self.window, self.held, last, self.out);
        self.stream = turn.stream;
        self.held = turn.held;
        self.streams.put(&self.out[..turn.made])?;
        if turn.number != 0 || turn.stream.stage.over() {
            return Err(Stop);
        }
        Ok(())
    }
}

fn main(rt: HostRuntime) {
    let mut sectors = [0; 32768];
    let mut window = [0; 65536];
    let mut out = [0; 131072];
    let mut replay = Replay {
        streams: Streams {
            input: rt.stdin(),
            output: rt.stdout(),
            errors: rt.stderr(),
        },
        stream: Stream::start(),
        sectors: &mut sectors,
        window: &mut window,
        held: 0,
        out: &mut out,
    };
    // The count only bounds the loop: no recording uses it up.
    for _ in 0..u64::MAX {
        let Ok(()) = replay.round() else {
            return;
        };
    }
}
