// The bench runner's reading and writing, in fixed memory: a bench is started from its file, the readings are fed to it as they are read, and
// what stands in the buffer is written. What is printed is the work of `replay`; here are no rows, lines or numbers.
#![tactic(auto)]

ghost use Rattle.std.specs.Prelude.{◌≡◌, ◌≤◌, [], length, take};
ghost use Rattle.runner.specs.inner_contracts.Passing.{PassedOn, FilePassedOn};

use checking::layout::MOST_BYTES;
use engine::room::Room;
use replay::{Replay, start};
use std::fs::File;
use std::io::Read;
use std::{fs, io, str};

// One byte more than a bench may have: so it shows that one is too long.
const TEXT: usize = MOST_BYTES + 1;

// How many bytes are read at once, and how many may wait to be written.
const CHUNK: usize = 65536;

// Opens a file to read. A name that is no text names none.
fn open_file(rt: &HostRuntime, path: &[u8]) -> Option<File> {
    let name = str::from_utf8(path).ok()?;
    fs::open(rt, name).ok()
}

// How many bytes were read: none at the end, and where they cannot be read.
fn read_some(file: &mut File, room: &mut [u8]) -> usize
    ensures in_bounds { result ≤ length room.new }
    ensures prefix { result ≡ length (take result room.new) }
{
    file.read(room).unwrap_or(0)
}

// Reads until the room is full or the file ends.
fn read_full(file: &mut File, room: &mut [u8]) -> usize
    ensures in_bounds { result ≤ length room.new }
    ensures prefix { result ≡ length (take result room.new) }
{
    let mut done = 0;
    while done < room.len() {
        let n = read_some(file, &mut room[done..]);
        if n == 0 {
            break;
        }
        done += n;
    }
    done
}

// What the file holds, as much as there is room for. A missing file is empty.
fn load<'a>(rt: &HostRuntime, path: &[u8], room: &'a mut [u8]) -> &'a [u8]
    ensures in_bounds { length result.now ≤ length room.old }
{
    let Some(mut file) = open_file(rt, path) else {
        return &[];
    };
    let n = read_full(&mut file, room);
    &room[..n]
}

/// Writes the bytes at once.
pub fn put(rt: &HostRuntime, bytes: &[u8]) -> io::Result<()> {
    rt.stdout().write_all(bytes)
}

// Where rows go. Once some could not be written, since their reader is gone or the disk is full, nothing more is: `written` says why.
#[derive(Drop)]
struct Output<'a> {
    rt: &'a HostRuntime,
    written: io::Result<()>,
    buffer: [u8; CHUNK],
}

impl<'a> Output<'a> {
    // Writes the bytes at the buffer's front.
    fn put(&mut self, used: usize)
        requires { used ≤ length self.old.buffer }
    {
        if self.written.is_ok() {
            self.written = put(self.rt, &self.buffer[..used]);
        }
    }

    // Feeds a chunk and writes what it prints.
    fn pass(&mut self, replay: &mut Replay<'_>, chunk: &[u8])
        ensures { PassedOn replay.old chunk.now [] replay.new [] }
    {
        let mut rest = chunk;
        while !rest.is_empty() {
            let fed = replay.feed(rest, &mut self.buffer);
            self.put(fed.used);
            rest = &rest[fed.taken..];
        }
    }

    // Feeds a file, chunk by chunk, as long as something is awaited and what it prints can be written. A proved loop has to end, so the turns are
    // counted, to a number that no run reaches. Not inlined, as `start`: so the chunk is not on the stack while a bench is started.
    #[inline(never)]
    #[tactic(auto, using(crate::proofs::steps::PassingLaws::file_none_on))]
    fn pass_file(&mut self, replay: &mut Replay<'_>, file: &mut File)
        ensures { FilePassedOn replay.old replay.new }
    {
        let mut chunk = [0; CHUNK];
        for _ in 0..u64::MAX {
            if replay.is_closed() || self.written.is_err() {
                return;
            }
            let n = read_some(file, &mut chunk);
            if n == 0 {
                return;
            }
            self.pass(replay, &chunk[..n]);
        }
    }

    // Feeds the file of that name, which is closed then. A file that cannot be opened gives no chunk.
    #[tactic(auto, using(crate::proofs::steps::PassingLaws::file_none_on))]
    fn pass_path(&mut self, replay: &mut Replay<'_>, path: &[u8])
        ensures { FilePassedOn replay.old replay.new }
    {
        let Some(mut file) = open_file(self.rt, path) else {
            return;
        };
        self.pass_file(replay, &mut file);
    }

    // Feeds the readings, and what a last line prints that no line feed ends.
    fn pass_readings(&mut self, replay: &mut Replay<'_>, path: &[u8]) {
        self.pass_path(replay, path);
        let used = replay.finish(&mut self.buffer);
        self.put(used);
    }
}

/// The rows of the two files. An error says that they could not be written to their end.
pub fn run(rt: &HostRuntime, bench: &[u8], readings: &[u8]) -> io::Result<()> {
    let mut output = Output {
        rt,
        written: Ok(()),
        buffer: [0; CHUNK],
    };
    let mut room = Room::<MOST_BYTES>::new();
    let mut text = [0; TEXT];
    match start(&mut room, load(rt, bench, &mut text), &mut output.buffer) {
        Ok(mut replay) => output.pass_readings(&mut replay, readings),
        Err(used) => output.put(used),
    }
    output.written
}
