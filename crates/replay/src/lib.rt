// The pure part of the bench runner: a bench is started from its text, the readings are fed to it in chunks of any size, and what is to be
// printed stands in a buffer. Reading and writing is left to the caller.
#![tactic(auto)]

pub mod rows; // what a line prints

ghost use Rattle.std.specs.Prelude.{true, ◌≡◌, ◌≤◌, ◌<◌, ◌⊎◌, length, eqb, MatchOption, MatchResult};
ghost use Rattle.std.specs.List.{position};
ghost use Rattle.text.specs.inner_contracts.TokenTable.{columns_of};
ghost use Rattle.checking.specs.definitions.Verdict;
ghost use Rattle.checking.specs.inner_contracts.CheckedBench.{has_room};
ghost use Rattle.cycles.specs.definitions.Readings.{PartOfLine};
ghost use Rattle.cycles.specs.inner_contracts.HeaderReads;
ghost use Rattle.cycles.specs.inner_contracts.ReadSets;
ghost use Rattle.senders.specs.definitions.StateImage;
ghost use Rattle.engine.specs.definitions.Calls;
ghost use Rattle.replay.specs.inner_contracts.Awaiting.{memory_of, Stood};
ghost use Rattle.replay.specs.inner_contracts.Feeding;
ghost use Rattle.replay.specs.inner_contracts.Feeding.{Kept, GathersOn, LineGatheredOn, HeaderTaken, NamesRefused, LinePutOn, FedOn, Finished, StartedOn, BenchRefused, Resumed, is_over, is_closed};

use cycles::layout::{MOST_COLUMNS, MOST_HEADER_BYTES, MOST_ROW_BYTES};
use engine::refusal::Refusal;
use engine::room::{AcceptedBench, ResolvedBench, Room, read_into};
use rows::{end_row, put_bench_refusal};
use senders::layout::STATE;
use std::marker::Model;

/// The most bytes of a row with its line feed: a buffer has room for one.
pub const ROOM: usize = MOST_ROW_BYTES + 1;

/// One byte more than a line of names may have: so it shows that a line is too long.
pub const LINE: usize = MOST_HEADER_BYTES + 1;

/// What is awaited: the line of names, a line of values under so many columns, or nothing more.
#[derive(Clone, Copy, Debug, PartialEq, Eq)]
pub enum Stage {
    Names,
    Values(usize),
    Closed,
}

/// How many bytes of a chunk are taken, and how many wait to be written.
#[derive(Clone, Copy, Debug, PartialEq, Eq)]
pub struct Progress {
    pub taken: usize,
    pub used: usize,
}

/// A bench that is started: what is awaited, the numbers of the header's columns, the bytes of a line that wait for its end, and the state.
#[derive(Drop)]
pub struct Replay<'a> {
    bench: ResolvedBench<'a>,
    stage: Stage,
    columns: [u16; MOST_COLUMNS],
    line: [u8; LINE],
    kept: usize,
    state: [u8; STATE],
}

impl<'a> Model for Replay<'a> {
    ghost use Rattle.std.specs.Prelude.{◌≤◌, take};
    ghost use Rattle.replay.specs.inner_contracts.Awaiting.{Memory, Stood};
    ghost use Rattle.replay.specs.inner_contracts.Feeding;

    ghost Value = { Memory };

    ghost view = { λ r. record { text = r.bench; stage = r.stage; columns = r.columns; waiting = take r.kept r.line; state = r.state } };

    ghost invariant = { λ r. (r.kept ≤ Feeding.LINE)
        × Stood (record { text = r.bench; stage = r.stage; columns = r.columns; waiting = take r.kept r.line; state = r.state }) };
}

/// Starts a bench with its fresh state; or puts its refusal, so many bytes.
// Not inlined: what it works in leaves the stack before the readings are fed.
#[inline(never)]
pub fn start<'a, const N: usize>(
    room: &'a mut Room<N>,
    text: &'a [u8],
    out: &mut [u8],
) -> Result<Replay<'a>, usize>
    requires text { (length text.now ≤ N) ⊎ ((Verdict.MOST_BYTES ≤ N) ⊎ (Verdict.MOST_BYTES < length text.now)) }
    requires room { Feeding.ROOM ≤ length out.old }
    ensures { MatchResult result (StartedOn text.now) (BenchRefused text.now out.new) }
{
    match room.read(text) {
        Ok(bench) => Ok(Replay::new(bench)),
        Err(fault) => Err(put_bench_refusal(out, fault.kind.code(), fault.at)),
    }
}

/// The same over columns of the caller's, of whatever lengths there is room in for the text.
pub fn start_in<'a>(
    text: &'a [u8],
    classes: &'a mut [u8],
    offsets: &'a mut [u16],
    lengths: &'a mut [u8],
    literals: &'a mut [u32],
    directory: &'a mut [u16],
    references: &'a mut [u16],
    scopes: &'a mut [u8],
    out: &mut [u8],
) -> Result<Replay<'a>, usize>
    requires columns { has_room text.now (columns_of classes.old offsets.old lengths.old literals.old) directory.old ≡ true }
    requires to_resolve { (length classes.old ≤ length references.old) × (ReadSets.SCOPES_BYTES ≤ length scopes.old) }
    requires room { Feeding.ROOM ≤ length out.old }
    ensures { MatchResult result (StartedOn text.now) (BenchRefused text.now out.new) }
{
    match read_into(
        text, classes, offsets, lengths, literals, directory, references, scopes,
    ) {
        Ok(bench) => Ok(Replay::new(bench)),
        Err(found) => Err(put_bench_refusal(out, found.kind.code(), found.at)),
    }
}

// Where the first line feed stands.
fn line_end(chunk: &[u8]) -> Option<usize>
    ensures { result ≡ position (λ b. eqb b 10) chunk.now }
{
    chunk.iter().position(|b| *b == b'\n')
}

// The row of names, under a header that is read, and what is awaited then.
fn take_names(
    bench: &ResolvedBench<'_>,
    names: &[u8],
    stage: &mut Stage,
    columns: &mut [u16],
    row: &mut [u8],
) -> Result<usize, Refusal>
    requires { (HeaderReads.MOST_COLUMNS ≤ length columns.old) × (Calls.ROW ≤ length row.old) }
    ensures { MatchResult result (HeaderTaken bench.now names.now stage.new columns.new row.new) (NamesRefused bench.now names.now stage.new) }
{
    *stage = Stage::Closed;
    let count = bench.read_header(names, columns)?;
    *stage = Stage::Values(count);
    Ok(bench.put_header(row))
}

impl<'a> Replay<'a> {
    /// A bench with its fresh state, which awaits the line of names.
    pub fn new(bench: AcceptedBench<'a>) -> Self
        ensures { StartedOn bench.entry result }
    {
        let mut state = [0; STATE];
        bench.put_fresh(&mut state);
        Replay {
            bench: bench.resolve(),
            stage: Stage::Names,
            columns: [0; MOST_COLUMNS],
            line: [0; LINE],
            kept: 0,
            state,
        }
    }

    /// A bench that awaits what the caller's memory stands for, as at a state that was stored: at the stage, under the numbers of a header's columns,
    /// with the bytes of a line that wait for its end. All of it is copied, as much as there is room for.
    pub fn resume(
        bench: ResolvedBench<'a>,
        stage: Stage,
        columns: &[u16],
        waiting: &[u8],
        state: &[u8],
    ) -> Self
        requires columns_room { HeaderReads.MOST_COLUMNS ≤ length columns.now }
        requires state_room { StateImage.STATE ≤ length state.now }
        requires stood { Stood (memory_of bench stage columns.now waiting.now state.now) }
        ensures { Resumed (memory_of bench.entry stage columns.now waiting.now state.now) result }
    {
        let mut numbers = [0; MOST_COLUMNS];
        numbers.copy_from_slice(&columns[..MOST_COLUMNS]);
        let mut image = [0; STATE];
        image.copy_from_slice(&state[..STATE]);
        let mut replay = Replay {
            bench,
            stage,
            columns: numbers,
            line: [0; LINE],
            kept: 0,
            state: image,
        };
        replay.keep(waiting);
        replay
    }

    /// What is awaited.
    pub fn stage(&self) -> Stage
        ensures { result ≡ self.now.stage }
    {
        self.stage
    }

    /// The numbers of the header's columns, and room for more.
    pub fn columns(&self) -> &[u16]
        ensures is { result.now ≡ self.now.columns }
        ensures room { length result.now ≡ HeaderReads.MOST_COLUMNS }
    {
        &self.columns
    }

    /// The bytes of a line that wait for its end, as many as there is room for.
    pub fn waiting(&self) -> &[u8]
        ensures is { result.now ≡ self.now.waiting }
        ensures short { length result.now ≤ Feeding.LINE }
        ensures part { PartOfLine result.now }
    {
        &self.line[..self.kept]
    }

    /// The state.
    pub fn state(&self) -> &[u8]
        ensures is { result.now ≡ self.now.state }
        ensures room { length result.now ≡ StateImage.STATE }
    {
        &self.state
    }

    // Keeps more bytes of the line, as many as there is room for: a line that fills the room is too long, whatever follows.
    #[inline]
    fn keep(&mut self, bytes: &[u8])
        requires { PartOfLine bytes.now }
        ensures { Kept self.old bytes.now self.new }
    {
        let n = bytes.len().min(LINE - self.kept);
        let end = self.kept + n;
        self.line[self.kept..end].copy_from_slice(&bytes[..n]);
        self.kept = end;
    }

    // Keeps the bytes of a line up to its line feed, and answers where that stands; or all of the chunk.
    fn gather(&mut self, chunk: &[u8]) -> Option<usize>
        ensures { MatchOption result (GathersOn self.old chunk.now (length chunk.now) self.new) (LineGatheredOn self.old chunk.now self.new) }
    {
        let end = line_end(chunk);
        self.keep(&chunk[..end.unwrap_or(chunk.len())]);
        end
    }

    // Puts what the line prints that waits, which is taken then: how many bytes.
    fn put_line(&mut self, out: &mut [u8]) -> usize
        requires { Feeding.ROOM ≤ length out.old }
        ensures { LinePutOn self.old self.new out.new result }
    {
        let Replay {
            bench,
            stage,
            columns,
            line,
            kept,
            state,
        } = self;
        let waiting = &line[..*kept];
        *kept = 0;
        match *stage {
            Stage::Names => {
                let row = take_names(bench, waiting, stage, columns, out);
                end_row(row, out)
            }
            Stage::Values(count) => {
                let row = bench.take_record(columns, count, waiting, state, out);
                end_row(row, out)
            }
            Stage::Closed => 0,
        }
    }

    /// Takes the lines of a chunk, as long as the buffer has room for a row, and keeps the bytes of an unfinished one.
    pub fn feed(&mut self, chunk: &[u8], out: &mut [u8]) -> Progress
        ensures { FedOn self.old chunk.now self.new out.new result }
    {
        let mut taken = 0;
        let mut used = 0;
        while ROOM <= out.len() - used {
            let Some(length) = self.gather(&chunk[taken..]) else {
                return Progress {
                    taken: chunk.len(),
                    used,
                };
            };
            used += self.put_line(&mut out[used..]);
            taken += length + 1;
        }
        Progress { taken, used }
    }

    /// Is nothing more awaited? Whatever text is left then, it prints nothing.
    #[tactic(auto, unfolding(crate::specs::inner_contracts::Feeding::is_closed))]
    pub fn is_closed(&self) -> bool
        ensures { result ≡ is_closed self.now.stage }
    {
        match self.stage {
            Stage::Names | Stage::Values(_) => false,
            Stage::Closed => true,
        }
    }

    // At the text's end: is there no line any more? A line of names is there, if only an empty one.
    #[tactic(auto, unfolding(crate::specs::inner_contracts::Feeding::is_over))]
    fn is_over(&self) -> bool
        ensures { result ≡ is_over self.now.stage (length self.now.waiting) }
    {
        match self.stage {
            Stage::Names => false,
            Stage::Values(_) => self.line[..self.kept].is_empty(),
            Stage::Closed => true,
        }
    }

    /// The text has ended: puts what a last line prints that no line feed ends.
    pub fn finish(&mut self, out: &mut [u8]) -> usize
        requires { Feeding.ROOM ≤ length out.old }
        ensures printed { Finished self.old out.new result }
        ensures same { self.new.text ≡ self.old.text }
    {
        if self.is_over() {
            return 0;
        }
        self.put_line(out)
    }
}
