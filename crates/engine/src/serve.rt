// A call on a bench's text: one piece of code with room for the text's columns serves them all.
ghost use Rattle.std.specs.Prelude.{ℕ, List, ◌≡◌, ◌≤◌, length};
ghost use Rattle.checking.specs.definitions.Verdict.{verdict, accepted_file, refused_at};
ghost use Rattle.checking.specs.inner_contracts.FoundFaults.{fault_code};
ghost use Rattle.senders.specs.definitions.Fingerprint.{fingerprint};
ghost use Rattle.senders.specs.definitions.StateImage;
ghost use Rattle.days.specs.definitions.DaySheet.{sheet_size};
ghost use Rattle.engine.specs.definitions.BenchImage;
ghost use Rattle.engine.specs.definitions.Calls;
ghost use Rattle.engine.specs.definitions.Calls.{checked, freshened, header_on_bench, row_on_bench, line_on_bench, sheet_on_bench};
ghost use Rattle.engine.specs.inner_contracts.Refusals.{refusal_answer, answer_of};
ghost use Rattle.engine.specs.inner_contracts.Serving;
ghost use Rattle.engine.specs.inner_contracts.Serving.{Served, served_check, served_fresh, served_line, served_row, served_sheet};

use crate::refusal::Refusal;
use crate::room::{AcceptedBench, Room};
use checking::Fault;
use checking::layout::MOST_BYTES;

// The length of what an accepted call writes that writes no row.
const NO_ROW: usize = 0;

// The most bytes of a short text.
const SHORT_TEXT: usize = 4096;

/// A call on a bench's text: a state that changes, and memory to fill.
pub trait Call {
    // the answer and both memories after the call, by the text and both before it
    ghost served: { Self → List ℕ → List ℕ → List ℕ → Served };

    // what the call needs of both memories
    ghost fits: { Self → List ℕ → List ℕ → Type 0 };

    /// On an accepted text.
    fn on_bench(
        self,
        bench: AcceptedBench<'_>,
        state: &mut [u8],
        out: &mut [u8],
    ) -> Result<usize, Refusal>
        requires { fits self state.old out.old }
        ensures { record { answer = answer_of result; state = state.new; out = out.new } ≡ served self bench.entry state.old out.old };

    /// On a text that is refused.
    fn refusal(self, fault: Fault) -> Refusal
        ensures { (text state out : List ℕ) → verdict text ≡ refused_at (fault_code fault.kind) fault.at
            → record { answer = refusal_answer result; state = state; out = out } ≡ served self text state out };
}

/// Checks a text and writes its image.
#[derive(Clone, Copy)]
pub struct Check;

impl Call for Check {
    ghost served = { λ c text state out. served_check (checked (verdict text) text out) state };

    ghost fits = { λ c state out. BenchImage.BENCH ≤ length out };

    fn on_bench(
        self,
        bench: AcceptedBench<'_>,
        _state: &mut [u8],
        out: &mut [u8],
    ) -> Result<usize, Refusal> {
        bench.put_image(out);
        Ok(NO_ROW)
    }

    fn refusal(self, fault: Fault) -> Refusal {
        Refusal::Text(fault)
    }
}

/// Writes the fresh state.
#[derive(Clone, Copy)]
pub struct Fresh;

impl Call for Fresh {
    ghost served = { λ c text state out. served_fresh (freshened (fingerprint text) (accepted_file text) state) out };

    ghost fits = { λ c state out. StateImage.STATE ≤ length state };

    fn on_bench(
        self,
        bench: AcceptedBench<'_>,
        state: &mut [u8],
        _out: &mut [u8],
    ) -> Result<usize, Refusal> {
        bench.put_fresh(state);
        Ok(NO_ROW)
    }

    fn refusal(self, _fault: Fault) -> Refusal {
        Refusal::NoBench
    }
}

/// Takes a line: a header and a record.
#[derive(Clone, Copy)]
pub struct Line<'a> {
    pub names: &'a [u8],
    pub values: &'a [u8],
}

impl<'a> Call for Line<'a> {
    ghost served = { λ c text state out. served_line (line_on_bench (fingerprint text) (accepted_file text) state c.names.now c.values.now out) };

    ghost fits = { λ c state out. (StateImage.STATE ≤ length state) × (Calls.ROW ≤ length out) };

    fn on_bench(
        self,
        bench: AcceptedBench<'_>,
        state: &mut [u8],
        out: &mut [u8],
    ) -> Result<usize, Refusal> {
        bench
            .resolve()
            .take_line(self.names, self.values, state, out)
    }

    fn refusal(self, _fault: Fault) -> Refusal {
        Refusal::NoBench
    }
}

/// Writes the row of names.
#[derive(Clone, Copy)]
pub struct Header;

impl Call for Header {
    ghost served = { λ c text state out. served_row (header_on_bench (accepted_file text) out) state };

    ghost fits = { λ c state out. Calls.ROW ≤ length out };

    fn on_bench(
        self,
        bench: AcceptedBench<'_>,
        _state: &mut [u8],
        out: &mut [u8],
    ) -> Result<usize, Refusal> {
        Ok(bench.put_header(out))
    }

    fn refusal(self, _fault: Fault) -> Refusal {
        Refusal::NoBench
    }
}

/// Writes the row that a state keeps for a sender.
#[derive(Clone, Copy)]
pub struct Row<'a> {
    pub state: &'a [u8],
    pub sender: &'a [u8],
}

impl<'a> Call for Row<'a> {
    ghost served = { λ c text state out. served_row (row_on_bench (fingerprint text) (accepted_file text) c.state.now c.sender.now out) state };

    ghost fits = { λ c state out. (StateImage.STATE ≤ length c.state.now) × (Calls.ROW ≤ length out) };

    fn on_bench(
        self,
        bench: AcceptedBench<'_>,
        _state: &mut [u8],
        out: &mut [u8],
    ) -> Result<usize, Refusal> {
        bench.show(self.state, self.sender, out)
    }

    fn refusal(self, _fault: Fault) -> Refusal {
        Refusal::NoBench
    }
}

/// Writes the day sheet of readings, run on from a state that stays.
#[derive(Clone, Copy)]
pub struct Sheet<'a> {
    pub state: &'a [u8],
    pub readings: &'a [u8],
    pub cells: &'a [u8],
}

impl<'a> Call for Sheet<'a> {
    ghost served = { λ c text state out. served_sheet (sheet_on_bench (fingerprint text) (accepted_file text) c.state.now c.readings.now c.cells.now out) state };

    ghost fits = { λ c state out. (StateImage.STATE ≤ length c.state.now) × (sheet_size c.readings.now ≤ length out) };

    fn on_bench(
        self,
        bench: AcceptedBench<'_>,
        _state: &mut [u8],
        out: &mut [u8],
    ) -> Result<usize, Refusal> {
        bench
            .resolve()
            .put_sheet(self.state, self.readings, self.cells, out)
    }

    fn refusal(self, _fault: Fault) -> Refusal {
        Refusal::NoBench
    }
}

// A call on a short text: less memory to clear.
fn on_short_text<C: Call + Drop>(
    call: C,
    text: &[u8],
    state: &mut [u8],
    out: &mut [u8],
) -> Result<usize, Refusal>
    requires text { length text.now ≤ Serving.SHORT_TEXT }
    requires fits { C.fits call state.old out.old }
    ensures { record { answer = answer_of result; state = state.new; out = out.new } ≡ C.served call text.now state.old out.old }
{
    let mut room = Room::<SHORT_TEXT>::new();
    match room.read(text) {
        Ok(bench) => call.on_bench(bench, state, out),
        Err(fault) => Err(call.refusal(fault)),
    }
}

fn on_long_text<C: Call + Drop>(
    call: C,
    text: &[u8],
    state: &mut [u8],
    out: &mut [u8],
) -> Result<usize, Refusal>
    requires { C.fits call state.old out.old }
    ensures { record { answer = answer_of result; state = state.new; out = out.new } ≡ C.served call text.now state.old out.old }
{
    let mut room = Room::<MOST_BYTES>::new();
    match room.read(text) {
        Ok(bench) => call.on_bench(bench, state, out),
        Err(fault) => Err(call.refusal(fault)),
    }
}

/// A call on a text of any length.
pub fn serve<C: Call + Drop>(
    call: C,
    text: &[u8],
    state: &mut [u8],
    out: &mut [u8],
) -> Result<usize, Refusal>
    requires { C.fits call state.old out.old }
    ensures { record { answer = answer_of result; state = state.new; out = out.new } ≡ C.served call text.now state.old out.old }
{
    if text.len() <= SHORT_TEXT {
        return on_short_text(call, text, state, out);
    }
    on_long_text(call, text, state, out)
}
