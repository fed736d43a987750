// Room for the columns of a bench text, and an accepted text that stands in it.
ghost use Rattle.std.specs.Prelude.{ℕ, true, false, ◌≡◌, ◌≤◌, ◌<◌, ◌⊎◌, length, get_or, MatchResult};
ghost use Rattle.text.specs.inner_contracts.TokenTable.{columns_of};
ghost use Rattle.checking.specs.inner_contracts.CheckedBench.{has_room};
ghost use Rattle.checking.specs.inner_contracts.FoundFaults.{fault_code};
ghost use Rattle.cycles.specs.inner_contracts.Bundles.{of_bench};
ghost use Rattle.cycles.specs.inner_contracts.HeaderReads;
ghost use Rattle.cycles.specs.inner_contracts.ReadSets;
ghost use Rattle.checking.specs.definitions.Verdict;
ghost use Rattle.checking.specs.definitions.Verdict.{verdict, accepted_file, refused_at};
ghost use Rattle.senders.specs.definitions.Fingerprint.{fingerprint};
ghost use Rattle.senders.specs.definitions.StateImage;
ghost use Rattle.senders.specs.inner_contracts.Advancing.{ResolvedBench as Resolved};
ghost use Rattle.days.specs.definitions.DaySheet.{sheet_size};
ghost use Rattle.engine.specs.definitions.BenchImage;
ghost use Rattle.engine.specs.definitions.Calls;
ghost use Rattle.engine.specs.definitions.Calls.{length_answer, checked, freshened, header_on_bench, row_on_bench, line_on_bench, sheet_on_bench};
ghost use Rattle.engine.specs.declared.refusal.Refusal.TheVariants as refused;
ghost use Rattle.engine.specs.inner_contracts.Benches.{RulesLent};
ghost use Rattle.engine.specs.inner_contracts.LineMemory.{InState, HeaderRead, NoHeader, RecordTaken};
ghost use Rattle.engine.specs.inner_contracts.Refusals.{answer_of};

use crate::bench::put_bench;
use crate::line::{take_line, take_record};
use crate::refusal::Refusal;
use checking::check::{CheckError, check};
use checking::layout::DIRECTORY;
use checking::{Columns, Fault};
use cycles::header::{Header, read_header};
use cycles::layout::SCOPES_BYTES;
use cycles::{Rules, put_row_header};
use days::sheet::put_sheet;
use senders::fingerprint::fingerprint;
use senders::{is_sender, is_state, put_fresh, show};
use std::marker::Model;

/// An accepted text in columns, a row for each token, with room to resolve its rules' names. Clauses see the text.
#[derive(Drop)]
pub struct AcceptedBench<'a> {
    columns: Columns<'a>,
    literals: &'a [u32],
    references: &'a mut [u16],
    scopes: &'a mut [u8],
}

impl<'a> Model for AcceptedBench<'a> {
    ghost use Rattle.std.specs.Prelude.{ℕ, List};
    ghost use Rattle.engine.specs.inner_contracts.Benches.{Stands};

    ghost Value = { List ℕ };

    ghost view = { λ b. b.columns.text.now };

    ghost invariant = { λ b. Stands b.columns.text.now b.columns.classes.now b.columns.offsets.now b.columns.lengths.now b.literals.now b.columns.d.now b.references.now b.scopes.now };
}

/// An accepted text in columns, with its rules' names resolved. Clauses see the text.
#[derive(Drop)]
pub struct ResolvedBench<'a> {
    rules: Rules<'a>,
}

impl<'a> Model for ResolvedBench<'a> {
    ghost use Rattle.std.specs.Prelude.{ℕ, List};
    ghost use Rattle.senders.specs.inner_contracts.Advancing.{ResolvedBench as Resolved};

    ghost Value = { List ℕ };

    ghost view = { λ b. b.rules.columns.text.now };

    ghost invariant = { λ b. Resolved b.rules.columns.text.now b.rules.columns.classes.now b.rules.columns.offsets.now b.rules.columns.lengths.now b.rules.literals.now b.rules.columns.d.now b.rules.references.now b.rules.scopes.now };
}

impl<'a> AcceptedBench<'a> {
    /// Writes the image of the text.
    pub fn put_image(&self, image: &mut [u8])
        requires { BenchImage.BENCH ≤ length image.old }
        ensures { record { answer = 0; bench = image.new } ≡ checked (verdict self.now) self.now image.old }
    {
        put_bench(self.columns.text, image);
    }

    /// Writes the fresh state.
    pub fn put_fresh(&self, state: &mut [u8])
        requires { StateImage.STATE ≤ length state.old }
        ensures { record { answer = 0; state = state.new } ≡ freshened (fingerprint self.now) (accepted_file self.now) state.old }
    {
        let AcceptedBench {
            columns,
            literals,
            ..
        } = self;
        put_fresh(columns, literals, fingerprint(columns.text), state);
    }

    /// Writes the row of names: its length.
    pub fn put_header(&self, row: &mut [u8]) -> usize
        requires { Calls.ROW ≤ length row.old }
        ensures { record { answer = length_answer result; row = row.new } ≡ header_on_bench (accepted_file self.now) row.old }
    {
        put_row_header(&self.columns, row)
    }

    /// Writes the row that a state keeps for a sender: its length, or a refusal.
    #[tactic(auto, using(crate::proofs::laws::ServingLaws::sender_short))]
    pub fn show(&self, state: &[u8], sender: &[u8], row: &mut [u8]) -> Result<usize, Refusal>
        requires { (StateImage.STATE ≤ length state.now) × (Calls.ROW ≤ length row.old) }
        ensures { record { answer = answer_of result; row = row.new }
            ≡ row_on_bench (fingerprint self.now) (accepted_file self.now) state.now sender.now row.old }
    {
        let AcceptedBench { columns, .. } = self;
        if !is_state(columns, fingerprint(columns.text), state) {
            return Err(Refusal::NoState);
        }
        if !is_sender(sender) {
            return Err(Refusal::IllFormedSender);
        }
        Ok(show(columns, state, sender, row))
    }

    /// Are both memories states of the bench? Else they are refused.
    pub fn check_states(&self, before: &[u8], after: &[u8]) -> Result<(), Refusal>
        requires { (StateImage.STATE ≤ length before.now) × (StateImage.STATE ≤ length after.now) }
        ensures { MatchResult result (λ _. (InState self.now before.now true) × InState self.now after.now true)
            (λ e. (e ≡ refused.NoState) × ((InState self.now before.now false) ⊎ ((InState self.now before.now true) × InState self.now after.now false))) }
    {
        let AcceptedBench { columns, .. } = self;
        let print = fingerprint(columns.text);
        if !is_state(columns, print, before) {
            return Err(Refusal::NoState);
        }
        if !is_state(columns, print, after) {
            return Err(Refusal::NoState);
        }
        Ok(())
    }

    /// Resolves the names of the rules.
    #[tactic(auto, using(crate::proofs::laws::ServingLaws::rules_stand))]
    pub fn resolve(self) -> ResolvedBench<'a>
        ensures { result ≡ self.entry }
    {
        let AcceptedBench {
            columns,
            literals,
            references,
            scopes,
        } = self;
        reads::resolve(&columns, references, scopes);
        ResolvedBench {
            rules: Rules {
                columns,
                literals,
                references,
                scopes,
            },
        }
    }
}

impl<'a> ResolvedBench<'a> {
    /// The bench of columns in which an accepted and resolved text stands.
    pub fn new(rules: Rules<'a>) -> Self
        requires { of_bench Resolved rules }
        ensures { result ≡ rules.entry.columns.text.now }
    {
        ResolvedBench { rules }
    }

    /// Writes the row of names: its length.
    pub fn put_header(&self, row: &mut [u8]) -> usize
        requires { Calls.ROW ≤ length row.old }
        ensures is { record { answer = length_answer result; row = row.new } ≡ header_on_bench (accepted_file self.now) row.old }
        ensures short { result ≤ Calls.ROW }
    {
        put_row_header(&self.rules.columns, row)
    }

    /// Reads a header: how many columns it has, whose numbers `columns` then has, or `Refusal::Header`.
    pub fn read_header(&self, names: &[u8], columns: &mut [u16]) -> Result<usize, Refusal>
        requires { HeaderReads.MOST_COLUMNS ≤ length columns.old }
        ensures { MatchResult result (HeaderRead self.now names.now columns.new) (λ e. (e ≡ refused.Header) × NoHeader self.now names.now) }
    {
        match read_header(&self.rules.columns, names, columns) {
            Some(count) => Ok(count),
            None => Err(Refusal::Header),
        }
    }

    /// Takes a record under a header that is read, `columns` with the numbers of its `count` columns, on memory that is a state: the length of its
    /// sender's row, or a refusal.
    #[inline]
    pub fn take_record(
        &self,
        columns: &[u16],
        count: usize,
        values: &[u8],
        state: &mut [u8],
        row: &mut [u8],
    ) -> Result<usize, Refusal>
        requires header { (count ≤ length columns.now) × ((k : ℕ) → k < count → get_or columns.now k 0 < HeaderReads.NO_COLUMN) }
        requires room { (StateImage.STATE ≤ length state.old) × (Calls.ROW ≤ length row.old) }
        ensures { RecordTaken self.now columns.now count values.now state.old row.old state.new row.new result }
    {
        take_record(
            &self.rules,
            &Header::new(columns, count),
            values,
            state,
            row,
        )
    }

    /// Takes a header and a record: the length of the sender's row, or a refusal.
    pub fn take_line(
        &self,
        names: &[u8],
        values: &[u8],
        state: &mut [u8],
        row: &mut [u8],
    ) -> Result<usize, Refusal>
        requires { (StateImage.STATE ≤ length state.old) × (Calls.ROW ≤ length row.old) }
        ensures { record { answer = answer_of result; state = state.new; row = row.new }
            ≡ line_on_bench (fingerprint self.now) (accepted_file self.now) state.old names.now values.now row.old }
    {
        take_line(&self.rules, names, values, state, row)
    }

    /// The bench's columns, and what its rules' names resolve to.
    pub fn rules(&self) -> &Rules<'a>
        ensures { RulesLent self.now result.now }
    {
        &self.rules
    }

    /// Is the memory a state of the bench? Else it is refused.
    pub fn check_state(&self, state: &[u8]) -> Result<(), Refusal>
        requires { StateImage.STATE ≤ length state.now }
        ensures { MatchResult result (λ _. InState self.now state.now true) (λ e. (e ≡ refused.NoState) × InState self.now state.now false) }
    {
        let columns = &self.rules.columns;
        if !is_state(columns, fingerprint(columns.text), state) {
            return Err(Refusal::NoState);
        }
        Ok(())
    }

    /// Writes the day sheet of a text of readings, run on from a state that stays: its length, or a refusal.
    pub fn put_sheet(
        &self,
        state: &[u8],
        readings: &[u8],
        cells: &[u8],
        sheet: &mut [u8],
    ) -> Result<usize, Refusal>
        requires { (StateImage.STATE ≤ length state.now) × (sheet_size readings.now ≤ length sheet.old) }
        ensures { record { answer = answer_of result; sheet = sheet.new }
            ≡ sheet_on_bench (fingerprint self.now) (accepted_file self.now) state.now readings.now cells.now sheet.old }
    {
        let ResolvedBench { rules } = self;
        Ok(put_sheet(rules, state, readings, cells, sheet)?)
    }
}

/// Room for the columns of a text of at most `N` bytes, or of any text where `N` is the most bytes of a bench.
#[derive(Drop)]
pub struct Room<const N: usize> {
    classes: [u8; N],
    offsets: [u16; N],
    lengths: [u8; N],
    literals: [u32; N],
    directory: [u16; DIRECTORY],
    references: [u16; N],
    scopes: [u8; SCOPES_BYTES],
}

impl<const N: usize> Room<N> {
    pub fn new() -> Self {
        Room {
            classes: [0; N],
            offsets: [0; N],
            lengths: [0; N],
            literals: [0; N],
            directory: [0; DIRECTORY],
            references: [0; N],
            scopes: [0; SCOPES_BYTES],
        }
    }

    /// The bench that a text is, or why it is none.
    pub fn read<'a>(&'a mut self, text: &'a [u8]) -> Result<AcceptedBench<'a>, Fault>
        requires { (length text.now ≤ N) ⊎ ((Verdict.MOST_BYTES ≤ N) ⊎ (Verdict.MOST_BYTES < length text.now)) }
        ensures { MatchResult result (λ b. b ≡ text.now) (λ fault. verdict text.now ≡ refused_at (fault_code fault.kind) fault.at) }
    {
        let Room {
            classes,
            offsets,
            lengths,
            literals,
            directory,
            references,
            scopes,
        } = self;
        read_into(
            text, classes, offsets, lengths, literals, directory, references, scopes,
        )
    }
}

/// The bench that a text is, by its columns in lent memory, or why it is none.
#[tactic(auto, using(crate::proofs::laws::ServingLaws::text_stands, crate::proofs::laws::ServingLaws::text_refused))]
pub fn read_into<'a>(
    text: &'a [u8],
    classes: &'a mut [u8],
    offsets: &'a mut [u16],
    lengths: &'a mut [u8],
    literals: &'a mut [u32],
    directory: &'a mut [u16],
    references: &'a mut [u16],
    scopes: &'a mut [u8],
) -> Result<AcceptedBench<'a>, Fault>
    requires room { has_room text.now (columns_of classes.old offsets.old lengths.old literals.old) directory.old ≡ true }
    requires to_resolve { (length classes.old ≤ length references.old) × (ReadSets.SCOPES_BYTES ≤ length scopes.old) }
    ensures { MatchResult result (λ b. b ≡ text.now) (λ fault. verdict text.now ≡ refused_at (fault_code fault.kind) fault.at) }
{
    match check(text, classes, offsets, lengths, literals, directory) {
        Ok(n) => Ok(AcceptedBench {
            columns: Columns {
                text,
                classes: &classes[..n],
                offsets,
                lengths,
                d: directory,
            },
            literals,
            references,
            scopes,
        }),
        Err(CheckError::Refused(fault)) => Err(fault),
        Err(CheckError::NoRoom) => unreachable!(),
    }
}
