// The engine's calls for C: a static library, whose exports call the engine's functions of the same names under the same contracts. A slice crosses as
// a pointer and then a length (include/bench_engine.h).
#![tactic(auto)]

ghost use Rattle.engine.specs.definitions.Calls.{CheckContract, FreshContract, LineContract, HeaderContract, RowContract, SheetContract};
ghost use Rattle.engine.specs.definitions.Calls.{ClassContract, EntityContract};

// Checks a bench file and writes its image: 31, 11 to 18 or 44 with the offset of the fault, or 0.
#[unsafe(no_mangle)]
pub extern "C" fn bench_check(text: &[u8], bench: &mut [u8]) -> u64
    ensures { CheckContract text.now bench.old bench.new result }
{
    engine::bench_check(text, bench)
}

// Writes the fresh state of a checked bench: 31, 32, or 0.
#[unsafe(no_mangle)]
pub extern "C" fn bench_fresh(bench: &[u8], state: &mut [u8]) -> u64
    ensures { FreshContract bench.now state.old state.new result }
{
    engine::bench_fresh(bench, state)
}

// Takes one line, a header and a record: moves the state on and writes the row of the line's sender. A line that is sent again leaves the state and
// gives its row again. 31, 32, 33, 22, 21, 43, 42, 23, 24, 25, or 0 with the row's length.
#[unsafe(no_mangle)]
pub extern "C" fn bench_line(
    bench: &[u8],
    state: &mut [u8],
    names: &[u8],
    values: &[u8],
    row: &mut [u8],
) -> u64
    ensures { LineContract bench.now state.old names.now values.now row.old state.new
        row.new result }
{
    engine::bench_line(bench, state, names, values, row)
}

// Writes the row of names: 31, 32, or 0 with its length.
#[unsafe(no_mangle)]
pub extern "C" fn bench_header(bench: &[u8], row: &mut [u8]) -> u64
    ensures { HeaderContract bench.now row.old row.new result }
{
    engine::bench_header(bench, row)
}

// Writes the row that the state keeps for a sender: 31, 32, 33, 43, or 0 with its length.
#[unsafe(no_mangle)]
pub extern "C" fn bench_row(bench: &[u8], state: &[u8], sender: &[u8], row: &mut [u8]) -> u64
    ensures { RowContract bench.now state.now sender.now row.old row.new result }
{
    engine::bench_row(bench, state, sender, row)
}

// Writes the day sheet of a text of readings, run on from a state that stays: 31, 32, 33, 41, 22, or 0 with its length.
#[unsafe(no_mangle)]
pub extern "C" fn bench_sheet(
    bench: &[u8],
    state: &[u8],
    readings: &[u8],
    cells: &[u8],
    sheet: &mut [u8],
) -> u64
    ensures { SheetContract bench.now state.now readings.now cells.now sheet.old sheet.new result }
{
    engine::bench_sheet(bench, state, readings, cells, sheet)
}

// The class of a byte, 0 to 7, as the lexer has it: letter, digit, `_`, mark, blank, `#`, for comments only, not allowed.
#[unsafe(no_mangle)]
pub extern "C" fn bench_byte_class(byte: u8) -> u64
    ensures { ClassContract byte result }
{
    engine::bench_byte_class(byte)
}

// Where the name of an entity stands in a bench text: 256 times its length and 65536 times its offset; 0 if the text has no entity with that number,
// from 0 in file order, or is refused.
#[unsafe(no_mangle)]
pub extern "C" fn bench_entity_name(text: &[u8], number: usize) -> u64
    ensures { EntityContract text.now number result }
{
    engine::bench_entity_name(text, number)
}
