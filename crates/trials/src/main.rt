// Runs every case that an argument names: a folder with bench.txt and readings.txt, whose rows follow the folder's name.
// tests/oracle/to_program.py writes the cases; `stored_texts` and `replay_cases` have what the definitions give for the stored ones.
#![tactic(auto)]

ghost use Rattle.std.specs.Prelude.{◌≤◌, length};

use std::env::FillError;
use std::io;
use std::rt::Env;

// The most bytes of a path.
const PATH: usize = 4096;

// The parts one after another, as much of them as there is room for.
fn join<'a>(path: &'a mut [u8], parts: &[&[u8]]) -> &'a [u8]
    ensures { length result.now ≤ length path.old }
{
    let mut end = 0;
    for part in parts {
        let n = part.len().min(path.len() - end);
        path[end..end + n].copy_from_slice(&part[..n]);
        end += n;
    }
    &path[..end]
}

// A folder's name and its rows.
fn run_in(rt: &HostRuntime, folder: &[u8]) -> io::Result<()> {
    runner::put(rt, b"== ")?;
    runner::put(rt, folder)?;
    runner::put(rt, b"\n")?;
    let mut bench = [0; PATH];
    let mut readings = [0; PATH];
    runner::run(
        rt,
        join(&mut bench, &[folder, b"/bench.txt"]),
        join(&mut readings, &[folder, b"/readings.txt"]),
    )
}

// Argument number i, and the rows of the folder that it names. Is there one?
fn run_case(rt: &HostRuntime, i: usize) -> io::Result<bool> {
    let mut folder = [0; PATH];
    let n = match rt.arg(i, &mut folder) {
        Ok(n) => n,
        Err(FillError::TooLong) => 0,
        Err(FillError::NotPresent) => return Ok(false),
    };
    run_in(rt, &folder[..n])?;
    Ok(true)
}

fn main(rt: HostRuntime) -> io::Result<()> {
    for i in 1..usize::MAX {
        if !run_case(&rt, i)? {
            return Ok(());
        }
    }
    Ok(())
}
