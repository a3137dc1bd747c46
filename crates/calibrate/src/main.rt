// Reads a job record from standard input, and writes the report on it to standard output. No contract can speak of what the system gives and takes; over a
// reader and a writer whose bytes are known it speaks of all that is read, and of all that is written where no write failed.
#![tactic(auto)]

ghost use Rattle.std.specs.Prelude.{◌≡◌, ℕ, ◌<◌, ◌≤◌, List, [], length, take, OnOk};
ghost use Rattle.std.specs.Io.KnownBytes.{Consumes, IsAtEnd};
ghost use Rattle.calibrate.specs.Program.{ReportsOnFront};

use std::io;
use std::io::{Read, Write};
use std::marker::Model;

// The front of the input, as far as it is read; clauses see the list of its bytes. It has room for one byte more than the longest record: what follows it in a
// longer input changes nothing, and is not read. A buffer of its own: `read` fills the room behind what is read, and an `ArrayVec` does not lend that.
#[derive(Drop)]
struct Front {
    bytes: [u8; 6251],
    size: usize,
}

impl Model for Front {
    ghost Value = { List ℕ };

    ghost view = { λ f. take f.size f.bytes };

    ghost invariant = { λ f. f.size ≤ 6251 };
}

impl Front {
    fn new() -> Self
        ensures { result ≡ [] }
    {
        Front {
            bytes: [0; 6251],
            size: 0,
        }
    }

    fn bytes(&self) -> &[u8]
        ensures value { result.now ≡ self.now }
        ensures fits { length result.now ≤ 6251 }
    {
        &self.bytes[..self.size]
    }

    // Takes the next bytes of the input, until there is no more room, the input ends or a read fails.
    fn read<R: Read>(&mut self, input: &mut R) -> io::Result<()>
        requires { self.old ≡ [] }
        ensures taken { Consumes (R.remaining input.old) (R.remaining input.new) self.new }
        ensures whole { OnOk result (length self.new < 6251 → IsAtEnd (R.remaining input.new)) }
    {
        // No `for`: it ends where the input does. Std's `copy` would say nothing of what was read before a read that fails.
        while self.size < 6251 {
            match input.read(&mut self.bytes[self.size..])? {
                0 => break,
                n => self.size += n,
            }
        }
        Ok(())
    }
}

// How the reading and the writing ended.
#[derive(Drop)]
struct Ending {
    reading: io::Result<()>,
    writing: io::Result<()>,
}

// One record and the report on it. Where a read fails, the input counts as ended there.
fn calibrate<R: Read, W: Write>(input: &mut R, output: &mut W) -> Ending
    ensures { ReportsOnFront (R.remaining input.old) (R.remaining input.new) (W.contents output.old) (W.contents output.new) result.reading result.writing }
{
    let mut front = Front::new();
    let reading = front.read(input);
    // No heap.
    let mut work = [0; 8192];
    let report = report::report_on(front.bytes(), &mut work);
    let writing = output.write_all(report.text());
    Ending { reading, writing }
}

fn main(rt: HostRuntime) -> io::Result<()> {
    calibrate(&mut rt.stdin(), &mut rt.stdout()).writing
}
