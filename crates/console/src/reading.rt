// A request's bytes, from whatever they are read from.
ghost use Rattle.std.specs.Prelude.{◌≤◌, length, take};
ghost use Rattle.std.specs.Io.KnownBytes.{Consumes};

use std::io::Read;

// Reads until `bytes` is full, the input ends or a read fails, which counts as an end. How many bytes were read is returned; they stand at the start.
pub fn read_full<R: Read>(input: &mut R, bytes: &mut [u8]) -> usize
    ensures room { result ≤ length bytes.new }
    ensures read { Consumes (R.remaining input.old) (R.remaining input.new) (take result bytes.new) }
{
    // No `for`: how far a turn comes is what the read gave.
    let mut done = 0;
    while done < bytes.len() {
        match input.read(&mut bytes[done..]) {
            Ok(0) | Err(_) => return done,
            Ok(size) => done += size,
        }
    }
    done
}
