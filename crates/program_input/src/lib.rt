// What the programs read: a reader's bytes up to a list's room, and what the input may be when this much of it was read.
#![tactic(auto)]

ghost use Rattle.std.specs.Prelude.{◌≡◌, ◌-◌, ◌≤◌, length, take, drop, replicate, IfErr, IfOk, IfSome, OnOk};
ghost use Rattle.std.specs.Io.KnownBytes.{Consumes, ReadConsumes};
ghost use Rattle.std.specs.Process.{exit_status};
ghost use Rattle.program_input.specs.Input.{front_count, Stopped, MayBe};

use std::io::{ErrorKind, Read};
use std::process::ExitCode;
use std::rt::{Env, Files};
use std::{env, fs, io};

// Where reading stopped: so many bytes were read and the end was not seen, or the input ended after so many. It is an enum of its own: both
// cases have a count, and neither is one where something is missing.
#[derive(Clone, Copy)]
pub enum Front {
    Open(usize),
    Ended(usize),
}

impl Front {
    // How many bytes were read.
    pub fn count(self) -> usize
        ensures { result ≡ front_count self }
    {
        match self {
            Front::Open(n) | Front::Ended(n) => n,
        }
    }
}

// What was read: the list that it was read to, and where reading stopped. The whole list, and no part of it: that an input whose end was not
// seen has filled the list is said by its length. `Stopped` is asked by each that reads it: tried as a ghost field here, it proves in this crate
// and in ddm_tree, but the check of ddm_reload, which makes two inputs, runs out of antt's stack and gives no verdict.
#[derive(Clone, Copy)]
pub struct Input<'a> {
    pub bytes: &'a [u8],
    pub front: Front,
}

impl<'a> Input<'a> {
    // The bytes that were read.
    pub fn read(self) -> &'a [u8]
        requires { Stopped (length self.bytes.now) self.front }
        ensures { result.now ≡ take (front_count self.entry.front) self.entry.bytes.now }
    {
        &self.bytes[..self.front.count()]
    }
}

// A list of N zeros to read to, for the long ones: a program's proof goes by these clauses, and not by a literal of so many entries.
pub fn room<const N: usize>() -> [u8; N]
    ensures long { length result ≡ N }
    ensures zeros { result ≡ replicate N 0 }
{
    [0; N]
}

// One read, to the bytes from `done` on. Those before them stay.
fn read_lump<R: Read>(reader: &mut R, input: &mut [u8], done: usize) -> io::Result<usize>
    requires { done ≤ length input.old }
    ensures moved { IfOk result (λ n. n ≤ length input.old - done) }
    ensures stays { take done input.new ≡ take done input.old }
    ensures bytes { ReadConsumes (R.remaining reader.old) (R.remaining reader.new) result (drop done input.new) }
{
    reader.read(&mut input[done..])
}

// Reads until `input` is full or the input ends. Where the bytes that the reader has left are known, they are a stream that the input may be.
pub fn read_input<R: Read>(reader: &mut R, input: &mut [u8]) -> io::Result<Front>
    ensures stopped { IfOk result (λ front. Stopped (length input.new) front) }
    ensures bytes { IfSome (R.remaining reader.old) (λ stream. IfOk result (λ front. MayBe front input.new stream)) }
{
    let mut done = 0;
    // a read brings as many bytes as it will: no counted loop
    while done < input.len() {
        let n = read_lump(reader, input, done)?;
        if n == 0 {
            return Ok(Front::Ended(done));
        }
        done += n;
    }
    Ok(Front::Open(done))
}

// The same where it does not matter whether the end was seen: how many bytes are at the front of `input`. Where the bytes that the reader
// has left are known, these are they, up to the room.
pub fn read_count<R: Read>(reader: &mut R, input: &mut [u8]) -> io::Result<usize>
    ensures count { IfOk result (λ n. n ≤ length input.new) }
    ensures bytes { IfSome (R.remaining reader.old) (λ stream. IfOk result (λ n. take (length input.new) stream ≡ take n input.new)) }
{
    Ok(read_input(reader, input)?.count())
}

// Opens the file that the argument number i names.
pub fn open_argument<R: Env + Files + Alloc>(rt: &R, i: usize) -> io::Result<R::File> {
    let path = env::args(rt)?.nth(i).ok_or(io::Error::new(
        ErrorKind::InvalidInput,
        "the argument that names the file is missing",
    ))?;
    fs::open(rt, path.as_str())
}

// What failed of a program's input or output, and why.
#[derive(Drop)]
pub struct Failure<'a> {
    pub what: &'a str,
    pub error: io::Error,
}

// The status that a program ends with. What failed, and why, is said on standard error.
pub fn end<R: Eprint>(rt: &R, done: Result<(), Failure<'_>>) -> ExitCode
    ensures ended { OnOk done.entry (exit_status result ≡ 0) }
    ensures failed { IfErr done.entry (λ failure. exit_status result ≡ 1) }
{
    match done {
        Ok(()) => ExitCode::SUCCESS,
        Err(Failure { what, error }) => {
            let _ = eprintln!(rt; "{what}: {error}");
            ExitCode::FAILURE
        }
    }
}
