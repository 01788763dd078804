//! A whole command over memory.

ghost use Rattle.std.specs.Prelude.{◌≡◌, ◌≢◌, ◌≤◌, true, IfOk, length, min, take, drop};
ghost use Rattle.fttcan_top.specs.Output.{code_of};
ghost use Rattle.fttcan_top.specs.declared.status.Status.{Status};
ghost use Rattle.fttcan_run_c.specs.Called.{IsCalled, files_of, words_of};

use crate::given::Given;
use crate::words::words_of;
use ftt_io::MemSink;
use fttcan_top::{Status, plain};
use std::alloc::{AllocError, Global};

/// What is said where memory ran out.
const OUT_OF_MEMORY: &[u8] = b"out of memory\n";

/// How a call ended, and what it put to its output and to its messages.
#[derive(Drop)]
struct EndedCall {
    status: Status,
    out: MemSink,
    err: MemSink,
}

/// Whether a sink took no more bytes than there is room for, and all of them where it counted a fault. A sink with so much
/// room is always so.
fn fits(sink: &MemSink, room: usize) -> bool
    ensures within { result ≡ true → length sink.now.taken ≤ room }
    ensures full { result ≡ true → sink.now.faults ≢ 0 → length sink.now.taken ≡ room }
{
    let taken = sink.bytes().len();
    taken <= room && (sink.faults() == 0 || taken == room)
}

/// Carries out the words of a call over these files, with room for so many bytes of output and of messages.
///
/// # Errors
///
/// Only where memory runs out before the command is begun.
fn carried_out(
    alloc: Global,
    words: &[u8],
    mut files: Given<'_>,
    out_room: usize,
    err_room: usize,
) -> Result<EndedCall, AllocError>
    ensures called { IfOk result (λ ended. IsCalled (words_of words.now)
        (files_of files.entry.file0.now files.entry.file1.now files.entry.file2.now files.entry.file3.now)
        out_room err_room ended.status ended.out.taken ended.err.taken) }
    ensures out_fits { IfOk result (λ ended. length ended.out.taken ≤ out_room) }
    ensures err_fits { IfOk result (λ ended. length ended.err.taken ≤ err_room) }
{
    let words = words_of(alloc, words)?;
    let mut out = MemSink::new(alloc, out_room, Vec::new(alloc))?;
    let mut err = MemSink::new(alloc, err_room, Vec::new(alloc))?;
    let status = plain(alloc, words.as_slice(), &mut files, &mut out, &mut err);
    if !fits(&out, out_room) || !fits(&err, err_room) {
        return Err(AllocError);
    }
    Ok(EndedCall { status, out, err })
}

/// Copies bytes to the front of a room, as many as it takes, and answers how many.
fn put(room: &mut [u8], bytes: &[u8]) -> usize
    ensures count { result ≡ min (length bytes.now) (length room.old) }
    ensures front { take result room.new ≡ take (length room.old) bytes.now }
    ensures rest { drop result room.new ≡ drop result room.old }
{
    let count = bytes.len().min(room.len());
    room[..count].copy_from_slice(&bytes[..count]);
    count
}

/// Carries out the words of a call, between which bytes 0 stand, the program's name left out. They are the words of the
/// program, but that `live` is no command here. Its files are named `0`, `1`, `2` and `3`; each is there, and may be empty.
///
/// What the program writes stands at the front of `out`, and what it says of a fault at the front of `err`; `out_count`
/// and `err_count` say how many bytes. The other bytes of both rooms stay as they are. The answer is the exit status of
/// the program, from 0 to 7. It is 5 where `out` has too little room: it is full then, of the first bytes of the output.
/// Words that are not UTF-8 are those of no command. Where memory runs out the answer is 6.
#[unsafe(no_mangle)]
pub extern "C" fn fttcan_run(
    alloc: Global,
    words: &[u8],
    file0: &[u8],
    file1: &[u8],
    file2: &[u8],
    file3: &[u8],
    out: &mut [u8],
    out_count: &mut usize,
    err: &mut [u8],
    err_count: &mut usize,
) -> u32
    ensures called { (status : Status) × (result ≡ code_of status)
        × IsCalled (words_of words.now) (files_of file0.now file1.now file2.now file3.now)
        (length out.old) (length err.old) status (take out_count.new out.new) (take err_count.new err.new) }
    ensures out_within { out_count.new ≤ length out.old }
    ensures err_within { err_count.new ≤ length err.old }
    ensures out_rest { drop out_count.new out.new ≡ drop out_count.new out.old }
    ensures err_rest { drop err_count.new err.new ≡ drop err_count.new err.old }
{
    let files = Given::new(file0, file1, file2, file3);
    match carried_out(alloc, words, files, out.len(), err.len()) {
        Ok(ended) => {
            *out_count = put(out, ended.out.bytes());
            *err_count = put(err, ended.err.bytes());
            u32::from(ended.status.code())
        }
        Err(_) => {
            *out_count = 0;
            *err_count = put(err, OUT_OF_MEMORY);
            u32::from(Status::Memory.code())
        }
    }
}
