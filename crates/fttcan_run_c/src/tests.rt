//! Both exports, called once each way that a caller sees. The log is that of one refused change: the plan of periods 101
//! and 103 repeats after 10,403 cycles, beyond the horizon of 10,000.

use crate::{fttcan_audit, fttcan_run};
use std::alloc::Global;

const SYSTEM: &[u8] = b"[bus]\ncycle = 1000\nwindow = 135\nnodes = 1\n";

const STEPS: &[u8] = b"add,1,0,0,0,0,0,101,101,0\nand,add,1,0,0,0,103,103,0\n";

const LOG: &[u8] = b"submit,1,0,horizon,0,10000\nend,0\n";

/// What a call answers and writes, where the words stand over these files and there is room for so many bytes of output.
fn ran(alloc: Global, words: &[u8], room: usize) -> (u32, [u8; 8], usize, [u8; 16], usize) {
    let mut out = [b'.'; 8];
    let mut err = [b'.'; 16];
    let mut out_count = 9;
    let mut err_count = 9;
    let status = fttcan_run(
        alloc,
        words,
        SYSTEM,
        STEPS,
        LOG,
        b"",
        &mut out[..room.min(8)],
        &mut out_count,
        &mut err,
        &mut err_count,
    );
    (status, out, out_count, err, err_count)
}

#[test]
fn words_are_carried_out_over_files(rt: HostRuntime) {
    let none = *b"................";
    let alloc = rt.alloc();
    let cases: [(&[u8], usize, (u32, [u8; 8], usize, [u8; 16], usize)); 6] = [
        (b"audit\x000\x001\x002", 8, (0, *b"yes\n....", 4, none, 0)),
        (
            b"audit\x000\x001\x002\x003",
            4,
            (0, *b"yes\n....", 4, none, 0),
        ),
        (
            b"audit\x000\x001\x002",
            3,
            (5, *b"yes.....", 3, *b"write fault\n....", 12),
        ),
        (
            b"audit\x000\x001\x004",
            8,
            (4, *b"........", 0, *b"read fault\n.....", 11),
        ),
        (
            b"live\x000\x001",
            8,
            (2, *b"........", 0, *b"usage: fttcan re", 16),
        ),
        (
            b"audit\x000\x001\x002\xff",
            8,
            (2, *b"........", 0, *b"usage: fttcan re", 16),
        ),
    ];
    for (words, room, expected) in cases.iter() {
        assert_eq!(rt; ran(alloc, words, *room), *expected);
    }
}

#[test]
fn a_log_is_audited(rt: HostRuntime) {
    let alloc = rt.alloc();
    let cases: [(&[u8], &[u8], u32, u64); 5] = [
        (LOG, b"", 0, 7),
        (b"submit,1,0,horizon,0,9999\nend,0\n", b"", 10, 1),
        (b"submit,1,0,horizon,0,10000\nend,1\n", b"", 10, 2),
        (b"submit,1,0,horizon,0,10000\n", b"", 11, 7),
        (LOG, b"no request\n", 9, 7),
    ];
    for (log, requests, status, row) in cases.iter() {
        let mut found = 7;
        assert_eq!(rt;
            fttcan_audit(alloc, SYSTEM, STEPS, log, requests, &mut found),
            *status
        );
        assert_eq!(rt; found, *row);
    }
}
