// Lists T414 code from standard input (02, No. 2), at most 1 MiB of it. With an argument, each line has its address and its bytes before it.
// The text is gathered in a buffer and written where that is full.
#![tactic(auto)]

mod gathered; // the text that is gathered

ghost use Rattle.std.specs.Prelude.{◌≡◌, ◌+◌, ◌<◌, ◌≤◌, length};
ghost use Rattle.assembly.specs.Listing as rule;

use gathered::Gathered;
use program_io::input::read_full;
use program_io::room::zeros;
use rules::names::MEM_START;
use std::env::{Env, FillError};
use std::io::Write;

// The most bytes of code, and one more, which tells that there is too much.
const MOST: usize = 1048576;

const INPUT: usize = 1048577;

// The size of the buffer of text. What is gathered in it is written before it has a piece of code's listing put behind it.
const TEXT: usize = 1048576;

// The bytes of code that are listed by one call, but for the rest of a chain.
const PIECE: usize = 65536;

// Tests for pfix and nfix.
fn is_prefix(byte: u8) -> bool {
    matches!(byte >> 4, 2 | 6)
}

// Returns the length of the first chain of code, or of the code where it has no whole chain.
fn chain_length(code: &[u8]) -> usize
    requires { 0 < length code.now }
    ensures { (0 < result) × (result ≤ length code.now) }
{
    code.iter()
        .position(|byte| !is_prefix(*byte))
        .map_or(code.len(), |k| k + 1)
}

// Returns the length of the first piece of code: as many bytes as one call lists, and the rest of the chain that the last of them is in.
fn piece_length(code: &[u8]) -> usize
    requires { 0 < length code.now }
    ensures { (0 < result) × (result ≤ length code.now) }
{
    let last = code.len().min(PIECE) - 1;
    last + chain_length(&code[last..])
}

// Returns where the unfinished chain at the end of the code begins.
fn unfinished(code: &[u8]) -> usize
    ensures { result ≤ length code.now }
{
    code.iter()
        .rposition(|byte| !is_prefix(*byte))
        .map_or(0, |k| k + 1)
}

// Puts the listing of an unfinished chain, piece by piece: the newline behind a piece that is not the last becomes a space.
fn put_unfinished(rt: &HostRuntime, chain: &[u8], text: &mut Gathered)
    ensures { length text.new.buffer.now ≡ length text.old.buffer.now }
{
    for (k, piece) in chain.chunks(PIECE).enumerate() {
        if k > 0 {
            text.join();
        }
        text.make_room(rt);
        text.list(rt, piece);
    }
}

// Puts the listing of code, a line a chain.
// Kept, point 3: each turn takes a piece off the code that is left, up to the end of a chain; no iterator of std cuts so (d).
fn put_plain(rt: &HostRuntime, code: &[u8], text: &mut Gathered)
    ensures { length text.new.buffer.now ≡ length text.old.buffer.now }
{
    let (mut rest, tail) = code.split_at(unfinished(code));
    while !rest.is_empty() {
        let (piece, others) = rest.split_at(piece_length(rest));
        text.make_room(rt);
        text.list(rt, piece);
        rest = others;
    }
    put_unfinished(rt, tail, text);
}

// Returns a hexadecimal digit, in upper case.
// Kept, point 2: as the assembler's, which is its own; a public one would be a new promise there (d).
// Kept, point 4: a digit by hand: with `{:02X}` for each byte a run on a chain of 1 MiB took four times as long (b).
#[tactic(auto, using(rules::proofs::Tests::yes_lt, rules::proofs::Tests::no_lt), unfolding(assembly::specs::Listing::hex_digit))]
fn hex_digit(d: u8) -> u8
    requires { d < 16 }
    ensures { result ≡ rule.hex_digit d }
{
    d + if d < 10 { b'0' } else { b'A' - 10 }
}

// Puts the address and the bytes of a chain, and as many spaces as four bytes would have more, and one.
// The address is printed apart: no clause says what `write!` leaves of a text where it fails, so that its buffer keeps its length would stay open.
fn put_head(rt: &HostRuntime, address: u32, chain: &[u8], text: &mut Gathered)
    ensures { length text.new.buffer.now ≡ length text.old.buffer.now }
{
    text.make_room(rt);
    let mut head = [b' '; 10];
    let mut place = &mut head[..];
    let _ = write!(place, "{address:08X}");
    text.put(head);
    for byte in chain {
        text.put([hex_digit(*byte / 16), hex_digit(*byte % 16), b' ']);
        text.make_room(rt);
    }
    for _ in chain.len()..4 {
        text.put([b' '; 3]);
    }
    text.put([b' ']);
}

// Puts the listing of code with addresses and bytes.
// Kept, point 3: each turn takes one chain off the code that is left; no iterator of std cuts where a test of a byte says (d).
fn put_addresses(rt: &HostRuntime, code: &[u8], text: &mut Gathered)
    ensures { length text.new.buffer.now ≡ length text.old.buffer.now }
{
    let (mut rest, tail) = code.split_at(unfinished(code));
    let mut address = MEM_START;
    while !rest.is_empty() {
        let (chain, others) = rest.split_at(chain_length(rest));
        put_head(rt, address, chain, text);
        text.list(rt, chain);
        address = address.wrapping_add((chain.len() % 4294967296) as u32);
        rest = others;
    }
    if !tail.is_empty() {
        put_head(rt, address, tail, text);
        put_unfinished(rt, tail, text);
    }
}

// Tests whether the program has an argument.
fn has_argument(rt: &HostRuntime) -> bool {
    let mut start = [0u8; 1];
    !matches!(rt.arg(1, &mut start), Err(FillError::NotPresent))
}

fn main(rt: HostRuntime) {
    let mut code = zeros::<u8, INPUT>();
    let got = read_full(&rt, &mut code);
    if got > MOST {
        let _ = rt.eprintln("list: the code is longer than 1 MiB");
        return;
    }
    let mut buffer = zeros::<u8, TEXT>();
    let mut text = Gathered::new(&mut buffer);
    if has_argument(&rt) {
        put_addresses(&rt, &code[..got], &mut text);
    } else {
        put_plain(&rt, &code[..got], &mut text);
    }
    text.flush(&rt);
}
