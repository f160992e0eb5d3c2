// What the text of a packet asks for.
ghost use Rattle.std.specs.Prelude.{◌≡◌, codes, IfOk, OnErr};
ghost use Rattle.gdb_wire.specs.Requests.{IsRequest, Begins};
ghost use Rattle.gdb_wire.specs.RequestParser.{request_of, plain_of, query_of, features_of, memory_of, register_of, kind_of, stop_of, insert_of, remove_of, whole_of, command_of};

use crate::number::{number, numbers};
use crate::request::{Command, Motion, Request, StopKind};
use hex::FromHexError;
use std::alloc::{AllocError, Global};

/// Reads the request of a packet's text. It takes memory for the text of a command alone.
pub fn read_request(alloc: Global, text: &[u8]) -> Result<Request, AllocError>
    ensures read { IfOk result (IsRequest text.now) }
    ensures memory { OnErr result (Begins text.now (codes "qRcmd,")) }
{
    read(alloc, text)
}

// The request of a packet's text, read from left to right.
#[tactic(auto, unfolding(crate::specs::RequestParser::request_of))]
fn read(alloc: Global, text: &[u8]) -> Result<Request, AllocError>
    ensures read { IfOk result (λ request. request ≡ request_of text.now) }
    ensures memory { OnErr result (Begins text.now (codes "qRcmd,")) }
{
    match text.strip_prefix(b"qRcmd,") {
        Some(digits) => command(alloc, digits),
        None => Ok(plain_request(text)),
    }
}

// The command that is spelled in hexadecimal digits.
#[tactic(auto, unfolding(crate::specs::RequestParser::command_of))]
fn command(alloc: Global, digits: &[u8]) -> Result<Request, AllocError>
    ensures { IfOk result (λ request. request ≡ command_of digits.now) }
{
    match hex::decode(alloc, digits) {
        Ok(text) => Ok(Request::Monitor(Command { text })),
        Err(FromHexError::OutOfMemory) => Err(AllocError),
        Err(_) => Ok(Request::Other),
    }
}

// A request without a command.
#[tactic(auto, unfolding(crate::specs::RequestParser::plain_of))]
fn plain_request(text: &[u8]) -> Request
    ensures { result ≡ plain_of text.now }
{
    let Some((letter, rest)) = text.split_first() else {
        return Request::Other;
    };
    match *letter {
        b'q' => query(text),
        b'm' => memory(rest),
        b'p' => register(rest),
        b'Z' => insert(rest),
        b'z' => remove(rest),
        b'H' => Request::SetThread,
        b'G' | b'P' | b'M' | b'X' => Request::Write,
        _ => whole(text),
    }
}

// A request that begins with `q`, without a command.
#[tactic(auto, unfolding(crate::specs::RequestParser::query_of))]
fn query(text: &[u8]) -> Request
    ensures { result ≡ query_of text.now }
{
    if text.starts_with(b"qSupported:") {
        return Request::Supported;
    }
    match text.strip_prefix(b"qXfer:features:read:target.xml:") {
        Some(fields) => features(fields),
        None => whole(text),
    }
}

fn features(fields: &[u8]) -> Request
    ensures { result ≡ features_of fields.now }
{
    match numbers(fields) {
        Some((from, len)) => Request::Features { from, len },
        None => Request::Other,
    }
}

fn memory(fields: &[u8]) -> Request
    ensures { result ≡ memory_of fields.now }
{
    match numbers(fields) {
        Some((at, len)) => Request::Memory { at, len },
        None => Request::Other,
    }
}

fn register(digits: &[u8]) -> Request
    ensures { result ≡ register_of digits.now }
{
    match number(digits) {
        Some(n) => Request::Register(n),
        None => Request::Other,
    }
}

fn insert(rest: &[u8]) -> Request
    ensures { result ≡ insert_of rest.now }
{
    match stop(rest) {
        Some((kind, at, len)) => Request::Insert { kind, at, len },
        None => Request::Other,
    }
}

fn remove(rest: &[u8]) -> Request
    ensures { result ≡ remove_of rest.now }
{
    match stop(rest) {
        Some((kind, at, len)) => Request::Remove { kind, at, len },
        None => Request::Other,
    }
}

// The kind, the address and the length after `Z` or `z`.
#[tactic(auto, unfolding(crate::specs::RequestParser::stop_of))]
fn stop(rest: &[u8]) -> Option<(StopKind, u32, u32)>
    ensures { result ≡ stop_of rest.now }
{
    let [letter, b',', fields @ ..] = rest else {
        return None;
    };
    let kind = stop_kind(*letter)?;
    let (at, len) = numbers(fields)?;
    Some((kind, at, len))
}

fn stop_kind(letter: u8) -> Option<StopKind>
    ensures { result ≡ kind_of letter }
{
    match letter {
        b'0' | b'1' => Some(StopKind::Breakpoint),
        b'2' => Some(StopKind::WriteWatch),
        _ => None,
    }
}

// A request that is spelled in one way.
#[tactic(auto, unfolding(crate::specs::RequestParser::whole_of))]
fn whole(text: &[u8]) -> Request
    ensures { result ≡ whole_of text.now }
{
    if text == b"?".as_slice() {
        Request::Why
    } else if text == b"g".as_slice() {
        Request::Registers
    } else if text == b"s".as_slice() {
        Request::Move(Motion::Step)
    } else if text == b"c".as_slice() {
        Request::Move(Motion::Continue)
    } else if text == b"bs".as_slice() {
        Request::Move(Motion::StepBack)
    } else if text == b"bc".as_slice() {
        Request::Move(Motion::ContinueBack)
    } else if text == b"D".as_slice() {
        Request::Detach
    } else if text == b"k".as_slice() {
        Request::Kill
    } else if text == b"qAttached".as_slice() {
        Request::Attached
    } else if text == b"qSupported".as_slice() {
        Request::Supported
    } else if text == b"QStartNoAckMode".as_slice() {
        Request::NoAcks
    } else {
        Request::Other
    }
}
