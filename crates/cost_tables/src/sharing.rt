// What the splits of the next rows cost, shared by workers.
ghost use Rattle.std.specs.Prelude.{◌≡◌, ℕ, ◌+◌, ◌-◌, ◌*◌, ◌/◌, ◌^◌, ◌<◌, ◌≤◌, ◌++◌, length, All, IfOk, OnOk, slice_index_or};
ghost use Rattle.cost_tables.specs.Rows.{IsRow, cut_of, row_in, IsPiece, AreStarted, ArePieces, AreFew};

use crate::columns::slot_piece;
use crate::rows::Row;
use plan_types::Gate;
use std::alloc::{AllocError, Global};
use std::thread;
use std::thread::Threads;

// The costs of splits over filled rows for the next rows, at some numbers of free slots.
pub(crate) type Pieces = Vec<Vec<u64>>;

// Where the i-th of so many pieces of a row begins.
fn cut(room: usize, pieces: usize, i: usize) -> usize
    requires room { room ≤ 64 }
    requires pieces { (1 ≤ pieces) × (pieces ≤ 64) }
    requires i { i ≤ pieces }
    ensures value { result ≡ cut_of room pieces i }
    ensures within { result ≤ room }
{
    i * room / pieces
}

// The costs of the splits over filled rows, for each next row, from m = low to high.
fn rows_piece(
    alloc: Global,
    rows: &[Row],
    room: usize,
    forward: u64,
    count: usize,
    low: usize,
    high: usize,
) -> Result<Pieces, AllocError>
    requires forward { forward < 2 ^ 32 }
    requires few { length rows.now + count ≤ 8192 }
    requires shapes { All (IsRow room) rows.now }
    requires order { low ≤ high }
    requires within { high ≤ room }
    ensures { IfOk result (λ pieces. AreStarted rows.now forward count low high pieces.items) }
{
    let mut pieces = Vec::with_capacity(alloc, high - low)?;
    for m in low..high {
        pieces.push(slot_piece(alloc, rows, room, forward, count, m)?)?;
    }
    Ok(pieces)
}

// The i-th piece of each row, after passing the gate.
fn gated_piece<G: Gate>(
    alloc: Global,
    gate: &G,
    pieces: usize,
    i: usize,
    rows: &[Row],
    room: usize,
    forward: u64,
    count: usize,
) -> Result<Pieces, AllocError>
    requires forward { forward < 2 ^ 32 }
    requires few { length rows.now + count ≤ 8192 }
    requires shapes { All (IsRow room) rows.now }
    requires room { room ≤ 64 }
    requires pieces { (1 ≤ pieces) × (pieces ≤ 64) }
    requires i { i < pieces }
    ensures { IfOk result (λ p. AreStarted rows.now forward count (cut_of room pieces i) (cut_of room pieces (i + 1)) p.items) }
{
    gate.enter(i as u32);
    let low = cut(room, pieces, i);
    let high = cut(room, pieces, i + 1);
    rows_piece(alloc, rows, room, forward, count, low, high)
}

// All pieces, each filled by a worker. The rows are so few that nearly all of their splits use filled rows.
pub(crate) fn start_rows<R: Threads + Sync, G: Gate + Sync>(
    rt: &R,
    alloc: Global,
    gate: &G,
    pieces: usize,
    rows: &[Row],
    room: usize,
    forward: u64,
    count: usize,
) -> Result<Vec<Result<Pieces, AllocError>>, AllocError>
    requires forward { forward < 2 ^ 32 }
    requires few { length rows.now + count ≤ 8192 }
    requires share { AreFew (length rows.now) count }
    requires shapes { All (IsRow room) rows.now }
    requires room { room ≤ 64 }
    requires pieces { (1 ≤ pieces) × (pieces ≤ 64) }
    ensures long { IfOk result (λ parts. length parts.items ≡ pieces) }
    ensures each { IfOk result (λ parts. (i : ℕ) (d : _) → i < pieces →
        IfOk (slice_index_or parts.items i d) (λ p. AreStarted rows.now forward count (cut_of room pieces i) (cut_of room pieces (i + 1)) p.items)) }
{
    thread::map_indices(
        rt,
        alloc,
        pieces,
        &|i| gated_piece(alloc, gate, pieces, i, rows, room, forward, count),
    )
}

// Appends what one piece has of row q.
fn join_piece(costs: &mut Vec<u64>, pieces: &[Vec<u64>], q: usize) -> Result<(), AllocError>
    requires { All (λ slot. q < length slot.items) pieces.now }
    ensures { OnOk result (costs.new.items ≡ costs.old.items ++ row_in q pieces.now) }
{
    for slot in pieces {
        costs.push(slot[q])?;
    }
    Ok(())
}

// All pieces of row q, one after the other.
pub(crate) fn joined(
    alloc: Global,
    parts: &[Result<Pieces, AllocError>],
    q: usize,
    room: usize,
) -> Result<Vec<u64>, AllocError>
    requires room { room ≤ 64 }
    requires pieces { (1 ≤ length parts.now) × (length parts.now ≤ 64) }
    requires long { (i : ℕ) (d : _) → i < length parts.now → IfOk (slice_index_or parts.now i d) (λ p. All (λ slot. q < length slot.items) p.items) }
    ensures { (cost : ℕ → ℕ) → ArePieces cost q room parts.now → IfOk result (λ costs. IsPiece cost 0 room costs.items) }
{
    let mut costs = Vec::with_capacity(alloc, room)?;
    for part in parts {
        match part {
            Ok(pieces) => join_piece(&mut costs, pieces, q)?,
            Err(error) => return Err(*error),
        }
    }
    Ok(costs)
}
