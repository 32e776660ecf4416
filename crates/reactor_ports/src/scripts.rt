//! Whether a script's steps are in order.
ghost use Rattle.std.specs.Prelude.{◌≡◌, true, [], IfOk};
ghost use Rattle.reactor_ports.specs.Scripts.{is_valid, is_alive_in, is_piece};
ghost use Rattle.reactor_ports.specs.inner.Moving.{Follows};

use crate::port_steps::PortStep;
use farm_base::{MOST_PIECE_BYTES, NoMemory};
use std::alloc::Global;

fn is_alive(alive: &[bool], conn: u32) -> bool
    ensures { result ≡ is_alive_in alive.now conn }
{
    match alive.get(conn as usize) {
        Some(flag) => *flag,
        None => false,
    }
}

fn is_piece(piece: &[u8]) -> bool
    ensures { result ≡ is_piece piece.now }
{
    !piece.is_empty() && piece.len() <= MOST_PIECE_BYTES
}

// Whether a step is in order after others that left these connections alive, which it changes.
fn follows(alive: &mut Vec<bool>, step: &PortStep) -> Result<bool, NoMemory>
    ensures { IfOk result (Follows alive.old.items step.now alive.new.items) }
{
    match step {
        PortStep::Open => alive.push(true)?,
        PortStep::Bytes(conn, piece) => {
            return Ok(is_alive(alive.as_slice(), *conn) && is_piece(piece.as_slice()));
        }
        PortStep::End(conn) => {
            if !is_alive(alive.as_slice(), *conn) {
                return Ok(false);
            }
            alive[*conn as usize] = false;
        }
        PortStep::Lose(conn) => {
            if !is_alive(alive.as_slice(), *conn) {
                return Ok(false);
            }
            alive[*conn as usize] = false;
        }
        PortStep::Await(_, _) => {}
        PortStep::Break => {}
    }
    Ok(true)
}

/// Whether the steps are in order: each piece, end and loss is of a connection that was opened and
/// neither ended nor lost, and each piece has 1 to 4,096 bytes.
pub fn are_valid(alloc: Global, steps: &[PortStep]) -> Result<bool, NoMemory>
    ensures { IfOk result (λ valid. valid ≡ is_valid [] steps.now) }
{
    let mut alive: Vec<bool> = Vec::new(alloc);
    for step in steps {
        if !follows(&mut alive, step)? {
            return Ok(false);
        }
    }
    Ok(true)
}
