//! Refusals and failures.
ghost use Rattle.std.specs.Prelude.{◌≡◌, ◌++◌, OnOk};
ghost use Rattle.tile_front.specs.Answers as spec;

use crate::texts::put_text;
use farm_base::NoMemory;
use std::alloc::Global;

/// Why a request has no other answer.
#[derive(Clone, Copy)]
pub enum Fault {
    /// No head of a request came.
    BadRequest,
    /// There is no such target, or no such tile.
    NotFound,
    /// The method is not `GET`.
    NotAllowed,
    /// The tile could not be read.
    Failed,
}

/// Puts the answer of a fault: 400, 404, 405 or 500, and the reason as a line.
pub fn put_fault(alloc: Global, fault: Fault, response: &mut Vec<u8>) -> Result<(), NoMemory>
    ensures { OnOk result (response.new.items ≡ response.old.items ++ spec.fault_answer fault) }
{
    match fault {
        Fault::BadRequest => put_text(alloc, "400 Bad Request", "Bad Request\n", response),
        Fault::NotFound => put_text(alloc, "404 Not Found", "Not Found\n", response),
        Fault::NotAllowed => {
            put_text(
                alloc,
                "405 Method Not Allowed",
                "Method Not Allowed\n",
                response,
            )
        }
        Fault::Failed => {
            put_text(
                alloc,
                "500 Internal Server Error",
                "Internal Server Error\n",
                response,
            )
        }
    }
}
