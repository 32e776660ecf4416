//! A farm of one map of small tiles, over no features, and a script for it.
ghost use Rattle.std.specs.Prelude.{IfSome};
ghost use Rattle.farm_plan.specs.Plans.{IsPlan};

use farm_base::{Bytes, MemFiles, NoMemory, Text};
use farm_files::{ScriptInputs, script_files};
use std::alloc::Global;

// Two connections ask for one metatile, and one drawing answers both.
const FILES: [(&str, &[u8]); 4] = [
    (
        "C",
        br#"{"maps":[{"name":"default","style":"S","tile":16}],"data":"D","workers":4}"#,
    ),
    ("S", br#"{"styles":[],"layers":[]}"#),
    ("D", br#"{"layers":[]}"#),
    (
        "T",
        b"ask 0 render default 0 0 0\nask 1 render default 0 0 0\nclaim 0\nclaim 1\nfinish 0\nfinish 0\ncollect 0\ncollect 0\ncollect 0\nask 2 render default 0 0 0\n",
    ),
];

fn files(alloc: Global) -> Result<MemFiles, NoMemory> {
    let mut files = Vec::new(alloc);
    for (name, bytes) in FILES {
        files.push((Text::of(alloc, name)?, Bytes::of(alloc, bytes)?))?;
    }
    MemFiles::new(alloc, files, Vec::new(alloc))
}

/// The plan and the script. None where a file is refused, or memory was wanting.
pub(crate) fn inputs(alloc: Global) -> Option<ScriptInputs>
    ensures { IfSome result (λ s. IsPlan s.inputs.plan) }
{
    let mut files = files(alloc).ok()?;
    let inputs = script_files(alloc, &mut files, "C", "T");
    drop(files);
    inputs.ok()
}
