//! The top call.
ghost use Rattle.std.specs.Prelude.{◌≡◌, [], IfOk, map, string_bytes};
ghost use Rattle.farm_runs.specs.Actors.{each_port, three};
ghost use Rattle.farm_call.specs.declared.left.Left.TheVariants.{Store};
ghost use Rattle.farm_call.specs.Keeps.{Keeps};
ghost use Rattle.farm_call.specs.inner.Serving.{left_by, over};
ghost use Rattle.farm_call.specs.inner.Runs.{IsSound, RunsRead};

use crate::ends::FarmEnd;
use crate::left::{Done, Left};
use crate::serve::serve_config;
use exit_status::{Stop, report};
use farm_base::{Bell, Files, Sink};
use farm_words::{Command, WordsFault, read_words};
use load_command::load;
use reactor_ports::{Ports, ThreePorts};
use render_command::{RenderWords, meta, render};
use script_command::script;
use std::alloc::Global;
use std::rt::Clock;
use std::sync::Wait;
use std::thread::Threads;
use tile_store::{Stage, TileStore};

/// Does what the words ask for, over the files, the sinks, the store and the ports that are handed
/// in, and answers the exit status: 0 where the command's work was done to its end, 1 where the
/// content of a file, or of what is saved in the store, is refused, 2 where the words are, 3 where
/// a file cannot be read, 4 where a put on `out` or `err` failed, 5 for want of memory, 6 where a
/// call of the store failed that the command's end depends on, 7 where a port failed, and 8 where
/// all turns of a farm were drawn. With 1, 2, 3 and 5 to 8 the line of the status stands on `err`,
/// and nothing else; with 0 nothing; with 4 nothing, or a front of the line that could not be put.
/// The store is handed back with what was put into it, in a farm with its history where one was
/// served.
///
/// The words are those after the program's name: `render STYLE DATA T Z X Y`, `script CONFIG
/// SCRIPT`, `serve CONFIG`, `load SEED N` or `meta FILE`. With `serve` it may wait; none of the
/// ports has an open connection.
pub fn farm_main<
    R: Threads + Wait + Clock + Sync,
    F: Files,
    O: Sink,
    E: Sink,
    D: TileStore + Send,
    P: Ports + Send,
    B: Bell + Send + Sync,
    G: Stage + Sync,
>(
    rt: &R,
    alloc: Global,
    words: &[String],
    files: &mut F,
    out: &mut O,
    err: &mut E,
    store: D,
    ports: &mut ThreePorts<P, B>,
    gate: &G,
) -> FarmEnd<D>
    // All that is promised of it stands in `specs/Keeps.antt`, of what the call was handed and what
    // it left.
    ensures { Keeps D.state
        (record {
          words = map string_bytes words.now;
          files = F.state files.old;
          out = O.state out.old;
          err = E.state err.old;
          store = store;
          ports = three (P.state ports.old.renderd) (P.state ports.old.tiles)
              (P.state ports.old.control);
        })
        (record {
          status = result.status;
          files = F.state files.new;
          out = O.state out.new;
          err = E.state err.new;
          left = result.left;
          fronts = result.fronts.items;
          ports = three (P.state ports.new.renderd) (P.state ports.new.tiles)
              (P.state ports.new.control);
        }) }
{
    let read = read_words(alloc, words);
    let done = do_command(rt, alloc, read, files, out, store, ports, gate);
    let status = report(err, &done.end);
    FarmEnd {
        status,
        left: done.left,
        fronts: done.fronts,
    }
}

fn stored<D: TileStore>(alloc: Global, end: Result<(), Stop>, store: D) -> Done<D>
    ensures end { result.end ≡ end }
    ensures left { result.left ≡ Store store }
    ensures no_fronts { result.fronts.items ≡ [] }
{
    Done {
        end,
        left: Left::Store(store),
        fronts: Vec::new(alloc),
    }
}

fn do_command<
    R: Threads + Wait + Clock + Sync,
    F: Files,
    O: Sink,
    D: TileStore + Send,
    P: Ports + Send,
    B: Bell + Send + Sync,
    G: Stage + Sync,
>(
    rt: &R,
    alloc: Global,
    read: Result<Command, WordsFault>,
    files: &mut F,
    out: &mut O,
    store: D,
    ports: &mut ThreePorts<P, B>,
    gate: &G,
) -> Done<D>
    requires sound { IfOk read (λ command. IsSound command) }
    ensures { RunsRead D.state read (F.state files.old) (F.state files.new) store
        (over (O.state out.old) store (each_port P.state ports.old))
        (left_by (O.state out.new) result (each_port P.state ports.new)) result.end }
{
    match read {
        Ok(Command::Render(style, data, size, tile)) => {
            let asked = RenderWords {
                style: style.as_str(),
                data_file: data.as_str(),
                size,
                tile,
            };
            let end = render(alloc, asked, files, out);
            stored(alloc, end, store)
        }
        Ok(Command::Script(config, lines)) => {
            let (end, store) = script(alloc, config.as_str(), lines.as_str(), files, out, store);
            stored(alloc, end, store)
        }
        Ok(Command::Serve(config)) => {
            serve_config(rt, alloc, config.as_str(), files, out, store, ports, gate)
        }
        Ok(Command::Load(seed, features)) => {
            let (end, store) = load(alloc, seed, features, out, store);
            stored(alloc, end, store)
        }
        Ok(Command::Meta(file)) => {
            let end = meta(alloc, file.as_str(), files, out);
            stored(alloc, end, store)
        }
        Err(WordsFault::Refused) => stored(alloc, Err(Stop::Words), store),
        Err(WordsFault::NoMemory) => stored(alloc, Err(Stop::NoMemory), store),
    }
}
