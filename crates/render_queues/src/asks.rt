//! The asks that wait, in one list in the order in which they came: the chain of a key is those of its asks.
ghost use Rattle.std.specs.Prelude.{◌≡◌, ◌+◌, ◌<◌, ◌≤◌, IsSome, not, ◌++◌, length, map, filter, vec_len};
ghost use Rattle.std.specs.Vec.{vec_capacity};
ghost use Rattle.render_queues.specs.Tables.{waits_on, reply_with, with_waiter};

use farm_history::{Key, Outcome, Reply, Waiter};

/// An ask that waits for a metatile.
#[derive(Clone, Copy)]
pub struct Asked {
    pub key: Key,
    pub waiter: Waiter,
}

impl Asked {
    // Whether it waits for the key. Columns are compared first, since most asks differ in them.
    fn is_for(&self, key: Key) -> bool
        ensures { result ≡ waits_on key self.now }
    {
        let (mine, meta) = (self.key.meta, key.meta);
        mine.x == meta.x && mine.y == meta.y && mine.z == meta.z && self.key.map == key.map
    }
}

/// Adds the replies to the asks that wait for the key.
pub(crate) fn reply_all(asks: &[Asked], key: Key, outcome: Outcome, ended: &mut Vec<Reply>)
    requires room { vec_len ended.old + length asks.now ≤ vec_capacity ended.old }
    ensures replies { ended.new.items
        ≡ ended.old.items ++ map (reply_with outcome) (filter (waits_on key) asks.now) }
    ensures room { vec_capacity ended.new ≡ vec_capacity ended.old }
{
    for ask in asks {
        if ask.is_for(key) {
            ended.push_reserved(Reply {
                conn: ask.waiter.conn,
                ask: ask.waiter.ask,
                outcome,
            });
        }
    }
}

/// Drops the asks that wait for the key.
pub(crate) fn drop_asks_on(asks: &mut Vec<Asked>, key: Key)
    ensures asks { asks.new.items ≡ filter (λ a. not (waits_on key a)) asks.old.items }
    ensures room { vec_capacity asks.new ≡ vec_capacity asks.old }
{
    asks.retain(|ask| !ask.is_for(key));
}

/// Adds the ask of the waiter, if there is one.
pub(crate) fn add_ask(asks: &mut Vec<Asked>, key: Key, waiter: Option<Waiter>)
    requires room { IsSome waiter → vec_len asks.old < vec_capacity asks.old }
    ensures asks { asks.new.items ≡ with_waiter asks.old.items key waiter }
    ensures room { vec_capacity asks.new ≡ vec_capacity asks.old }
{
    if let Some(waiter) = waiter {
        asks.push_reserved(Asked { key, waiter });
    }
}
