//! A list of a few keys.
ghost use Rattle.std.specs.Prelude.{◌≡◌};
ghost use Rattle.std.specs.Vec.{vec_capacity};
ghost use Rattle.farm_history.specs.Plans.{is_in};
ghost use Rattle.render_queues.specs.OneQueue.{without};

use farm_history::Key;

/// Whether the key is among the keys.
pub(crate) fn is_among(keys: &[Key], key: Key) -> bool
    ensures { result ≡ is_in key keys.now }
{
    keys.iter().any(|k| *k == key)
}

/// Drops the key.
pub(crate) fn drop_key(keys: &mut Vec<Key>, key: Key)
    ensures keys { keys.new.items ≡ without key keys.old.items }
    ensures room { vec_capacity keys.new ≡ vec_capacity keys.old }
{
    keys.retain(|k| *k != key);
}
