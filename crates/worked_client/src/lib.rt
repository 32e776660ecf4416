//! What a client concludes of one tile that it fetched over one connection: what a caller of the top call does with its clause,
//! worked once. No command stands on it.
//!
//! What is proved: `law_client`: of whatever farm the call leaves, a client that asked over a connection of the tile front for
//! one tile, if for anything, was sent nothing, or the first bytes of the message that answers a fetch of it, made at a moment of
//! all that happened; where that says clean, its picture is the plain drawing (`LawClient`).
#![tactic(auto)]

ghost use Rattle.worked_client.specs.Client.{LawClient};

use tile_store::TileStore;

/// Whoever has what `farm_main` keeps has of a client what it wants to know: that a tile which it was sent as clean is the
/// plain drawing of that tile, over the data of one version, taken after the last expiry that touches it.
pub fn law_client<D: TileStore>()
    ensures { LawClient D.state }
{}
