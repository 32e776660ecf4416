//! Drawings of a farm: what they share of its plan and data, those to be made, those under way, and which
//! metatiles there are. And why a farm is not resumed: what was saved of one, checked against a plan.
//!
//! What is proved: Shares of a plan and of one version of its data (`Setup`, `Share`), the drawings that hold one
//! (`Job`: its style is the plan's by `styled_as`, and its data are the share's), the drawings under way as a list that
//! an expiry touches (`touch_tile`, `touch_map`, `touch_key`), and `serve`: the metatile of a spot, `None` exactly
//! where it cannot be served. A style and a snapshot are shared without memory. What was saved of a farm, checked
//! against a plan (`check`): the first fault is answered, of the number of maps, of the numbers of styles and updates,
//! and of the clean metatiles (`form_fault`; `resume_fault` goes on through the updates themselves).
#![tactic(auto)]

mod crossing;
mod faults;
mod jobs;
mod saved;
mod serving;
mod shares;
mod taken;

pub use crossing::{cross_share, cross_taken};
pub use faults::{ResumeFault, check, refused_at};
pub use jobs::Job;
pub use saved::{copied, styles_given};
pub use serving::serve;
pub use shares::{Setup, Share, know_plan, make_shares};
pub use taken::{
    Taken, drop_taken, is_overtaken, overtaken, taken_of, touch_key, touch_map, touch_tile,
};
