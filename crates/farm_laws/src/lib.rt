//! The laws of a farm's histories, for all plans and all histories, and what a farm promises, in four sentences
//! over the history of what happened to it.
//!
//! Each function here has an empty body. Its contract is a law over the definitions alone, and the check
//! proves it: what a call of a farm promises in these words holds with the laws. `specs/Promise.antt` says the four
//! sentences: in terms of a farm's own plan, of the plain drawing of its styles over its data, and of where entries
//! stand in the history. Each legal history keeps them.
//!
//! What is proved: `law_sound`, `law_apart` and `law_one_reply` for every plan and every history, `law_local`: of the
//! plain drawing, a tile depends on the features alone that reach it; `law_now` for every valid farm plan whose
//! symbolizers keep their ranges, and histories without plain updates, over a store that tells; `law_resumed`: the
//! replay of what is saved of a legal history resumes it; worked histories are legal and mistaken ones are not, by
//! computation. `law_promise`: each legal history of a valid plan keeps the four sentences of `specs/Promise.antt`:
//! every tile sent as clean is the plain drawing, byte for byte, of its map's style over the data of one version, taken
//! after the last entry that touches it; between two Claims of one metatile stands the Finish of the first; what is
//! touched while it is being drawn stays dirty until a drawing that was claimed later is stored; every Done names a
//! metatile that was clean at the ask or stored after it.
#![tactic(auto)]

ghost use Rattle.std.specs.Prelude.{true, false, ◌≡◌};
ghost use Rattle.farm_history.specs.Laws.{IsLocal, LawApart, LawNow, LawOneReply, LawSound, has_plain_update};
ghost use Rattle.farm_history.specs.Replays.{LawResumed, IsSaved, replay};
ghost use Rattle.farm_history.specs.Rules.{Legal};
ghost use Rattle.farm_laws.specs.Promise.{LawPromise};
ghost use Rattle.farm_laws.specs.Locality.{LawLocal, LawPassedOver, LawSentNow, LawUpdatesLocal};
ghost use Rattle.farm_laws.specs.Examples.{changing, changed, saved_changes, resumed_changes, low_narrow, narrow, plain, renewed, restyled, updated, asked_twice, expired_while_drawn, updated_then_expired, expired_from_above, updated_while_drawn, queues_filled, asked_just_often, asked_too_often, put_failed, drawing_cut, left_alone, lifted_from_bulk, marked_dirty, restyled_while_drawn, renewed_one, renewed_both, has_each};
ghost use Rattle.farm_laws.specs.Mistakes.{IsMistake, stored_clean_though_expired, clean_by_version, dirty_by_update, updated_past_the_table, update_fault_passed_over, queued_while_drawn, claimed_twice, replied_out_of_order, drawn_over_newest_data, expired_on_its_zoom_alone, expired_beside, joined_though_overtaken, dirty_before_low, dropped_though_room, deferred_past_the_limit, more_drawn_than_workers, claimed_after_stop, shown_after_failed_put, done_after_failed_put, stored_though_cut, ended_twice, replied_though_left, left_with_its_items, counted_before_collected, queued_a_second_time, joined_in_bulk, marked_and_clean, clean_in_the_old_style, drawn_in_the_old_style, restyled_past_the_table, clean_though_reached, renewed_out_of_reach, gone_though_told};

/// In each legal history of a valid plan: every tile sent as clean is the plain drawing, byte for byte, of its
/// map's style over the data of one version, which was taken after the last entry that touches it; between two
/// Claims of one metatile stands the Finish of the first; what is touched while it is being drawn stays dirty until
/// a drawing of it that was claimed later is stored; and every Done names a metatile that was clean at the ask or
/// stored after it. What is said of bytes, it says of histories that are legal over a store that tells.
pub fn law_promise()
    ensures { LawPromise }
{}

/// In each legal history: every tile sent as clean is of a drawing that was claimed and then stored, and nothing
/// has touched its metatile since that claim; over a store that tells its content, its bytes are those that the
/// plan's `drawing` gives in the style and over the data before the claim; no metatile is drawn twice at once;
/// what is touched while it is being drawn is stored as dirty and stays dirty until a later drawing of it is
/// stored; and every Done names a metatile that was clean at the ask or stored after it.
///
/// The plan's `drawing` is any function here. Nothing in this law ties it to the plain drawing of a style.
pub fn law_sound()
    ensures { LawSound }
{}

/// In each legal history a metatile never waits and is drawn at once, and a clean one does neither.
pub fn law_apart()
    ensures { LawApart }
{}

/// In each legal history the numbers of asks differ, and each ask has at most one reply. The reply goes to
/// the asker's connection, and there is none after a Leave of that connection that stands after the ask.
pub fn law_one_reply()
    ensures { LawOneReply }
{}

/// Over plans whose drawing is local at the spots that can be served: in each legal history in which every
/// update that succeeds is made as a renew, over a store that tells its content, every tile sent as clean is
/// as the plan draws it in its map's style and over the data of that very moment.
pub fn law_now_where_local()
    ensures { LawNow }
{}

/// For each plan with a worker and room in its bulk queue: where what is saved after a legal history is
/// replayed, the replay is legal over any store; its data are those of the history; what is clean after the
/// history is clean after it, at the same version, over the same data and in the same style; and nothing else
/// is shown.
pub fn law_resumed()
    ensures { LawResumed }
{}

/// A tile depends on the features alone that reach it, that is, whose bounding box, widened by 64 pixels on
/// each side, holds a point of the tile's square. A feature that does not reach it changes none of its bytes,
/// wherever it stands in its layer; data whose layers have, name by name, the same features that reach it draw
/// the same tile; and so, in each valid plan, an update that names no feature which reaches a metatile changes
/// no byte of the metatile's tiles. Styles are those whose symbolizers keep their ranges, as every `MapStyle`.
pub fn law_local()
    ensures passed_over { LawPassedOver }
    ensures alike { LawLocal }
    ensures updates { LawUpdatesLocal }
{}

/// For each valid plan whose symbolizers keep their ranges, as those of each farm's plan do (`Farm::law_ranged`): in
/// each legal history in which every update that succeeds is made as a renew, over a store that tells its content,
/// every tile sent as clean is the plain drawing in its map's style and over the data of that very moment.
pub fn law_now()
    ensures { LawSentNow }
{}

/// Example histories of small farms are legal, among them one that has all that the laws speak of: a tile
/// sent as clean, a drawing stored as dirty, an ask answered Done and a reply Done. `specs/Examples.antt`
/// has them, each with a line on what it shows. Over a store that does not tell its content, a read may find
/// that what is shown is gone.
pub fn example_histories()
    ensures speaks { has_each expired_while_drawn ≡ true }
    ensures draws_locally { IsLocal renewed }
    ensures updates_by_renews { has_plain_update renewed_one ≡ false }
    ensures asked_twice_legal { Legal plain true asked_twice }
    ensures expired_while_drawn_legal { Legal plain true expired_while_drawn }
    ensures updated_then_expired_legal { Legal updated true updated_then_expired }
    ensures expired_from_above_legal { Legal plain true expired_from_above }
    ensures updated_while_drawn_legal { Legal updated true updated_while_drawn }
    ensures queues_filled_legal { Legal narrow true queues_filled }
    ensures asked_just_often_legal { Legal plain true asked_just_often }
    ensures asked_too_often_legal { Legal plain true asked_too_often }
    ensures put_failed_legal { Legal plain true put_failed }
    ensures drawing_cut_legal { Legal plain true drawing_cut }
    ensures left_alone_legal { Legal plain true left_alone }
    ensures lifted_from_bulk_legal { Legal low_narrow true lifted_from_bulk }
    ensures marked_dirty_legal { Legal plain true marked_dirty }
    ensures restyled_while_drawn_legal { Legal restyled true restyled_while_drawn }
    ensures renewed_one_legal { Legal renewed true renewed_one }
    ensures changed_legal { Legal changing true changed }
    ensures saved_changes_is { IsSaved changing changed saved_changes }
    ensures resumed_changes_is { replay changing saved_changes ≡ resumed_changes }
    ensures resumed_changes_legal { Legal changing true resumed_changes }
    ensures renewed_both_legal { Legal renewed true renewed_both }
    ensures gone_untold_legal { Legal plain false gone_though_told }
{}

/// Histories that are legal up to their last entry, whose answer is a mistake, are refused there.
/// `specs/Mistakes.antt` has them, each named by its mistake.
pub fn refused_mistakes()
    ensures no_stored_clean_though_expired { IsMistake plain stored_clean_though_expired }
    ensures no_clean_by_version { IsMistake plain clean_by_version }
    ensures no_dirty_by_update { IsMistake updated dirty_by_update }
    ensures no_updated_past_the_table { IsMistake updated updated_past_the_table }
    ensures no_update_fault_passed_over { IsMistake updated update_fault_passed_over }
    ensures no_queued_while_drawn { IsMistake plain queued_while_drawn }
    ensures no_claimed_twice { IsMistake plain claimed_twice }
    ensures no_replied_out_of_order { IsMistake plain replied_out_of_order }
    ensures no_drawn_over_newest_data { IsMistake updated drawn_over_newest_data }
    ensures no_expired_on_its_zoom_alone { IsMistake plain expired_on_its_zoom_alone }
    ensures no_expired_beside { IsMistake plain expired_beside }
    ensures no_joined_though_overtaken { IsMistake plain joined_though_overtaken }
    ensures no_dirty_before_low { IsMistake narrow dirty_before_low }
    ensures no_dropped_though_room { IsMistake narrow dropped_though_room }
    ensures no_deferred_past_the_limit { IsMistake narrow deferred_past_the_limit }
    ensures no_more_drawn_than_workers { IsMistake narrow more_drawn_than_workers }
    ensures no_claimed_after_stop { IsMistake plain claimed_after_stop }
    ensures no_shown_after_failed_put { IsMistake plain shown_after_failed_put }
    ensures no_done_after_failed_put { IsMistake plain done_after_failed_put }
    ensures no_stored_though_cut { IsMistake plain stored_though_cut }
    ensures no_ended_twice { IsMistake plain ended_twice }
    ensures no_replied_though_left { IsMistake plain replied_though_left }
    ensures no_left_with_its_items { IsMistake plain left_with_its_items }
    ensures no_counted_before_collected { IsMistake plain counted_before_collected }
    ensures no_queued_a_second_time { IsMistake plain queued_a_second_time }
    ensures no_joined_in_bulk { IsMistake plain joined_in_bulk }
    ensures no_marked_and_clean { IsMistake plain marked_and_clean }
    ensures no_clean_in_the_old_style { IsMistake restyled clean_in_the_old_style }
    ensures no_drawn_in_the_old_style { IsMistake restyled drawn_in_the_old_style }
    ensures no_restyled_past_the_table { IsMistake restyled restyled_past_the_table }
    ensures no_clean_though_reached { IsMistake renewed clean_though_reached }
    ensures no_renewed_out_of_reach { IsMistake renewed renewed_out_of_reach }
    ensures no_gone_though_told { IsMistake plain gone_though_told }
{}
