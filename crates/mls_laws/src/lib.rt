//! What the definitions mean: laws over one state or over a whole journal, which claim no flow over time. A subject may
//! observe, release, lower its level and write down what it remembers. The functions do nothing: each is a law, which
//! its contract states. An empty body can't be wrong, so there are no must-fail edits; the laws of `examples` show that
//! the others speak of something.
#![tactic(auto)]

mod accesses;
mod creation;
mod deletion;
mod denials;
mod examples;
mod falling;
mod flow;
mod machine_z;
mod reading;
mod seven;
mod unchanging;

pub use accesses::{
    accesses_end_by_release_rescission_or_deletion, every_access_has_its_reason,
    rescinding_is_final,
};
pub use creation::a_new_object_holds_nothing_of_an_old_one;
pub use deletion::a_deletion_takes_what_reaches_the_object;
pub use denials::{denied_requests_can_be_left_out, denied_requests_change_nothing};
pub use examples::{
    a_secure_state_has_an_access, each_reply_is_given, some_accesses_have_a_reason,
    something_flows, system_z_grants_what_the_monitor_denies,
};
pub use falling::{labels_change_only_when_it_is_granted, no_object_label_falls_by_itself};
pub use flow::{
    integrity_is_not_lifted, nothing_flows_down, objects_that_feed_each_other_have_one_integrity,
    objects_that_flow_to_each_other_have_one_label, subjects_see_what_they_are_cleared_for,
    subjects_use_what_is_as_trustworthy,
};
pub use machine_z::{
    system_z_grants_every_access, system_z_keeps_every_state_secure, the_monitor_is_not_system_z,
};
pub use reading::reads_determine_the_state;
pub use seven::{each_property_can_be_broken_alone, secure_is_all_seven};
pub use unchanging::{
    deleted_numbers_never_come_back, objects_keep_their_integrity, what_subjects_may_never_changes,
};
