//! Laws of classes, of judging and of paths. Each is a function that does nothing: its contract is the law.

pub use cert_judge::laws::{
    adequate_is_true, exchanged_other, further_certificate, limit_is_path_length, one_true_answer,
    other_places, reordered, valid_at_the_moment, vouching_for_more,
};
pub use cert_judge::laws_by::{
    adequate_inventory_is_true_by, adequate_is_true_by, exchanged_other_by, further_certificate_by,
    one_true_answer_by, one_true_inventory_by, other_places_by, reordered_by,
    valid_at_the_moment_by, vouching_for_more_by,
};
pub use cert_model::laws::{never_both, one_class, one_spelling, one_spelling_of_lists};
