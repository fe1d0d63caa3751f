//! The limits of work orders.

ghost use Rattle.std.specs.Prelude.{◌≡◌, true, codes};
ghost use Rattle.clr_rows.specs.Names.{is_good_name};
ghost use Rattle.clr_plan_sentences.specs.declared.sentences.TheConstants.{MOST_NEEDS};
ghost use Rattle.clr_work_orders.specs.declared.trials.TheConstants.{BEFORE_TRIAL};

/// The savepoint of trials has a good name, and 12 needs of a certificate are told one by one.
pub fn limits_of_orders()
    ensures needs { MOST_NEEDS ≡ 12 }
    ensures savepoint { BEFORE_TRIAL.now ≡ codes "before_trial" }
    ensures good { is_good_name (codes "before_trial") ≡ true }
{}
