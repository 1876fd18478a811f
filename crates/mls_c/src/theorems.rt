//! What holds of numbers. The functions do nothing: each is a law, which its contract states.
ghost use Rattle.std.specs.Prelude.{◌≡◌, ◌≤◌, ◌∷◌, ℕ, IsTrue, Some};
ghost use Rattle.mls_labels.specs.Label.{Label as LabelView};
ghost use Rattle.mls_requests.specs.declared.entry.Entry.{Entry as EntryView};
ghost use Rattle.mls_requests.specs.declared.reply.Reply.{Reply as ReplyView};
ghost use Rattle.mls_requests.specs.declared.request.Request.{Request as RequestView};
ghost use Rattle.mls_requests.specs.declared.action.Action.TheVariants.{Get};
ghost use Rattle.mls_requests.specs.declared.reason.Reason.TheVariants.{Discretionary};
ghost use Rattle.mls_state.specs.State.{State as StateView};
ghost use Rattle.mls_state.specs.Properties.{discretionary_holds};
ghost use Rattle.mls_rules.specs.Rules.{conditions, reply};
ghost use Rattle.mls_journal.specs.EntryText.{LabelHasRanges, ActionHasRanges, HasRanges};
ghost use Rattle.mls_explain.specs.declared.condition.Condition.{Condition as ConditionView};
ghost use Rattle.mls_c.specs.Conditions.{BasisHasRanges, numbers_of_condition, condition_count};
ghost use Rattle.mls_c.specs.LabelAsking.{get_of, HasLabels, has_bounds, label_conditions, label_reply};
ghost use Rattle.mls_c.specs.declared.label_access.LabelAccess.{LabelAccess as AccessView};
ghost use Rattle.mls_c.specs.Labels.{label_of, numbers_of_label};
ghost use Rattle.mls_c.specs.Requests.{request_of, numbers_of_request};
ghost use Rattle.mls_c.specs.Answers.{number_of_reply, object_of_reply, numbers_of_entry};

/// The numbers of a label are read as that label. So no two labels have the same.
pub fn labels_have_their_numbers()
    ensures read { (l : LabelView) → LabelHasRanges l → label_of (numbers_of_label l) ≡ Some l }
    ensures apart { (a b : LabelView) → LabelHasRanges a → LabelHasRanges b → numbers_of_label a ≡ numbers_of_label b
        → a ≡ b }
{}

/// The numbers of a request are read as that request. So no two requests have the same.
pub fn requests_have_their_numbers()
    ensures read { (r : RequestView) → ActionHasRanges r.action → request_of (numbers_of_request r) ≡ Some r }
    ensures apart { (a b : RequestView) → ActionHasRanges a.action → ActionHasRanges b.action
        → numbers_of_request a ≡ numbers_of_request b → a ≡ b }
{}

/// No two replies have the same numbers: who reads an answer knows the reply.
pub fn replies_have_their_numbers()
    ensures apart { (a b : ReplyView) → number_of_reply a ≡ number_of_reply b → object_of_reply a ≡ object_of_reply b
        → a ≡ b }
{}

/// No two entries have the same numbers: who reads an entry in numbers knows the entry.
pub fn entries_have_their_numbers()
    ensures apart { (a b : EntryView) → HasRanges a → HasRanges b → numbers_of_entry a ≡ numbers_of_entry b → a ≡ b }
{}

/// No two conditions have the same numbers: who reads a condition in numbers knows the condition. And no request has
/// more conditions than four.
pub fn conditions_have_their_numbers()
    ensures apart { (a b : ConditionView) → BasisHasRanges a.basis → BasisHasRanges b.basis
        → numbers_of_condition a ≡ numbers_of_condition b → a ≡ b }
    ensures few { (v : StateView) (r : RequestView) → condition_count v r ≤ 4 }
{}

/// What is decided by labels is what the rule for a get decides of an active object that has them. Its conditions are
/// those of the get behind the first, which is the matrix's; where that permits the get, and the bounds have the
/// labels, both replies are the same.
pub fn labels_decide_as_objects_do()
    ensures conditions { (v : StateView) (o : ℕ) (a : AccessView) → HasLabels v o a
        → conditions v a.subject (Get a.mode o)
        ≡ (Discretionary, discretionary_holds v (a.subject, o, a.mode)) ∷ label_conditions v a }
    ensures reply { (v : StateView) (o : ℕ) (a : AccessView) → HasLabels v o a → IsTrue (has_bounds v a)
        → IsTrue (discretionary_holds v (a.subject, o, a.mode)) → label_reply v a ≡ reply v (get_of a o) }
{}
