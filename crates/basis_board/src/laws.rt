// Laws of the rule, in plain words.
ghost use Rattle.std.specs.Prelude.{◌≡◌, ◌++◌, ℕ, List, length, Some};
ghost use Rattle.atomic_table.specs.Table.{State};
ghost use Rattle.basis_board.specs.declared.seats.Sight.{Sight};
ghost use Rattle.basis_board.specs.declared.seats.View.{View};
ghost use Rattle.basis_board.specs.Meaning.{AllMeans};
ghost use Rattle.basis_board.specs.Places.{AllTies};
ghost use Rattle.basis_board.specs.Moments.{NotesAreMadeThen, OnlyWhatIsSo, AllowedNotesAreSo, KeptInTime};
ghost use Rattle.basis_board.specs.Rule.{Consistent, OwnsBelow};
ghost use Rattle.basis_board.specs.contracts.seats.BoardRuleTableRuleU8SightU64.TheImpl.{holds-value as rule_holds};
ghost use Rattle.basis_board.specs.Seen.{words_of, IsPrefixOf};

/// In each state that keeps the rule, a load finds what the places say that the words spell. A claim adds a taken place
/// behind them. By the pass that claimed a place, the store of a payload word changes none, and the store of the done
/// word, with all 49 words stored, shows the place.
pub fn steps_are_events()
    ensures { AllTies }
{}

/// A claimed place is claimed by one pass or done. A done place is well formed, and one pass published it. Each pass
/// that has seen words of a place finds them there.
pub fn meaning()
    ensures { AllMeans }
{}

/// The words that a pass has seen of a place are the first of those that it has seen there later, by itself or after it
/// met another pass.
pub fn seen_words_stay()
    ensures later { (v : View) (more old : List (ℕ × List ℕ)) (k : ℕ) (words : List ℕ) →
        Consistent v → v.seen ≡ more ++ old →
        words_of k old ≡ Some words → (now : List ℕ) × (words_of k v.seen ≡ Some now) × IsPrefixOf words now }
    ensures met { (v : View) (old more : List (ℕ × List ℕ)) (k : ℕ) (words : List ℕ) →
        Consistent v → v.seen ≡ old ++ more →
        words_of k old ≡ Some words → (now : List ℕ) × (words_of k v.seen ≡ Some now) × IsPrefixOf words now }
{}

/// A pass that published each place below a count once, and no other, has published as many places as the count. So it
/// is of a pass that has met all others.
pub fn whole_passes_own_all()
    ensures { (v : View) (count : ℕ) → OwnsBelow v count → length v.own ≡ count }
{}

/// What a step of a pass notes was true of words between those before the step and those after it, where the rule holds
/// before and after. So a load notes only what is true when it loads.
pub fn notes_are_made_then()
    ensures { NotesAreMadeThen }
{}

/// By a load, or by a compare-exchange that fails, no kind of step notes what is not so. For example, none notes that a
/// done place is open. This holds of each step that may ever be written, too.
pub fn only_what_is_so_is_noted()
    ensures so { OnlyWhatIsSo }
    ensures allowed { AllowedNotesAreSo }
{}

/// The rule that each step on a board's table keeps implies `KeptInTime`.
pub fn rule_is_kept()
    ensures { (places : ℕ) (s : State ℕ Sight) → rule_holds.it places s → KeptInTime places s }
{}
