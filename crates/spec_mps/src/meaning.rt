//! What the text of a model means, in the words of linear programs: laws on every text that spells a model.
//!
//! | Item | What it is | Where |
//! |---|---|---|
//! | `cards_in` | the data cards of a section, up to ENDATA | specs/TextCards |
//! | `title_of` | the words of the line that begins a section | specs/TextCards |
//! | `typed_rows` | the kinds and names of the rows | specs/RowCards |
//! | `first_free`, `but_first_free` | the first row of type N, and all rows but that one | specs/RowCards |
//! | `free_names`, `limited` | the names of the rows of type N, and the rows of other types | specs/RowCards |
//! | `sense_words`, `IsSenseOf` | the words that say a sense, and the sense | specs/RowCards |
//! | `named_columns` | the columns that cards name, by their first mention | specs/ColumnCards |
//! | `pairs_of_column` | the pairs on the cards of a column | specs/ColumnCards |
//! | `used_pairs` | the pairs of RHS or RANGES in the set that is used | specs/NumberCards |
//! | `texts_for` | the texts beside a name | specs/NumberCards |
//! | `IsTheNumber`, `IsTheRange`, `IsTheRangeOf` | the number that is the only text; a free row has no range | specs/NumberCards |
//! | `bounds_of_column` | the cards of a column in the set that BOUNDS uses | specs/BoundCards |
//! | `lower_of`, `upper_of` | the bounds that cards make together | specs/BoundCards |
//! | `Means` | all of this | specs/Meaning |
//!
//! The laws hold whatever the limits of size are, and know nothing of how a text is read: they speak of its cards, whose
//! fields specs/Fields tells apart. They are the contracts of the functions.

ghost use Rattle.std.specs.Prelude.{◌≡◌, ◌<◌, ◌↔◌, ℕ, Some, None, [], ◌∷◌, map};
ghost use Rattle.spec_exact.specs.Fraction.{ℚ, 0ℚ, ◌+ℚ◌, ◌-ℚ◌, ◌≤ℚ◌, ◌<ℚ◌, abs_ℚ, neg_ℚ};
ghost use Rattle.spec_model.specs.declared.parts.Kind.TheVariants as kind;
ghost use Rattle.spec_model.specs.declared.parts.SizeLimits.{SizeLimits};
ghost use Rattle.spec_model.specs.Model.{Model, ExactRow, limits_of};
ghost use Rattle.spec_model.specs.Model.{row, column, height, width, cost, coefficient};
ghost use Rattle.spec_model.specs.Kept.{IsModel};
ghost use Rattle.spec_model.specs.Truth.{IsBetween};
ghost use Rattle.spec_mps.specs.declared.section.Section.TheVariants as section;
ghost use Rattle.spec_mps.specs.declared.style.Style.{Style};
ghost use Rattle.spec_mps.specs.Steps.{SpellsWithin};
ghost use Rattle.spec_mps.specs.TextCards.{Lines, cards_in, title_of};
ghost use Rattle.spec_mps.specs.BoundCards.{bounds_of_column, lower_of, upper_of};
ghost use Rattle.spec_mps.specs.ColumnCards.{named_columns, pairs_of_column};
ghost use Rattle.spec_mps.specs.Meaning.{Means};
ghost use Rattle.spec_mps.specs.NumberCards.{texts_for, used_pairs, IsTheNumber, IsTheRange, IsTheRangeOf};
ghost use Rattle.spec_mps.specs.RowCards.{second_word, sense_words, IsSenseOf, typed_rows};
ghost use Rattle.spec_mps.specs.RowCards.{first_free, but_first_free, free_names, limited};

/// The name stands beside NAME, and the sense is what OBJSENSE says, MIN where nothing says one.
pub fn titles_are_names_and_senses()
    ensures name { (limits : SizeLimits) (style : Style) (lines : Lines) (m : Model) →
        SpellsWithin limits style lines m →
        m.name ≡ second_word (title_of section.Name lines) }
    ensures sense { (limits : SizeLimits) (style : Style) (lines : Lines) (m : Model) →
        SpellsWithin limits style lines m →
        IsSenseOf (sense_words (title_of section.Sense lines) (cards_in style section.Sense lines)) m.sense }
{}

/// The objective is the first row of type N. The rows are all others, further ones of type N too, in the order of their
/// cards.
pub fn rows_cards_are_rows()
    ensures objective { (limits : SizeLimits) (style : Style) (lines : Lines) (m : Model) →
        SpellsWithin limits style lines m →
        first_free (typed_rows (cards_in style section.Rows lines)) ≡ Some m.objective }
    ensures rows { (limits : SizeLimits) (style : Style) (lines : Lines) (m : Model) →
        SpellsWithin limits style lines m →
        map (λ r. (r.kind, r.name)) m.rows ≡ but_first_free (typed_rows (cards_in style section.Rows lines)) }
{}

/// The rows of type N are the objective and, in the order of their cards, the free rows of the model; those of the other
/// types are its other rows. So a reader that drops each row of type N but the first has these others, as they stand.
pub fn later_rows_of_type_n_are_free_rows()
    ensures free { (limits : SizeLimits) (style : Style) (lines : Lines) (m : Model) →
        SpellsWithin limits style lines m →
        free_names (typed_rows (cards_in style section.Rows lines))
        ≡ m.objective ∷ free_names (map (λ r. (r.kind, r.name)) m.rows) }
    ensures limited { (limits : SizeLimits) (style : Style) (lines : Lines) (m : Model) →
        SpellsWithin limits style lines m →
        limited (typed_rows (cards_in style section.Rows lines)) ≡ limited (map (λ r. (r.kind, r.name)) m.rows) }
{}

/// Where the objective alone is of type N, the rows are those of the other types, and each of them has the range that
/// RANGES gives it. So such a text means what it means to a reader that knows of no free rows.
pub fn lone_objectives_leave_rows_with_limits()
    ensures rows { (limits : SizeLimits) (style : Style) (lines : Lines) (m : Model) →
        SpellsWithin limits style lines m →
        free_names (typed_rows (cards_in style section.Rows lines)) ≡ m.objective ∷ [] →
        map (λ r. (r.kind, r.name)) m.rows ≡ limited (typed_rows (cards_in style section.Rows lines)) }
    ensures ranges { (limits : SizeLimits) (style : Style) (lines : Lines) (m : Model) →
        SpellsWithin limits style lines m →
        free_names (typed_rows (cards_in style section.Rows lines)) ≡ m.objective ∷ [] →
        (i : ℕ) → i < height m →
        IsTheRange (texts_for (row m i).name (used_pairs (cards_in style section.Ranges lines))) (row m i).range }
{}

/// The columns are those that COLUMNS names, in the order of their first mention. A coefficient is the number of the
/// one pair that names the column and the row, and 0 where there is none; and so is a cost, with the objective for the
/// row.
pub fn columns_cards_are_columns()
    ensures order { (limits : SizeLimits) (style : Style) (lines : Lines) (m : Model) →
        SpellsWithin limits style lines m →
        map (λ c. c.name) m.columns ≡ named_columns (cards_in style section.Columns lines) }
    ensures coefficients { (limits : SizeLimits) (style : Style) (lines : Lines) (m : Model) →
        SpellsWithin limits style lines m →
        (i j : ℕ) → i < height m → j < width m →
        IsTheNumber
        (texts_for (row m i).name (pairs_of_column (column m j).name (cards_in style section.Columns lines)))
        (coefficient m i j) }
    ensures costs { (limits : SizeLimits) (style : Style) (lines : Lines) (m : Model) →
        SpellsWithin limits style lines m → (j : ℕ) → j < width m →
        IsTheNumber (texts_for m.objective (pairs_of_column (column m j).name (cards_in style section.Columns lines)))
        (cost m j) }
{}

/// The right side of a row is the number beside its name in the set that RHS names first, and 0 where there is none.
/// That of the objective is the offset negated.
pub fn rhs_cards_are_right_sides()
    ensures rows { (limits : SizeLimits) (style : Style) (lines : Lines) (m : Model) →
        SpellsWithin limits style lines m → (i : ℕ) → i < height m →
        IsTheNumber (texts_for (row m i).name (used_pairs (cards_in style section.RightSides lines))) (row m i).rhs }
    ensures objective { (limits : SizeLimits) (style : Style) (lines : Lines) (m : Model) →
        SpellsWithin limits style lines m →
        IsTheNumber (texts_for m.objective (used_pairs (cards_in style section.RightSides lines))) (neg_ℚ m.offset) }
{}

/// The range of a row is the number beside its name in the set that RANGES names first, if there is one; a free row has
/// none, whatever stands there. The objective stands in no such pair.
pub fn ranges_cards_are_ranges()
    ensures rows { (limits : SizeLimits) (style : Style) (lines : Lines) (m : Model) →
        SpellsWithin limits style lines m → (i : ℕ) → i < height m →
        IsTheRangeOf (row m i).kind
        (texts_for (row m i).name (used_pairs (cards_in style section.Ranges lines))) (row m i).range }
    ensures objective { (limits : SizeLimits) (style : Style) (lines : Lines) (m : Model) →
        SpellsWithin limits style lines m →
        texts_for m.objective (used_pairs (cards_in style section.Ranges lines)) ≡ [] }
{}

/// The bounds of a column begin as 0 and none, and its cards in the set that BOUNDS names first change them. The last
/// card that sets a bound wins, and a negative upper bound takes away a lower bound that no card sets.
pub fn bounds_cards_are_bounds()
    ensures { (limits : SizeLimits) (style : Style) (lines : Lines) (m : Model) → SpellsWithin limits style lines m →
        (j : ℕ) → j < width m →
        ((column m j).lower
        ≡ lower_of style (bounds_of_column style (column m j).name (cards_in style section.Bounds lines)))
        × ((column m j).upper
        ≡ upper_of style (bounds_of_column style (column m j).name (cards_in style section.Bounds lines))) }
{}

/// What the sum of a row may be: at most the right side for L, at least it for G, equal to it for E, anything for N.
/// With a range, L has a second limit, the range's size below the right side, and G one above it. E goes from the right
/// side up by a range that is not negative, or down by a negative one.
pub fn rows_have_limits()
    ensures at_most { (r : ExactRow) (v : ℚ) → r.kind ≡ kind.L → r.range ≡ None →
        IsBetween (limits_of r) v ↔ (v ≤ℚ r.rhs) }
    ensures at_most_from { (r : ExactRow) (range v : ℚ) → r.kind ≡ kind.L → r.range ≡ Some range →
        IsBetween (limits_of r) v ↔ (((r.rhs -ℚ abs_ℚ range) ≤ℚ v) × (v ≤ℚ r.rhs)) }
    ensures at_least { (r : ExactRow) (v : ℚ) → r.kind ≡ kind.G → r.range ≡ None →
        IsBetween (limits_of r) v ↔ (r.rhs ≤ℚ v) }
    ensures at_least_to { (r : ExactRow) (range v : ℚ) → r.kind ≡ kind.G → r.range ≡ Some range →
        IsBetween (limits_of r) v ↔ ((r.rhs ≤ℚ v) × (v ≤ℚ (r.rhs +ℚ abs_ℚ range))) }
    ensures equal { (r : ExactRow) (v : ℚ) → r.kind ≡ kind.E → r.range ≡ None →
        IsBetween (limits_of r) v ↔ (v ≡ r.rhs) }
    ensures equal_up_to { (r : ExactRow) (range v : ℚ) → r.kind ≡ kind.E → r.range ≡ Some range → 0ℚ ≤ℚ range →
        IsBetween (limits_of r) v ↔ ((r.rhs ≤ℚ v) × (v ≤ℚ (r.rhs +ℚ range))) }
    ensures equal_down_to { (r : ExactRow) (range v : ℚ) → r.kind ≡ kind.E → r.range ≡ Some range → range <ℚ 0ℚ →
        IsBetween (limits_of r) v ↔ (((r.rhs +ℚ range) ≤ℚ v) × (v ≤ℚ r.rhs)) }
    ensures free { (r : ExactRow) (v : ℚ) → r.kind ≡ kind.N → IsBetween (limits_of r) v }
{}

/// A text means the model that it spells, and no other model that may be kept: the laws above leave nothing open.
pub fn texts_have_one_meaning()
    ensures meant { (limits : SizeLimits) (style : Style) (lines : Lines) (m : Model) →
        SpellsWithin limits style lines m → Means style lines m }
    ensures one { (style : Style) (lines : Lines) (m o : Model) → Means style lines m → Means style lines o →
        IsModel m → IsModel o → m ≡ o }
{}
