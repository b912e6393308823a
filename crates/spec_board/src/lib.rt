//! The words in which sessions pass on the shape of a form and a basis of it, and the slots of the board that hold such
//! words. Also what is read and written of these.
//!
//! | Item | What it is | Where |
//! |---|---|---|
//! | `shape_of` | 25 words with the numbers of a form's rows and columns, and which bounds each column has | specs/Words |
//! | `packed` | these, and 24 words with the status of each column | specs/Words |
//! | `IsWellFormed` | what holds of 49 words that have a basis | specs/Words |
//! | `unpacked` | the basis in words | specs/Words |
//! | `BasisWords`, `ShapeWords` | the words of a basis and of a shape in code | src/words |
//! | `Place` | a place that is claimed | src/place |
//! | `Read` | one read or write of the places | src/read |
//! | `Found` | a place that a look found | src/read |
//! | `Put` | what became of words that were to be published | src/read |
//! | `LookReads`, `PutReads` | a look and a put, by what they read | specs/Reads |
//! | `Answers`, `Plays` | reads that the places answer, one and all in one order | specs/Places |
//! | `AreInOrder`, `AreBacked` | what the reads of one say of each other, and those of all | specs/Orders |
//! | `HaveOneOrder` | that the reads of all stand in one order, which the places answer | specs/Orders |
//! | `LooksFindTheNewest` | what a look finds while others publish | specs/Newest |
//!
//! The functions here have the laws as their contracts.
//!
//! The places are claimed one after the other, and each is written once. A look reads how many are claimed, and goes
//! over them from the newest down to the first whose words have a shape. A put claims one place in one try, and writes
//! it.
#![tactic(auto)]

mod place;
mod read;
mod words;

ghost use Rattle.std.specs.Prelude.{◌≡◌, ◌+◌, ◌<◌, ◌^◌, ℕ, List, length, take, All};
ghost use Rattle.spec_pivot.specs.declared.status.Status.{Status};
ghost use Rattle.spec_simplex.specs.Form.{Form, IsForm};
ghost use Rattle.spec_simplex.specs.Eliminate.{IsBasisOf};
ghost use Rattle.spec_board.specs.Words.{shape_of, packed, unpacked, IsWellFormed, SameShape, places};
ghost use Rattle.spec_board.specs.Words.{rows_of, cols_of, bounds_at, form_code, basis_code, code_at};
ghost use Rattle.spec_board.specs.Newest.{LooksFindTheNewest};

pub use place::Place;
pub use read::{Found, Put, Read};
pub use words::{BasisWords, ShapeWords};

/// A list of statuses, one for each structural and each logical column of a form, is packed in words that are unpacked
/// to the same list.
pub fn words_give_the_basis()
    ensures { (f : Form) (basis : List Status) → IsForm f →
        length basis ≡ f.cols + f.rows → unpacked (packed f basis) ≡ basis }
{}

/// The words of a packed basis begin with the form's shape, and are well formed where the basis is one of the form.
pub fn packed_words_are_well_formed()
    ensures front { (f : Form) (basis : List Status) → take 25 (packed f basis) ≡ shape_of f }
    ensures formed { (f : Form) (basis : List Status) → IsForm f → IsBasisOf f basis → IsWellFormed (packed f basis) }
{}

/// Well-formed words that begin with a form's shape have one of its bases, whoever packed them.
pub fn words_of_one_shape_fit()
    ensures { (f : Form) (words : List ℕ) → IsForm f → IsWellFormed words →
        take 25 words ≡ shape_of f → IsBasisOf f (unpacked words) }
{}

/// A basis of a form has exactly one list of words: well-formed words of 64 bits that begin with the form's shape are
/// unpacked to a basis that is packed as the same words.
pub fn bases_have_one_list_of_words()
    ensures { (f : Form) (words : List ℕ) → IsForm f → IsWellFormed words →
        take 25 words ≡ shape_of f → All (λ w. w < 2 ^ 64) words →
        packed f (unpacked words) ≡ words }
{}

/// Two forms of one shape have the same bases.
pub fn one_shape_takes_the_same_bases()
    ensures { (f g : Form) → IsForm f → IsForm g → SameShape f g →
        (basis : List Status) → IsBasisOf f basis → IsBasisOf g basis }
{}

/// From the packed words of a form and a basis the numbers of rows and columns are read back as the form has them. The
/// bits of each column are read back as those of its bounds and of its status. Each of the words is below 2 ^ 64.
pub fn bits_stand_at_their_columns()
    ensures rows { (f : Form) (basis : List Status) → IsForm f → rows_of (packed f basis) ≡ f.rows }
    ensures columns { (f : Form) (basis : List Status) → IsForm f → cols_of (packed f basis) ≡ f.cols }
    ensures sizes { (f : Form) (basis : List Status) → IsForm f → All (λ w. w < 2 ^ 64) (packed f basis) }
    ensures bounds { (f : Form) (basis : List Status) (c : ℕ) →
        c < places → bounds_at (packed f basis) c ≡ form_code f c }
    ensures statuses { (f : Form) (basis : List Status) (c : ℕ) →
        c < places → code_at 25 (packed f basis) c ≡ basis_code basis c }
{}

/// Where a place is done with the shape of a look when this begins, it finds that place or a newer one, whatever other
/// sessions do meanwhile.
pub fn looks_find_the_newest()
    ensures { LooksFindTheNewest }
{}
