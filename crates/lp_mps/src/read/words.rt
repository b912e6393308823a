// The words of the format.
ghost use Rattle.std.specs.Prelude.{◌≡◌};
ghost use Rattle.spec_mps.specs.Shapes as shapes;

use lp_base::look_up;
use lp_model::{Kind, Sense};
use spec_mps::{BoundKind, Code, Section};

const SECTIONS: [(&[u8], Section); 8] = [
    (b"NAME", Section::Name),
    (b"OBJSENSE", Section::Sense),
    (b"ROWS", Section::Rows),
    (b"COLUMNS", Section::Columns),
    (b"RHS", Section::RightSides),
    (b"RANGES", Section::Ranges),
    (b"BOUNDS", Section::Bounds),
    (b"ENDATA", Section::End),
];

const SENSES: [(&[u8], Sense); 4] = [
    (b"MIN", Sense::Min),
    (b"MINIMIZE", Sense::Min),
    (b"MAX", Sense::Max),
    (b"MAXIMIZE", Sense::Max),
];

const ROW_TYPES: [(&[u8], Kind); 4] = [
    (b"N", Kind::N),
    (b"L", Kind::L),
    (b"G", Kind::G),
    (b"E", Kind::E),
];

// The kinds for columns of whole numbers and semi-continuous columns are not read.
const BOUND_KINDS: [(&[u8], Result<BoundKind, Code>); 10] = [
    (b"UP", Ok(BoundKind::Up)),
    (b"LO", Ok(BoundKind::Lo)),
    (b"FX", Ok(BoundKind::Fx)),
    (b"FR", Ok(BoundKind::Fr)),
    (b"MI", Ok(BoundKind::Mi)),
    (b"PL", Ok(BoundKind::Pl)),
    (b"BV", Err(Code::Integer)),
    (b"LI", Err(Code::Integer)),
    (b"UI", Err(Code::Integer)),
    (b"SC", Err(Code::SemiContinuous)),
];

/// The section that a word begins; none for another word.
#[tactic(auto, unfolding(spec_mps::specs::Shapes::section_of))]
pub(crate) fn section_of(word: &[u8]) -> Option<Section>
    ensures { result ≡ shapes.section_of word.now }
{
    look_up(word, &SECTIONS)
}

/// The sense that a word says; none for another word.
#[tactic(auto, unfolding(spec_mps::specs::Shapes::sense_of))]
pub(crate) fn sense_of(word: &[u8]) -> Option<Sense>
    ensures { result ≡ shapes.sense_of word.now }
{
    look_up(word, &SENSES)
}

/// The kind of row that a letter says; none for another word.
#[tactic(auto, unfolding(spec_mps::specs::Shapes::row_type_of))]
pub(crate) fn row_type_of(word: &[u8]) -> Option<Kind>
    ensures { result ≡ shapes.row_type_of word.now }
{
    look_up(word, &ROW_TYPES)
}

/// The kind of bound that a word says; a fault for another word.
#[tactic(auto, unfolding(spec_mps::specs::Shapes::bound_kind_of))]
pub(crate) fn bound_kind_of(word: &[u8]) -> Result<BoundKind, Code>
    ensures { result ≡ shapes.bound_kind_of word.now }
{
    match look_up(word, &BOUND_KINDS) {
        Some(kind) => kind,
        None => Err(Code::BoundKind),
    }
}
